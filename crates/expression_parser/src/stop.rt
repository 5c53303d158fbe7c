//! Why a production was not read.

ghost use Rattle.std.specs.Prelude.{◌≡◌};
ghost use Rattle.expression_parser.specs.declared.stop.Stop.TheVariants as stop;

use std::alloc::{AllocError, AllocFailed};
use xan_io::Memory;

/// Why a production was not read.
#[derive(Clone, Copy, Drop)]
pub enum Stop {
    /// How many tokens are left at the fault, the first of them the one that cannot follow. None is left where more tokens are wanted.
    Fault(usize),
    /// Memory ran out.
    Memory,
}

impl Stop {
    /// This stop, behind a value that was read before it and is let go.
    pub fn behind<T: Drop>(self, _value: T) -> Stop
        ensures { result ≡ self }
    {
        self
    }
}

impl From<Memory> for Stop {
    ghost from_gives = { λ _ error. error ≡ stop.Memory };

    fn from(_error: Memory) -> Stop {
        Stop::Memory
    }
}

impl From<AllocError> for Stop {
    ghost from_gives = { λ _ error. error ≡ stop.Memory };

    fn from(_error: AllocError) -> Stop {
        Stop::Memory
    }
}

impl<T: Drop> From<AllocFailed<T>> for Stop {
    ghost from_gives = { λ _ error. error ≡ stop.Memory };

    fn from(_error: AllocFailed<T>) -> Stop {
        Stop::Memory
    }
}
