//! Why a run goes no further.

ghost use Rattle.std.specs.Prelude.{◌≡◌};
ghost use Rattle.source_values.specs.declared.halt.Halt.TheVariants as halt;

use std::alloc::AllocError;

/// Why a run goes no further, but that a function returned.
#[derive(Clone, Copy, Drop)]
pub enum Halt {
    /// The store has no room, or there may be no activation more.
    NoStore,
    /// A result does not fit a word.
    Overflow,
    /// What no run of a proved program comes to.
    Stuck,
    /// The units of fuel are spent.
    FuelEnded,
    /// Memory ran out.
    Memory,
}

impl From<AllocError> for Halt {
    ghost from_gives = { λ _ e. e ≡ halt.Memory };

    fn from(_error: AllocError) -> Halt {
        Halt::Memory
    }
}
