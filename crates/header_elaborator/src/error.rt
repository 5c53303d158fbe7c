//! Why a walk stops.

ghost use Rattle.std.specs.Prelude.{◌≡◌};
ghost use Rattle.header_elaborator.specs.Code.{of_context, of_rule, of_state};
ghost use Rattle.header_elaborator.specs.declared.error.Stop.TheVariants as stop;
ghost use Rattle.typed_core.specs.Limits.{limit_of};

use index_sorts::ContextError;
use operation_rules::{Fault, RuleError};
use state_types::StateError;
use std::alloc::{AllocError, AllocFailed};
use xan_lin::{LimitKind, Memory, TooLarge};

/// Memory ran out, where nothing else stops the code.
#[derive(Clone, Copy, Drop)]
pub struct Failure;

/// Why a walk stops.
#[derive(Clone, Copy, Drop)]
pub enum Stop {
    /// A limit is passed.
    Past(LimitKind),
    /// A number names nothing, or a kind is another one than is asked for: the definition says so too.
    Misfit,
    /// Terms or index variables do not rise, or a form names what is not there: the definition says so too.
    Stray,
    /// Memory ran out.
    Memory,
}

/// The limit that a form is past.
pub(crate) fn limit_of(why: TooLarge) -> LimitKind
    ensures { result ≡ limit_of why }
{
    match why {
        TooLarge::Terms => LimitKind::Terms,
        TooLarge::Magnitude => LimitKind::Magnitude,
    }
}

impl From<TooLarge> for Stop {
    ghost from_gives = { λ why error. error ≡ stop.Past (limit_of why) };

    fn from(why: TooLarge) -> Stop {
        Stop::Past(limit_of(why))
    }
}

impl From<ContextError> for Stop {
    ghost from_gives = { λ why error. error ≡ of_context why };

    fn from(why: ContextError) -> Stop {
        match why {
            ContextError::Variables => Stop::Past(LimitKind::Variables),
            ContextError::Rows => Stop::Past(LimitKind::Rows),
            ContextError::Memory => Stop::Memory,
        }
    }
}

impl From<RuleError> for Stop {
    ghost from_gives = { λ why error. error ≡ of_rule why };

    fn from(why: RuleError) -> Stop {
        match why {
            RuleError::Fault(Fault::Large(why)) => Stop::Past(limit_of(why)),
            RuleError::Fault(Fault::Full(ContextError::Variables)) => {
                Stop::Past(LimitKind::Variables)
            }
            RuleError::Fault(Fault::Full(ContextError::Rows)) => Stop::Past(LimitKind::Rows),
            RuleError::Fault(_) => Stop::Misfit,
            RuleError::Memory => Stop::Memory,
        }
    }
}

impl From<StateError> for Stop {
    ghost from_gives = { λ why error. error ≡ of_state why };

    fn from(why: StateError) -> Stop {
        match why {
            StateError::Large(why) => Stop::Past(limit_of(why)),
            StateError::Kind(_) => Stop::Misfit,
            StateError::Memory => Stop::Memory,
        }
    }
}

impl From<Failure> for Stop {
    ghost from_gives = { λ _ error. error ≡ stop.Memory };

    fn from(_error: Failure) -> Stop {
        Stop::Memory
    }
}

impl From<Memory> for Stop {
    ghost from_gives = { λ _ error. error ≡ stop.Memory };

    fn from(_error: Memory) -> Stop {
        Stop::Memory
    }
}

impl From<AllocError> for Stop {
    ghost from_gives = { λ _ error. error ≡ stop.Memory };

    fn from(_error: AllocError) -> Stop {
        Stop::Memory
    }
}

impl<T: Drop> From<AllocFailed<T>> for Stop {
    ghost from_gives = { λ _ error. error ≡ stop.Memory };

    fn from(_error: AllocFailed<T>) -> Stop {
        Stop::Memory
    }
}

impl From<Memory> for Failure {
    fn from(_error: Memory) -> Failure {
        Failure
    }
}

impl From<AllocError> for Failure {
    fn from(_error: AllocError) -> Failure {
        Failure
    }
}

impl<T: Drop> From<AllocFailed<T>> for Failure {
    fn from(_error: AllocFailed<T>) -> Failure {
        Failure
    }
}
