//! Why an operation has no rule.

ghost use Rattle.std.specs.Prelude.{◌≡◌};
ghost use Rattle.operation_rules.specs.Answers.{of_context, of_state};
ghost use Rattle.operation_rules.specs.Faults.{Large};
ghost use Rattle.operation_rules.specs.declared.error.RuleError.TheVariants as rule_error;

use index_sorts::ContextError;
use state_types::StateError;
use std::alloc::{AllocError, AllocFailed};
use xan_lin::{Memory, TooLarge};

/// The rule of verification that an operation breaks, by the order in which these are looked at.
#[derive(Clone, Copy, Drop)]
pub enum Fault {
    /// There is no such function.
    NoTarget,
    /// There is no such type, or it is one of cells where a tuple type is asked for.
    NoType,
    /// A place that is read has no type.
    NoPlace,
    /// Another number of operands or parts.
    WrongCount,
    /// Another kind or type number than asked for.
    WrongKind,
    /// A needed form is past the bounds.
    Large(TooLarge),
    /// There are too many variables or rows; never `Memory`.
    Full(ContextError),
}

/// Why there is no answer.
#[derive(Clone, Copy, Drop)]
pub enum RuleError {
    /// The operation has no rule.
    Fault(Fault),
    /// Memory ran out.
    Memory,
}

impl From<Fault> for RuleError {
    ghost from_gives = { λ fault error. error ≡ rule_error.Fault fault };

    fn from(fault: Fault) -> RuleError {
        RuleError::Fault(fault)
    }
}

impl From<TooLarge> for RuleError {
    ghost from_gives = { λ why error. error ≡ rule_error.Fault (Large why) };

    fn from(why: TooLarge) -> RuleError {
        RuleError::Fault(Fault::Large(why))
    }
}

impl From<ContextError> for RuleError {
    ghost from_gives = { λ why error. error ≡ of_context why };

    fn from(why: ContextError) -> RuleError {
        match why {
            ContextError::Variables => RuleError::Fault(Fault::Full(ContextError::Variables)),
            ContextError::Rows => RuleError::Fault(Fault::Full(ContextError::Rows)),
            ContextError::Memory => RuleError::Memory,
        }
    }
}

impl From<StateError> for RuleError {
    ghost from_gives = { λ why error. error ≡ of_state why };

    fn from(why: StateError) -> RuleError {
        match why {
            StateError::Large(why) => RuleError::Fault(Fault::Large(why)),
            StateError::Kind(_) => RuleError::Fault(Fault::WrongKind),
            StateError::Memory => RuleError::Memory,
        }
    }
}

impl From<Memory> for RuleError {
    ghost from_gives = { λ _ error. error ≡ rule_error.Memory };

    fn from(_error: Memory) -> RuleError {
        RuleError::Memory
    }
}

impl From<AllocError> for RuleError {
    ghost from_gives = { λ _ error. error ≡ rule_error.Memory };

    fn from(_error: AllocError) -> RuleError {
        RuleError::Memory
    }
}

impl<T: Drop> From<AllocFailed<T>> for RuleError {
    ghost from_gives = { λ _ error. error ≡ rule_error.Memory };

    fn from(_error: AllocFailed<T>) -> RuleError {
        RuleError::Memory
    }
}
