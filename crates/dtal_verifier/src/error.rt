//! Why a program is not accepted.

ghost use Rattle.std.specs.Prelude.{◌≡◌};
ghost use Rattle.dtal_verifier.specs.Code.{located};
ghost use Rattle.dtal_verifier.specs.declared.error.VerifyError.TheVariants as verify_error;

use dtal_code::{Rule, Where};
use instruction_checks::Broken;
use std::alloc::{AllocError, AllocFailed};
use xan_lin::Memory;

/// Why a program is not accepted, or is not known to be.
#[derive(Clone, Copy, Drop)]
pub enum VerifyError {
    /// The first place that is refused, and its first rule.
    Refused {
        /// The place.
        at: Where,
        /// The rule.
        rule: Rule,
    },
    /// Memory ran out.
    Memory,
}

/// What is broken at a place, told with the place.
pub(crate) fn locate(broken: Broken, place: Where) -> VerifyError
    ensures { result ≡ located place broken }
{
    match broken {
        Broken::Rule(rule) => VerifyError::Refused { at: place, rule },
        Broken::Memory => VerifyError::Memory,
    }
}

impl From<Memory> for VerifyError {
    ghost from_gives = { λ _ error. error ≡ verify_error.Memory };

    fn from(_error: Memory) -> VerifyError {
        VerifyError::Memory
    }
}

impl From<AllocError> for VerifyError {
    ghost from_gives = { λ _ error. error ≡ verify_error.Memory };

    fn from(_error: AllocError) -> VerifyError {
        VerifyError::Memory
    }
}

impl<T: Drop> From<AllocFailed<T>> for VerifyError {
    ghost from_gives = { λ _ error. error ≡ verify_error.Memory };

    fn from(_error: AllocFailed<T>) -> VerifyError {
        VerifyError::Memory
    }
}
