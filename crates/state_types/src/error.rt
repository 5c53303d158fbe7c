//! Why a target is not met.

ghost use Rattle.std.specs.Prelude.{◌≡◌};
ghost use Rattle.state_types.specs.declared.error.StateError.TheVariants as state_error;

use std::alloc::{AllocError, AllocFailed};
use thiserror::Error;
use xan_lin::{Memory, TooLarge};

/// Why there are no demanded rows.
#[derive(Clone, Copy, Debug, Error)]
pub enum StateError {
    /// The first part of another kind than wanted, from 0, or the first place without a type or with one of another kind.
    #[error("kind")]
    Kind(u32),
    /// No kind differs, and the first form that is needed is past the bounds.
    #[error("large")]
    Large(TooLarge),
    /// Memory ran out.
    #[error("memory")]
    Memory,
}

impl From<TooLarge> for StateError {
    ghost from_gives = { λ why error. error ≡ state_error.Large why };

    fn from(why: TooLarge) -> StateError {
        StateError::Large(why)
    }
}

impl From<Memory> for StateError {
    ghost from_gives = { λ _ error. error ≡ state_error.Memory };

    fn from(_error: Memory) -> StateError {
        StateError::Memory
    }
}

impl From<AllocError> for StateError {
    ghost from_gives = { λ _ error. error ≡ state_error.Memory };

    fn from(_error: AllocError) -> StateError {
        StateError::Memory
    }
}

impl<T: Drop> From<AllocFailed<T>> for StateError {
    ghost from_gives = { λ _ error. error ≡ state_error.Memory };

    fn from(_error: AllocFailed<T>) -> StateError {
        StateError::Memory
    }
}
