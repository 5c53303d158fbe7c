//! Where reading failed, and why.

ghost use Rattle.std.specs.Prelude.{◌≡◌, ◌-◌};
ghost use Rattle.xan_read.specs.declared.fault.ReadError.TheVariants as errors;

use std::alloc::{AllocError, AllocFailed};

/// The place of a fault: how many bytes are left, the first of them the one at which reading failed.
/// None is left where the bytes end too early.
#[derive(Clone, Copy, Drop)]
pub struct Fault {
    pub left: usize,
}

impl Fault {
    /// The place in bytes of this length, which were read from the front: how many of them are good.
    pub fn offset(self, len: usize) -> usize
        ensures { result ≡ len - self.left }
    {
        len.saturating_sub(self.left)
    }
}

/// Why a production that takes memory was not read.
#[derive(Drop)]
pub enum ReadError {
    /// Memory ran out. It is the one error that does not depend on the bytes.
    Memory,
    /// The bytes begin with no text of the production.
    Fault(Fault),
}

impl From<Fault> for ReadError {
    ghost from_gives = { λ fault e. e ≡ errors.Fault fault };

    fn from(fault: Fault) -> ReadError {
        ReadError::Fault(fault)
    }
}

impl From<AllocError> for ReadError {
    ghost from_gives = { λ _ e. e ≡ errors.Memory };

    fn from(_e: AllocError) -> ReadError {
        ReadError::Memory
    }
}

impl<T: Drop> From<AllocFailed<T>> for ReadError {
    ghost from_gives = { λ _ e. e ≡ errors.Memory };

    fn from(_e: AllocFailed<T>) -> ReadError {
        ReadError::Memory
    }
}
