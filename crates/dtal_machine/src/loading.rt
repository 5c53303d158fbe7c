//! Why a run cannot begin.

use std::alloc::{AllocError, AllocFailed};

/// Why a run cannot begin, in the order in which it is looked at. Arguments and rows are numbered from 1.
#[derive(Clone, Copy)]
pub enum LoadError {
    /// Another number of arguments than of parameters.
    ArgCount,
    /// The argument is of another kind than the parameter.
    ArgKind(u32),
    /// The argument's index is not the parameter's.
    ArgIndex(u32),
    /// A row of the entry does not hold.
    EntryRow(u32),
    /// There may be no activation, or the arguments have no room in the store.
    NoStore,
    /// Memory ran out.
    Memory,
}

impl From<AllocError> for LoadError {
    ghost use Rattle.std.specs.Prelude.{◌≡◌};
    ghost use Rattle.dtal_machine.specs.declared.loading.LoadError.TheVariants as load;

    ghost from_gives = { λ _ e. e ≡ load.Memory };

    fn from(_error: AllocError) -> LoadError {
        LoadError::Memory
    }
}

impl<T: Drop> From<AllocFailed<T>> for LoadError {
    ghost use Rattle.std.specs.Prelude.{◌≡◌};
    ghost use Rattle.dtal_machine.specs.declared.loading.LoadError.TheVariants as load;

    ghost from_gives = { λ _ e. e ≡ load.Memory };

    fn from(_error: AllocFailed<T>) -> LoadError {
        LoadError::Memory
    }
}
