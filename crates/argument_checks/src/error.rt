//! What is wrong with arguments.

use std::alloc::AllocError;

/// What is wrong with the arguments of a run, in the order in which it is looked at. Arguments and rows are numbered from 1.
#[derive(Clone, Copy)]
pub enum ArgumentError {
    /// Another number of arguments than of parameters.
    ArgCount,
    /// The argument is of another kind than the parameter.
    ArgKind(u32),
    /// The argument's index is not the parameter's.
    ArgIndex(u32),
    /// A row of the entry does not hold.
    EntryRow(u32),
    /// Memory ran out.
    Memory,
}

impl From<AllocError> for ArgumentError {
    ghost use Rattle.std.specs.Prelude.{◌≡◌};
    ghost use Rattle.argument_checks.specs.declared.error.ArgumentError.TheVariants as argument;

    ghost from_gives = { λ _ e. e ≡ argument.Memory };

    fn from(_error: AllocError) -> ArgumentError {
        ArgumentError::Memory
    }
}
