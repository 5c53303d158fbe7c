//! How a run of a source ends, or why it has none.

ghost use Rattle.std.specs.Prelude.{◌≡◌, ◌≢◌};
ghost use Rattle.source_values.specs.declared.halt.Halt.TheVariants as stops;
ghost use Rattle.source_evaluator.specs.Evaluating.{answer_of, error_of};

use argument_checks::ArgumentError;
use source_values::Halt;

/// How a run of a source ends.
#[derive(Clone, Copy)]
pub enum SourceEnd {
    /// `main` has returned this number.
    Returned(i64),
    /// The store has no room, or there may be no activation more.
    NoStore,
    /// A result does not fit a word.
    Overflow,
    /// The run needs more units of fuel.
    FuelEnded,
}

/// Why there is no end. Arguments and rows are numbered from 1.
#[derive(Clone, Copy)]
pub enum EvalError {
    /// Another number of arguments than of parameters.
    ArgCount,
    /// The argument is of another kind than the parameter.
    ArgKind(u32),
    /// The argument's index is not the parameter's.
    ArgIndex(u32),
    /// A row of the entry does not hold.
    EntryRow(u32),
    /// The sink failed.
    WriteFault,
    /// Memory ran out.
    Memory,
}

/// What is answered of a fault of the arguments.
pub(crate) fn refuse(error: ArgumentError) -> EvalError
    ensures { result ≡ error_of error }
{
    match error {
        ArgumentError::ArgCount => EvalError::ArgCount,
        ArgumentError::ArgKind(argument) => EvalError::ArgKind(argument),
        ArgumentError::ArgIndex(argument) => EvalError::ArgIndex(argument),
        ArgumentError::EntryRow(row) => EvalError::EntryRow(row),
        ArgumentError::Memory => EvalError::Memory,
    }
}

/// What is answered where a run goes no further. None is stuck.
pub(crate) fn end(halt: Halt) -> Result<SourceEnd, EvalError>
    requires { halt ≢ stops.Stuck }
    ensures { result ≡ answer_of halt }
{
    match halt {
        Halt::NoStore => Ok(SourceEnd::NoStore),
        Halt::Overflow => Ok(SourceEnd::Overflow),
        Halt::FuelEnded => Ok(SourceEnd::FuelEnded),
        Halt::Memory => Err(EvalError::Memory),
        Halt::Stuck => unreachable!(),
    }
}
