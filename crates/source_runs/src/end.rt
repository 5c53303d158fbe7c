//! The end of a run, as a command says it.

ghost use Rattle.std.specs.Prelude.{◌≡◌};
ghost use Rattle.source_runs.specs.Runs.{said_end};

use command_reports::RunEnd;
use source_evaluator::SourceEnd;

/// What is said of the end of a run that may take so many units.
pub fn end_of(end: SourceEnd, units: u64) -> RunEnd
    ensures { result ≡ said_end units end }
{
    match end {
        SourceEnd::Returned(word) => RunEnd::Returned(word),
        SourceEnd::NoStore => RunEnd::NoStore,
        SourceEnd::Overflow => RunEnd::Overflow,
        SourceEnd::FuelEnded => RunEnd::FuelEnded(units),
    }
}
