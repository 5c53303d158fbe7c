//! What a run of a source comes to, and the line that says so.

ghost use Rattle.std.specs.Prelude.{◌≡◌};
ghost use Rattle.xan_io.specs.Lines.{number_line};
ghost use Rattle.command_reports.specs.RunEnds as spec;
ghost use Rattle.command_reports.specs.Report.{end_report};
ghost use Rattle.command_reports.specs.Said.{Says};

use crate::answer::Answer;
use crate::goal_lines::Line;
use crate::lines::{line_of_number, line_of_word};
use arrayvec::ArrayString;
use itoa::Buffer;
use xan_io::Sink;

/// What a run of a source comes to. Arguments and rows are numbered from 1.
#[derive(Clone, Copy)]
pub enum RunEnd {
    /// Another number of arguments than of parameters.
    ArgCount,
    /// The argument is of another kind than the parameter.
    ArgKind(u32),
    /// The argument's index is not the parameter's.
    ArgIndex(u32),
    /// A row of the entry does not hold.
    EntryRow(u32),
    /// `main` has returned this number.
    Returned(i64),
    /// The store or the activations did not suffice.
    NoStore,
    /// A result does not fit a word.
    Overflow,
    /// The run needs more units of fuel than these.
    FuelEnded(u64),
}

/// The status that the program ends with.
pub(crate) fn status_of_end(end: RunEnd) -> u8
    ensures { result ≡ spec.end_status end }
{
    match end {
        RunEnd::Returned(_) => 0,
        RunEnd::ArgCount | RunEnd::ArgKind(_) | RunEnd::ArgIndex(_) | RunEnd::EntryRow(_) => 12,
        RunEnd::NoStore => 13,
        RunEnd::Overflow => 14,
        RunEnd::FuelEnded(_) => 15,
    }
}

/// The line of an end.
fn line_of_end(end: RunEnd) -> Line
    ensures { result.bytes ≡ spec.end_line end }
{
    match end {
        RunEnd::ArgCount => line_of_word("entry: count\n"),
        RunEnd::ArgKind(number) => {
            line_of_number("entry: kind of argument ", u64::from(number), "\n")
        }
        RunEnd::ArgIndex(number) => {
            line_of_number("entry: index of argument ", u64::from(number), "\n")
        }
        RunEnd::EntryRow(number) => line_of_number("entry: row ", u64::from(number), "\n"),
        RunEnd::Returned(word) => line_of_result(&word),
        RunEnd::NoStore => line_of_word("no store\n"),
        RunEnd::Overflow => line_of_word("overflow\n"),
        RunEnd::FuelEnded(units) => line_of_number("fuel ended: ", units, "\n"),
    }
}

/// The line of the number that a run returned.
fn line_of_result(number: &i64) -> Line
    ensures { result.bytes ≡ number_line number.now }
{
    let mut buffer = Buffer::new();
    let mut line = ArrayString::new();
    line.push_str(buffer.format(*number));
    line.push_str("\n");
    line
}

/// Puts the line of the end, and gives its status, or 4 where the line was not put whole.
pub fn say_end<O: Sink>(out: &mut O, end: RunEnd) -> u8
    ensures { Says (end_report end) result (O.faults out.old) (O.faults out.new) (O.written out.old) (O.written out.new) }
{
    let line = line_of_end(end);
    match out.put(line.as_bytes()) {
        Ok(()) => status_of_end(end),
        Err(_fault) => Answer::WriteFailed.status(),
    }
}
