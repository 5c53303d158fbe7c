//! The lines of the answers, each put as one piece, without memory. After a fault a prefix of the line is put.

ghost use Rattle.std.specs.Prelude.{◌≡◌, ◌≤◌, ◌+◌, ◌++◌, length, OnOk, OnErr};
ghost use Rattle.std.specs.Io.KnownBytes.{append_known};
ghost use Rattle.xan_io.specs.Faults.{Rose};
ghost use Rattle.xan_io.specs.Written.{AppendsPrefix};
ghost use Rattle.command_reports.specs.Answers as spec;
ghost use Rattle.command_reports.specs.Report.{Answered, report_of};
ghost use Rattle.command_reports.specs.Said.{Says};
ghost use Rattle.command_reports.specs.Answers.{numbered};

use crate::answer::{Answer, Counts};
use crate::goal_lines::{Line, line_of_goal, push_limit};
use crate::refusal::Refusal;
use arrayvec::ArrayString;
use itoa::Buffer;
use xan_io::{Sink, SinkFault};
use xan_lin::{Form, LimitKind};

/// Puts the answer's line, and gives its status, or 4 where the line was not put whole.
pub fn say<O: Sink>(out: &mut O, answer: &Answer) -> u8
    ensures { Says (report_of (Answered answer.now)) result (O.faults out.old) (O.faults out.new) (O.written out.old) (O.written out.new) }
{
    match put_line(out, answer) {
        Ok(()) => answer.status(),
        Err(_fault) => Answer::WriteFailed.status(),
    }
}

/// Puts the line of the answer.
fn put_line<O: Sink>(out: &mut O, answer: &Answer) -> Result<(), SinkFault>
    ensures appended { OnOk result (O.written out.new ≡ append_known (O.written out.old) (spec.line_of answer.now)) }
    ensures counted { OnOk result (O.faults out.new ≡ O.faults out.old) }
    ensures prefix { OnErr result (AppendsPrefix (O.written out.old) (O.written out.new) (spec.line_of answer.now)) }
    ensures failed { OnErr result (Rose (O.faults out.old) (O.faults out.new)) }
    ensures never_falls { O.faults out.old ≤ O.faults out.new }
{
    let line = line_of(answer);
    out.put(line.as_bytes())
}

/// The line of an answer.
fn line_of(answer: &Answer) -> Line
    ensures { result.bytes ≡ spec.line_of answer.now }
{
    match answer {
        Answer::Built(counts) => line_of_counts(*counts),
        Answer::NoCommand => line_of_word("words: not a command\n"),
        Answer::ReadFailed => line_of_word("read: failed\n"),
        Answer::WriteFailed => line_of_word("write: failed\n"),
        Answer::Memory => line_of_word("memory\n"),
        Answer::Refused(refusal) => line_of_refusal(refusal),
    }
}

/// The line of a text that is written.
#[tactic(auto, using(crate::proofs::LinePieces::pieces))]
fn line_of_counts(counts: Counts) -> Line
    ensures { result.bytes ≡ spec.built_line counts }
{
    let mut line = ArrayString::new();
    push_numbered(&mut line, "built: ", counts.functions);
    push_numbered(&mut line, " functions, ", counts.goals);
    push_between(
        &mut line,
        " goals, ",
        counts.instructions,
        " instructions\n",
    );
    line
}

/// The line of a refusal.
fn line_of_refusal(refusal: &Refusal) -> Line
    ensures { result.bytes ≡ spec.refusal_line refusal.now }
{
    match refusal {
        Refusal::Length => line_of_limit(LimitKind::Length),
        Refusal::Nesting => line_of_limit(LimitKind::Nesting),
        Refusal::Bytes(at) => line_of_number("bytes: at ", u64::from(*at), "\n"),
        Refusal::Parse(at) => line_of_number("parse: at ", u64::from(*at), "\n"),
        Refusal::Shape(kind, at) => line_of_numbers(
            "shape ",
            u64::from(kind.number()),
            ": at ",
            u64::from(*at),
            "\n",
        ),
        Refusal::Past(kind) => line_of_limit(*kind),
        Refusal::Goal {
            number,
            at,
            row,
            answer,
        } => line_of_failure(*number, *at, row, *answer),
    }
}

/// The line of the first goal that is not proved: the limit that its elimination met, or the goal.
fn line_of_failure(number: u32, at: u32, row: &Form, found: linear_solver::Answer) -> Line
    ensures { result.bytes ≡ spec.failure_line number at row.now found }
{
    match found {
        linear_solver::Answer::Limit(kind) => line_of_limit(kind),
        _ => line_of_goal(u64::from(number), at, row, found),
    }
}

/// The line of a limit that is passed.
fn line_of_limit(kind: LimitKind) -> Line
    ensures { result.bytes ≡ spec.limit_line kind }
{
    let mut line = ArrayString::new();
    push_limit(&mut line, "limit: ", kind);
    line
}

/// A line that is always the same.
pub fn line_of_word(word: &str) -> Line
    requires { length word.now ≤ 30 }
    ensures { result.bytes ≡ word.now }
{
    let mut line = ArrayString::new();
    line.push_str(word);
    line
}

/// A word, a number and another word.
pub fn line_of_number(word: &str, number: u64, more: &str) -> Line
    requires word { length word.now ≤ 30 }
    requires more { length more.now ≤ 30 }
    ensures { result.bytes ≡ numbered word.now number ++ more.now }
{
    let mut line = ArrayString::new();
    push_numbered(&mut line, word, number);
    line.push_str(more);
    line
}

/// A word and a number, another word and its number, and a last word.
fn line_of_numbers(word: &str, number: u64, middle: &str, at: u64, more: &str) -> Line
    requires word { length word.now ≤ 30 }
    requires middle { length middle.now ≤ 30 }
    requires more { length more.now ≤ 30 }
    ensures { result.bytes ≡ numbered word.now number ++ (numbered middle.now at ++ more.now) }
{
    let mut line = ArrayString::new();
    push_numbered(&mut line, word, number);
    push_between(&mut line, middle, at, more);
    line
}

/// Adds a word, a number and another word.
#[tactic(auto, using(crate::proofs::LinePieces::pieces))]
fn push_between(line: &mut Line, word: &str, number: u64, more: &str)
    requires line { length line.old.bytes ≤ 140 }
    requires word { length word.now ≤ 30 }
    requires more { length more.now ≤ 30 }
    ensures { line.new.bytes ≡ line.old.bytes ++ (numbered word.now number ++ more.now) }
{
    push_numbered(line, word, number);
    line.push_str(more);
}

/// Adds a word and a number behind it.
#[tactic(auto, using(crate::proofs::LinePieces::pieces))]
fn push_numbered(line: &mut Line, word: &str, number: u64)
    requires line { length line.old.bytes ≤ 140 }
    requires word { length word.now ≤ 30 }
    ensures bytes { line.new.bytes ≡ line.old.bytes ++ numbered word.now number }
    ensures short { length line.new.bytes ≤ length line.old.bytes + 70 }
{
    let mut buffer = Buffer::new();
    line.push_str(word);
    line.push_str(buffer.format(number));
}
