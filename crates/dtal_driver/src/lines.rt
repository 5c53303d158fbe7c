//! The lines of the answers, each put as one piece, without memory. After a fault a prefix of the line is put.

ghost use Rattle.std.specs.Prelude.{◌≡◌, ◌≤◌, ◌+◌, ◌++◌, length, codes, OnOk, OnErr};
ghost use Rattle.std.specs.Io.KnownBytes.{append_known};
ghost use Rattle.xan_io.specs.Faults.{Rose};
ghost use Rattle.xan_io.specs.Lines.{number_line};
ghost use Rattle.xan_io.specs.Written.{AppendsPrefix};
ghost use Rattle.dtal_driver.specs.Answers as spec;
ghost use Rattle.dtal_driver.specs.Answers.{numbered, rule_name, where_text};

use crate::answer::Answer;
use arrayvec::ArrayString;
use dtal_code::{Rule, Where};
use itoa::Buffer;
use xan_io::{Sink, SinkFault};

/// A line. The longest is a word, a place, and three words.
type Line = ArrayString<260>;

/// Puts the line of the answer.
pub fn put_line<O: Sink>(out: &mut O, answer: Answer) -> Result<(), SinkFault>
    ensures appended { OnOk result (O.written out.new ≡ append_known (O.written out.old) (spec.line_of answer)) }
    ensures counted { OnOk result (O.faults out.new ≡ O.faults out.old) }
    ensures prefix { OnErr result (AppendsPrefix (O.written out.old) (O.written out.new) (spec.line_of answer)) }
    ensures failed { OnErr result (Rose (O.faults out.old) (O.faults out.new)) }
    ensures never_falls { O.faults out.old ≤ O.faults out.new }
{
    let line = line_of(answer);
    out.put(line.as_bytes())
}

/// The line of an answer.
fn line_of(answer: Answer) -> Line
    ensures { result.bytes ≡ spec.line_of answer }
{
    match answer {
        Answer::NoCommand => line_of_word("words: not a command\n"),
        Answer::ReadFailed => line_of_word("read: failed\n"),
        Answer::Memory => line_of_word("memory\n"),
        Answer::TooLong => line_of_word("limit: length 1099511627776\n"),
        Answer::NoProgram(at) => line_of_number("text: at ", at, "\n"),
        Answer::Refused { at, rule } => {
            line_of_place("refused: ", at, ": rule ", name_of(rule), "\n")
        }
        Answer::Accepted {
            functions,
            instructions,
        } => line_of_two(
            "accepted: ",
            functions,
            " functions, ",
            instructions,
            " instructions\n",
        ),
        Answer::ArgCount => line_of_word("entry: count\n"),
        Answer::ArgKind(argument) => line_of_number(
            "entry: kind of argument ",
            u64::from(argument),
            "\n",
        ),
        Answer::ArgIndex(argument) => line_of_number(
            "entry: index of argument ",
            u64::from(argument),
            "\n",
        ),
        Answer::EntryRow(row) => line_of_number("entry: row ", u64::from(row), "\n"),
        Answer::Returned(word) => line_of_result(&word),
        Answer::NoStore => line_of_word("no store\n"),
        Answer::Overflow => line_of_word("overflow\n"),
        Answer::StepsEnded(steps) => line_of_number("steps ended: ", steps, "\n"),
    }
}

/// A line that is always the same.
fn line_of_word(word: &str) -> Line
    requires { length word.now ≤ 30 }
    ensures { result.bytes ≡ word.now }
{
    let mut line = ArrayString::new();
    line.push_str(word);
    line
}

/// The line of the number that a run returned.
fn line_of_result(number: &i64) -> Line
    ensures { result.bytes ≡ number_line number.now }
{
    let mut buffer = Buffer::new();
    let mut line = ArrayString::new();
    line.push_str(buffer.format(*number));
    line.push_str("\n");
    line
}

/// A word, a number and another word.
fn line_of_number(word: &str, number: u64, more: &str) -> Line
    requires word { length word.now ≤ 30 }
    requires more { length more.now ≤ 30 }
    ensures { result.bytes ≡ numbered word.now number ++ more.now }
{
    let mut line = ArrayString::new();
    push_numbered(&mut line, word, number);
    line.push_str(more);
    line
}

/// A word and a number, another word and its number, and the end of the line.
#[tactic(auto, using(crate::proofs::LineParts::parts))]
fn line_of_two(word: &str, number: u64, part: &str, inner: u64, end: &str) -> Line
    requires word { length word.now ≤ 30 }
    requires part { length part.now ≤ 30 }
    requires end { length end.now ≤ 30 }
    ensures { result.bytes ≡ (numbered word.now number ++ numbered part.now inner) ++ end.now }
{
    let mut line = ArrayString::new();
    push_twice(&mut line, word, number, part, inner);
    line.push_str(end);
    line
}

/// A word and a place, another word, a name, and the end of the line.
#[tactic(auto, using(crate::proofs::LineParts::parts))]
fn line_of_place(word: &str, at: Where, more: &str, name: &str, end: &str) -> Line
    requires word { length word.now ≤ 30 }
    requires more { length more.now ≤ 30 }
    requires name { length name.now ≤ 30 }
    requires end { length end.now ≤ 30 }
    ensures { result.bytes ≡ (word.now ++ where_text at) ++ (more.now ++ name.now ++ end.now) }
{
    let mut line = ArrayString::new();
    line.push_str(word);
    push_place(&mut line, at);
    push_words(&mut line, more, name, end);
    line
}

/// Adds three words.
#[tactic(auto, using(crate::proofs::LineParts::parts))]
fn push_words(line: &mut Line, first: &str, second: &str, third: &str)
    requires line { length line.old.bytes ≤ 170 }
    requires first { length first.now ≤ 30 }
    requires second { length second.now ≤ 30 }
    requires third { length third.now ≤ 30 }
    ensures { line.new.bytes ≡ line.old.bytes ++ (first.now ++ second.now ++ third.now) }
{
    line.push_str(first);
    line.push_str(second);
    line.push_str(third);
}

/// Adds which place of a program it is.
fn push_place(line: &mut Line, at: Where)
    requires { length line.old.bytes ≤ 30 }
    ensures bytes { line.new.bytes ≡ line.old.bytes ++ where_text at }
    ensures short { length line.new.bytes ≤ length line.old.bytes + 140 }
{
    match at {
        Where::Types(number) => push_numbered(line, "type ", u64::from(number)),
        Where::Signature(function) => push_numbered(line, "function ", u64::from(function)),
        Where::Program => line.push_str("program"),
        Where::Label(function, label) => push_twice(
            line,
            "function ",
            u64::from(function),
            " label ",
            u64::from(label),
        ),
        Where::Instr(function, number) => push_twice(
            line,
            "function ",
            u64::from(function),
            " instruction ",
            u64::from(number),
        ),
    }
}

/// Adds a word and a number, and another word and its number.
#[tactic(auto, using(crate::proofs::LineParts::parts))]
fn push_twice(line: &mut Line, word: &str, number: u64, part: &str, inner: u64)
    requires line { length line.old.bytes ≤ 30 }
    requires word { length word.now ≤ 30 }
    requires part { length part.now ≤ 30 }
    ensures bytes { line.new.bytes ≡ line.old.bytes ++ numbered word.now number ++ numbered part.now inner }
    ensures short { length line.new.bytes ≤ length line.old.bytes + 140 }
{
    push_numbered(line, word, number);
    push_numbered(line, part, inner);
}

/// Adds a word and a number behind it.
#[tactic(auto, using(crate::proofs::LineParts::parts))]
fn push_numbered(line: &mut Line, word: &str, number: u64)
    requires line { length line.old.bytes ≤ 100 }
    requires word { length word.now ≤ 30 }
    ensures bytes { line.new.bytes ≡ line.old.bytes ++ numbered word.now number }
    ensures short { length line.new.bytes ≤ length line.old.bytes + 70 }
{
    let mut buffer = Buffer::new();
    line.push_str(word);
    line.push_str(buffer.format(number));
}

fn name_of(rule: Rule) -> &'static str
    ensures name { result.now ≡ rule_name rule }
    ensures short { length result.now ≤ 30 }
{
    match rule {
        Rule::Name => "name",
        Rule::Main => "main",
        Rule::Target => "target",
        Rule::NoType => "type",
        Rule::Place => "place",
        Rule::Count => "count",
        Rule::Kind => "kind",
        Rule::Alone => "alone",
        Rule::Edge => "edge",
        Rule::Form => "form",
        Rule::Size => "size",
        Rule::Lines => "lines",
    }
}
