//! The line of a goal: its number, its place, its row, and what the elimination answers. It is built in place, without memory.

ghost use Rattle.std.specs.Prelude.{◌≡◌, ◌≤◌, ◌+◌, ◌*◌, ◌++◌, codes, length};
ghost use Rattle.xan_lin.specs.Text.{number_text, term_text, terms_text, form_text};
ghost use Rattle.command_reports.specs.Answers as spec;
ghost use Rattle.command_reports.specs.Answers.{numbered, limit_text, limit_word, place_text, verdict};

use arrayvec::ArrayString;
use header_elaborator::most;
use itoa::Buffer;
use linear_solver::Answer;
use xan_lin::{Form, LimitKind, Term};

/// A line. The longest has a row of 16 terms; 40 digits are allowed for a number.
pub type Line = ArrayString<1600>;

/// The line of a goal, before which so many stand.
#[tactic(auto, using(crate::proofs::LinePieces::pieces))]
pub fn line_of_goal(number: u64, at: u32, row: &Form, found: Answer) -> Line
    ensures { result.bytes ≡ spec.goal_line number at row.now found }
{
    let mut line = ArrayString::new();
    push_place(&mut line, number, at);
    push_row(&mut line, ": ", row, " >= 0: ");
    push_verdict(&mut line, found);
    line
}

/// Adds the number of a goal, counted from 1, and its place.
#[tactic(auto, using(crate::proofs::LinePieces::pieces))]
fn push_place(line: &mut Line, number: u64, at: u32)
    requires { length line.old.bytes ≤ 0 }
    ensures bytes { line.new.bytes ≡ line.old.bytes ++ place_text number at }
    ensures short { length line.new.bytes ≤ 100 }
{
    push_digits(line, "goal ", u128::from(number) + 1);
    push_digits(line, ": at ", u128::from(at));
}

/// Adds a word, a row, and another word.
#[tactic(auto, using(crate::proofs::LinePieces::pieces))]
fn push_row(line: &mut Line, before: &str, row: &Form, after: &str)
    requires line { length line.old.bytes ≤ 100 }
    requires before { length before.now ≤ 10 }
    requires after { length after.now ≤ 10 }
    ensures bytes { line.new.bytes ≡ line.old.bytes ++ (before.now ++ form_text row.now ++ after.now) }
    ensures short { length line.new.bytes ≤ 1500 }
{
    line.push_str(before);
    push_form(line, row);
    line.push_str(after);
}

/// Adds the spelling of a form.
#[tactic(auto, using(crate::proofs::LinePieces::pieces))]
fn push_form(line: &mut Line, form: &Form)
    requires { length line.old.bytes ≤ 110 }
    ensures bytes { line.new.bytes ≡ line.old.bytes ++ form_text form.now }
    ensures short { length line.new.bytes ≤ 1480 }
{
    push_terms(line, form.terms());
    push_number(line, &form.constant_part());
}

/// Adds the terms.
#[tactic(auto, unfolding(xan_lin::specs::Text::terms_text))]
fn push_terms(line: &mut Line, terms: &[Term])
    requires { length line.old.bytes + 82 * length terms.now ≤ 1430 }
    ensures bytes { line.new.bytes ≡ line.old.bytes ++ terms_text terms.now }
    ensures short { length line.new.bytes ≤ length line.old.bytes + 82 * length terms.now }
{
    for term in terms {
        push_term(line, term);
    }
}

/// Adds a term.
#[tactic(auto, using(crate::proofs::LinePieces::pieces))]
fn push_term(line: &mut Line, term: &Term)
    requires { length line.old.bytes + 82 ≤ 1430 }
    ensures bytes { line.new.bytes ≡ line.old.bytes ++ term_text term.now }
    ensures short { length line.new.bytes ≤ length line.old.bytes + 82 }
{
    push_number(line, &term.coef);
    push_digits(line, "v", u128::from(term.var));
}

/// Adds a number with its sign.
fn push_number(line: &mut Line, number: &i64)
    requires { length line.old.bytes ≤ 1430 }
    ensures bytes { line.new.bytes ≡ line.old.bytes ++ number_text number.now }
    ensures short { length line.new.bytes ≤ length line.old.bytes + 41 }
{
    let digits = u128::from(number.unsigned_abs());
    if *number < 0 {
        push_digits(line, "-", digits);
    } else {
        push_digits(line, "+", digits);
    }
}

/// Adds a word and a number behind it.
#[tactic(auto, using(crate::proofs::LinePieces::pieces))]
fn push_digits(line: &mut Line, word: &str, number: u128)
    requires line { length line.old.bytes ≤ 1510 }
    requires word { length word.now ≤ 12 }
    ensures bytes { line.new.bytes ≡ line.old.bytes ++ numbered word.now number }
    ensures short { length line.new.bytes ≤ length line.old.bytes + length word.now + 40 }
{
    let mut buffer = Buffer::new();
    line.push_str(word);
    line.push_str(buffer.format(number));
}

/// Adds what is said of a goal with this answer, and the end of the line.
fn push_verdict(line: &mut Line, found: Answer)
    requires { length line.old.bytes ≤ 1500 }
    ensures { line.new.bytes ≡ line.old.bytes ++ verdict found }
{
    match found {
        Answer::Proved => line.push_str("proved\n"),
        Answer::Unproved => line.push_str("not proved\n"),
        Answer::Limit(kind) => push_limit(line, "limit ", kind),
    }
}

/// Adds a word, a limit, how much it allows, and the end of the line.
#[tactic(auto, using(crate::proofs::LinePieces::pieces))]
pub fn push_limit(line: &mut Line, before: &str, kind: LimitKind)
    requires line { length line.old.bytes ≤ 1500 }
    requires before { length before.now ≤ 10 }
    ensures { line.new.bytes ≡ line.old.bytes ++ (before.now ++ limit_text kind ++ codes "\n") }
{
    line.push_str(before);
    push_digits(line, word_of_limit(kind), u128::from(most(kind)));
    line.push_str("\n");
}

/// What there may not be too many of.
fn word_of_limit(kind: LimitKind) -> &'static str
    ensures word { result.now ≡ limit_word kind }
    ensures short { length result.now ≤ 12 }
{
    match kind {
        LimitKind::Length => "length ",
        LimitKind::Nesting => "nesting ",
        LimitKind::Functions => "functions ",
        LimitKind::Types => "types ",
        LimitKind::Parameters => "parameters ",
        LimitKind::Variables => "variables ",
        LimitKind::Rows => "rows ",
        LimitKind::Terms => "terms ",
        LimitKind::Magnitude => "magnitude ",
        LimitKind::Places => "places ",
        LimitKind::Cone => "cone ",
        LimitKind::System => "system ",
    }
}
