//! What lines keep by their types.
ghost use Rattle.std.specs.Prelude.{◌≤◌};
ghost use Rattle.xan_lin.specs.Linear.{IsForm};
ghost use Rattle.proof_lines.specs.Spelling.{AreVariables, IsRowNumber, IsMultiplier, IsLine, AreLines};

use crate::line::Line;
use xan_lin::{Form, Term};

/// Tells of lines that each has a spelling.
pub(crate) fn tell_lines(lines: &[Line])
    ensures { AreLines lines.now }
{
    let mut rest = lines;
    'lines: while let [line, later @ ..] = rest {
        tell_line(line);
        rest = later;
    }
}

// Tells of a line that it has a spelling.
fn tell_line(line: &Line)
    ensures { IsLine line.now }
{
    match line {
        Line::Hyp(form) => tell_form(form),
        Line::Goal => {}
        Line::Comb {
            left_by,
            left,
            right_by,
            right,
        } => tell_combination(left_by, *left, right_by, *right),
        Line::Cut { row, by } => tell_cut(*row, by),
    }
}

// Tells of a form that it has a spelling.
fn tell_form(form: &Form)
    ensures { IsForm form.now × AreVariables form.now.terms }
{
    let terms = form.terms();
    tell_variables(terms);
}

// Tells of terms that their variables are numbers of 32 bits.
fn tell_variables(terms: &[Term])
    ensures { AreVariables terms.now }
{
    let mut rest = terms;
    'terms: while let [term, later @ ..] = rest {
        tell_variable(term);
        rest = later;
    }
}

// Tells of a term that its variable is a number of 32 bits.
fn tell_variable(term: &Term)
    ensures { term.now.var ≤ 4294967295 }
{
    let _var = term.var;
}

// Tells of the numbers of a combination what their types say.
fn tell_combination(left_by: &i64, left: u32, right_by: &i64, right: u32)
    ensures { IsMultiplier left_by.now × IsRowNumber left × IsMultiplier right_by.now × IsRowNumber right }
{
    tell_multiplier(left_by);
    tell_multiplier(right_by);
    let _rows = (left, right);
}

// Tells of the numbers of a cut what their types say.
fn tell_cut(row: u32, by: &i64)
    ensures { IsRowNumber row × IsMultiplier by.now }
{
    tell_multiplier(by);
    let _row = row;
}

// Tells of a number what its type says.
fn tell_multiplier(number: &i64)
    ensures { IsMultiplier number.now }
{
    let _number = *number;
}
