//! The row of a form.
ghost use Rattle.std.specs.Prelude.{◌≡◌, ◌≤◌, ◌+◌, ◌++◌, ◌<◌, [], ◌∷◌, length, IsTrue, nat_lt, true, false};
ghost use Rattle.xan_lin.specs.Linear.{all_within};
ghost use Rattle.proof_lines.specs.Cells.{are_among};
ghost use Rattle.solver_rows.specs.Divisors.{divisor};
ghost use Rattle.solver_rows.specs.SystemRows.{tight};
ghost use Rattle.solver_rows.specs.Merging.{front_coefficient, behind};
ghost use Rattle.solver_rows.specs.RowsInCells.{AreRising, IsSigned, linear_in, row_in, spread_cells};
ghost use Rattle.arrayvec.specs.ArrayVec.{array_vec_len};

use crate::cells::Cells;
use crate::source::Source;
use crate::tight::{NewRow, tighten};
use xan_lin::{Form, Term};

/// Makes the tightened row of a form.
pub fn make_row(vars: &[u32], form: &Form, source: Source, row: &mut NewRow)
    requires rising { AreRising 0 vars.now }
    requires few { length vars.now ≤ 64 }
    requires among { are_among vars.now form.now.terms ≡ true }
    ensures row { row_in vars.now row.new.cells.items row.new.side ≡ tight source form.now }
    ensures wide { length row.new.cells.items ≡ length vars.now + 1 }
    ensures small { IsTrue (all_within (linear_in vars.now row.new.cells.items).terms) }
    ensures divided { nat_lt 1 (divisor (linear_in vars.now row.new.cells.items).terms) ≡ false }
    ensures signed { IsSigned vars.now row.new.cells.items row.new.side }
{
    spread(vars, form.terms(), &form.constant_part(), &mut row.cells);
    tighten(vars, source, row);
}

// Leaves the cells of these terms and this constant.
#[tactic(auto, unfolding(crate::specs::RowsInCells::spread_cells))]
fn spread(vars: &[u32], terms: &[Term], constant: &i64, cells: &mut Cells)
    requires few { length vars.now ≤ 64 }
    ensures { cells.new.items ≡ constant.now ∷ spread_cells vars.now terms.now }
{
    cells.clear();
    cells.push(*constant);
    let mut later_vars = vars;
    let mut later_terms = terms;
    'vars: while let [var, more @ ..] = later_vars {
        put_front(later_terms, *var, cells);
        later_terms = behind(later_terms, *var);
        later_vars = more;
    }
}

// Puts the coefficient of a variable in the first term.
fn put_front(terms: &[Term], var: u32, cells: &mut Cells)
    requires { array_vec_len cells.old < 65 }
    ensures { cells.new.items ≡ cells.old.items ++ front_coefficient var terms.now ∷ [] }
{
    let [first, ..] = terms else {
        cells.push(0);
        return;
    };
    if first.var == var {
        cells.push(first.coef);
    } else {
        cells.push(0);
    }
}

// The terms behind that of a variable, where it is the first.
fn behind(terms: &[Term], var: u32) -> &[Term]
    ensures { result.now ≡ behind var terms.now }
{
    let [first, rest @ ..] = terms else {
        return terms;
    };
    if first.var == var { rest } else { terms }
}
