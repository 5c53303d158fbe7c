//! Rows in the making.
ghost use Rattle.std.specs.Prelude.{◌≡◌, ◌+◌, ◌≤◌, ◌<◌, List, ℕ, length, IsTrue, nat_lt, false};
ghost use Rattle.xan_lin.specs.Linear.{all_within};
ghost use Rattle.solver_rows.specs.SystemRows.{tight, holds};
ghost use Rattle.solver_rows.specs.Divisors.{divisor};
ghost use Rattle.solver_rows.specs.RowsInCells.{AreRising, IsSigned, linear_in, row_in};

use crate::cells::{Cells, coefficients, constant_of, divided};
use crate::divisors::signed_divisor;
use crate::side::Side;
use crate::signs::{Signs, signs_of};
use crate::source::Source;
use arrayvec::ArrayVec;

/// A row in the making.
#[derive(Drop)]
pub struct NewRow {
    /// Its constant, and then its coefficients.
    pub cells: Cells,
    /// What is kept beside them.
    pub side: Side,
}

impl NewRow {
    /// A row of no cells.
    pub fn blank() -> NewRow {
        NewRow {
            cells: ArrayVec::new(),
            side: Side {
                source: Source::Line(0),
                by: 1,
                signs: Signs::none(),
            },
        }
    }

    /// Whether it has no variable and its constant is at least 0.
    pub fn holds(&self) -> bool
        requires { 0 < length self.now.cells.items }
        ensures { (vars : List ℕ) → AreRising 0 vars → length self.now.cells.items ≡ length vars + 1 → IsSigned vars self.now.cells.items self.now.side
            → result ≡ holds (row_in vars self.now.cells.items self.now.side) }
    {
        self.side.signs.are_none() && *constant_of(self.cells.as_slice()) >= 0
    }
}

/// Tightens the row of these cells.
pub fn tighten(vars: &[u32], source: Source, row: &mut NewRow)
    requires rising { AreRising 0 vars.now }
    requires few { length vars.now ≤ 64 }
    requires wide { length row.old.cells.items ≡ length vars.now + 1 }
    requires small { IsTrue (all_within (linear_in vars.now row.old.cells.items).terms) }
    ensures row { row_in vars.now row.new.cells.items row.new.side ≡ tight source (linear_in vars.now row.old.cells.items) }
    ensures wide { length row.new.cells.items ≡ length vars.now + 1 }
    ensures small { IsTrue (all_within (linear_in vars.now row.new.cells.items).terms) }
    ensures divided { nat_lt 1 (divisor (linear_in vars.now row.new.cells.items).terms) ≡ false }
    ensures signed { IsSigned vars.now row.new.cells.items row.new.side }
{
    divide(vars, source, row);
    sign(vars, row);
}

// Tightens it without its signs.
fn divide(vars: &[u32], source: Source, row: &mut NewRow)
    requires rising { AreRising 0 vars.now }
    requires wide { length row.old.cells.items ≡ length vars.now + 1 }
    requires small { IsTrue (all_within (linear_in vars.now row.old.cells.items).terms) }
    ensures row { row_in vars.now row.new.cells.items row.new.side ≡ tight source (linear_in vars.now row.old.cells.items) }
    ensures wide { length row.new.cells.items ≡ length vars.now + 1 }
    ensures small { IsTrue (all_within (linear_in vars.now row.new.cells.items).terms) }
    ensures divided { nat_lt 1 (divisor (linear_in vars.now row.new.cells.items).terms) ≡ false }
{
    let by = signed_divisor(vars, row.cells.as_slice());
    let signs = Signs::none();
    if by <= 1 {
        row.side = Side {
            source,
            by: 1,
            signs,
        };
        return;
    }
    row.cells = divided(row.cells.as_slice(), &by);
    row.side = Side { source, by, signs };
}

// Puts the signs of its coefficients beside a row.
fn sign(vars: &[u32], row: &mut NewRow)
    requires rising { AreRising 0 vars.now }
    requires few { length vars.now ≤ 64 }
    requires wide { length row.old.cells.items ≡ length vars.now + 1 }
    ensures kept { row.new ≡ record row.old { side = record row.old.side { signs = row.new.side.signs } } }
    ensures signed { IsSigned vars.now row.new.cells.items row.new.side }
{
    let _count = vars.len();
    row.side.signs = signs_of(coefficients(row.cells.as_slice()));
}
