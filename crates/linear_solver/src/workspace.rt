//! The room in which the systems of an elimination lie.
ghost use Rattle.std.specs.Prelude.{◌≡◌, List, ◌+◌, ◌*◌, ◌<◌, ◌≤◌, [], ◌∷◌, ◌++◌, length, take, drop, slice_set, IsTrue, IfOk, MatchOption, int_lt, nat_lt, true, false};
ghost use Rattle.std.specs.List.{list_any, slice_index_or};
ghost use Rattle.xan_lin.specs.Linear.{all_within};
ghost use Rattle.xan_lin.specs.declared.term.Term.{Term};
ghost use Rattle.proof_lines.specs.Cells.{AreDifferent};
ghost use Rattle.solver_rows.specs.SystemRows.{linear_of, line_of, same_terms, coefficient};
ghost use Rattle.linear_solver.specs.Systems.{settle, lesser, reduced_onto, with_sign};
ghost use Rattle.solver_rows.specs.Divisors.{divisor};
ghost use Rattle.solver_rows.specs.declared.source.Sign.TheVariants.{Zero};
ghost use Rattle.linear_solver.specs.Numbering.{numbered};
ghost use Rattle.linear_solver.specs.Reducing.{IsPlace, AreDistinct};
ghost use Rattle.solver_rows.specs.Signing.{AreSigns};
ghost use Rattle.solver_rows.specs.RowsInCells.{AreRising, linear_in, row_in, IsSigned, AreSignsIn, spread_cells};
ghost use Rattle.linear_solver.specs.Region.{risen, no_row, idle, HasRoom, IsSettled};

use crate::choose::MOST_ROWS;
use crate::hints::Hints;
use crate::numbering::number;
use crate::places::{Stored, coefficients_of, gather, keep, put_stored};
use crate::steps::Steps;
use crate::variables::put_risen;
use arrayvec::ArrayVec;
use solver_rows::{
    Cells, NewRow, Signs, Source, WIDTH, are_same, coefficients, constant_of, hash, padded,
};
use std::alloc::Global;
use std::marker::Model;
use std::mem;
use xan_lin::Memory;
use xan_pool::{Mark, RowPool};

// How many rows a system in the making may come to have: one past the limit.
const MOST_MADE: usize = 2001;

/// The room of an elimination. The coefficients of its rows lie in a pool that it is lent, behind the rows of others. Rows that the next
/// system in the making keeps stay where they are, new ones are put behind all, and where a system ends with many places that no row has, its
/// rows move together. All vectors are taken once.
///
/// It is seen as the pool with the rows of others, the variables, the system, and the one in the making.
#[derive(Drop)]
pub(crate) struct Workspace {
    pool: RowPool,
    base: usize,
    vars: ArrayVec<u32, 64>,
    rows: Vec<Stored>,
    made: Vec<Stored>,
    hints: Hints,
}

impl Model for Workspace {
    ghost use Rattle.linear_solver.specs.Region.{Work, work_of, IsWork};

    ghost Value = { Work };

    ghost view = { work_of };

    ghost invariant = { IsWork };
}

impl Workspace {
    /// A workspace that works on nothing.
    pub(crate) fn new(alloc: Global) -> Result<Workspace, Memory>
        ensures { IfOk result (λ work. work ≡ idle) }
    {
        let Ok(pool) = RowPool::new(alloc, 0, WIDTH) else {
            return Err(Memory);
        };
        let Ok(rows) = Vec::with_capacity(alloc, MOST_MADE) else {
            return Err(Memory);
        };
        let Ok(made) = Vec::with_capacity(alloc, MOST_MADE) else {
            return Err(Memory);
        };
        let hints = Hints::new(alloc)?;
        Ok(Workspace {
            pool,
            base: 0,
            vars: ArrayVec::new(),
            rows,
            made,
            hints,
        })
    }

    /// Takes the pool for an elimination of these variables, and leaves an empty one in its place.
    pub(crate) fn begin(&mut self, pool: &mut RowPool, vars: &[u32])
        requires idle { self.old ≡ idle }
        requires width { pool.old.width ≡ 65 }
        requires different { AreDifferent vars.now }
        requires few { length vars.now ≤ 64 }
        ensures lent { self.new ≡ record idle { pool = pool.old; vars = risen vars.now } }
        ensures left { pool.new ≡ idle.pool }
    {
        mem::swap(&mut self.pool, pool);
        self.base = self.pool.mark().0;
        put_risen(vars, &mut self.vars);
    }

    /// Gives all rows up, and the pool back.
    pub(crate) fn end(&mut self, pool: &mut RowPool)
        requires { pool.old ≡ idle.pool }
        ensures idle { self.new ≡ idle }
        ensures given { pool.new ≡ self.old.pool }
    {
        self.pool.release(Mark(self.base));
        mem::swap(&mut self.pool, pool);
        self.base = 0;
        self.vars.clear();
        self.rows.clear();
        self.made.clear();
    }

    /// The variables, by rising number.
    pub(crate) fn vars(&self) -> &[u32]
        ensures vars { result.now ≡ self.now.vars }
        ensures rising { AreRising 0 result.now }
        ensures few { length result.now ≤ 64 }
    {
        self.vars.as_slice()
    }

    /// How many rows the system has.
    pub(crate) fn count(&self) -> usize
        ensures { result ≡ length self.now.rows }
    {
        self.rows.len()
    }

    /// How many rows the system in the making has.
    pub(crate) fn count_made(&self) -> usize
        ensures { result ≡ length self.now.made }
    {
        self.made.len()
    }

    /// The coefficients of a row of the system.
    pub(crate) fn coefficients(&self, at: usize) -> &[i64]
        requires { at < length self.now.rows }
        ensures linear { linear_in self.now.vars ((slice_index_or self.now.rows at no_row).constant ∷ result.now) ≡ linear_of (slice_index_or self.now.rows at no_row) }
        ensures wide { length result.now ≡ length self.now.vars }
        ensures few { length self.now.vars ≤ 64 }
        ensures small { IsTrue (all_within (slice_index_or self.now.rows at no_row).terms) }
    {
        coefficients_of(&self.pool, &self.rows[at], self.vars.len())
    }

    /// The constant of a row of the system.
    pub(crate) fn constant(&self, at: usize) -> &i64
        requires { at < length self.now.rows }
        ensures { result.now ≡ (slice_index_or self.now.rows at no_row).constant }
    {
        &self.rows[at].constant
    }

    /// Where a row of the system comes from.
    pub(crate) fn source(&self, at: usize) -> Source
        requires { at < length self.now.rows }
        ensures { result ≡ (slice_index_or self.now.rows at no_row).source }
    {
        self.rows[at].side.source
    }

    /// The step that gives a row of the system, where there is one.
    pub(crate) fn line(&self, at: usize) -> u32
        requires { at < length self.now.rows }
        ensures { result ≡ line_of (slice_index_or self.now.rows at no_row).source }
    {
        match self.source(at) {
            Source::Line(line) => line,
            Source::New(_) => 0,
        }
    }

    /// The coefficient of the variable of this column in a row of the system.
    pub(crate) fn coefficient(&self, at: usize, column: usize) -> &i64
        requires live { at < length self.now.rows }
        requires column { column < length self.now.vars }
        ensures { result.now ≡ coefficient (slice_index_or self.now.vars column 0) (slice_index_or self.now.rows at no_row).terms }
    {
        let _vars = self.vars();
        &self.coefficients(at)[column]
    }

    /// The signs of the coefficients of a row of the system.
    pub(crate) fn signs(&self, at: usize) -> Signs
        requires { at < length self.now.rows }
        ensures { AreSignsIn self.now.vars result (slice_index_or self.now.rows at no_row) }
    {
        self.rows[at].side.signs
    }

    /// Puts the rows without the variable of this column.
    pub(crate) fn keep_without(&mut self, column: usize)
        requires none { self.old.made ≡ [] }
        requires few { length self.old.rows ≤ 2000 }
        requires within { column < length self.old.vars }
        ensures { self.new ≡ record self.old { made = reduced_onto [] (with_sign Zero (slice_index_or self.old.vars column 0) self.old.rows) } }
    {
        keep(column, self.rows.as_slice(), &mut self.made);
    }

    /// Puts a row behind those in the making, or in place of the one with equal coefficients where its constant is less. A row that holds
    /// in any case is dropped.
    pub(crate) fn settle(&mut self, row: &NewRow)
        requires few_made { length self.old.made ≤ 2000 }
        requires room { HasRoom self.old }
        requires wide { length row.now.cells.items ≡ length self.old.vars + 1 }
        requires signed { IsSigned self.old.vars row.now.cells.items row.now.side }
        requires small { IsTrue (all_within (linear_in self.old.vars row.now.cells.items).terms) }
        requires tight { nat_lt 1 (divisor (linear_in self.old.vars row.now.cells.items).terms) ≡ false }
        ensures { self.new ≡ record self.old { made = settle self.old.made (row_in self.old.vars row.now.cells.items row.now.side) } }
    {
        let _vars = self.vars();
        if row.holds() {
            return;
        }
        let hash = hash(row.cells.as_slice(), &row.side.signs);
        self.tell_distinct();
        match self.guessed(row, hash) {
            Some(place) => self.lower(place, row),
            None => self.settle_searched(row, hash),
        }
    }

    /// Makes the system in the making the present one. Each row in order gets its steps.
    pub(crate) fn turn(&mut self, steps: &mut Steps)
        requires few { length self.old.made ≤ 2000 }
        requires room { length steps.old + 2 * length self.old.made ≤ 257026 }
        ensures numbered { numbered steps.old [] self.old.made ≡ record { steps = steps.new; rows = self.new.rows } }
        ensures turned { self.new ≡ record self.old { rows = self.new.rows; made = [] } }
        ensures few { length steps.new ≤ length steps.old + 2 * length self.old.made }
    {
        self.rows.clear();
        number(self.made.as_slice(), &mut self.rows, steps);
        self.made.clear();
        if self.pool.mark().0 - self.base > MOST_ROWS {
            gather(&mut self.pool, self.base, &mut self.rows, &mut self.made);
        }
    }

    // The coefficients of a row in the making.
    fn made_coefficients(&self, place: usize) -> &[i64]
        requires { place < length self.now.made }
        ensures linear { linear_in self.now.vars ((slice_index_or self.now.made place no_row).constant ∷ result.now) ≡ linear_of (slice_index_or self.now.made place no_row) }
        ensures wide { length result.now ≡ length self.now.vars }
    {
        coefficients_of(&self.pool, &self.made[place], self.vars.len())
    }

    // Whether the row at this place of those in the making has the coefficients of another one.
    fn is_at(&self, place: usize, row: &NewRow) -> bool
        requires live { place < length self.now.made }
        requires wide { length row.now.cells.items ≡ length self.now.vars + 1 }
        requires signed { IsSigned self.now.vars row.now.cells.items row.now.side }
        ensures { result ≡ same_terms (slice_index_or self.now.made place no_row).terms (linear_in self.now.vars row.now.cells.items).terms }
    {
        self.has_signs(place, &row.side.signs) && self.has_cells(place, &row.cells)
    }

    // Whether the coefficients of the row at this place of those in the making have these signs.
    fn has_signs(&self, place: usize, signs: &Signs) -> bool
        requires { place < length self.now.made }
        ensures { (ts : List Term) → AreSigns signs.now (spread_cells self.now.vars ts) → result ≡ false → same_terms (slice_index_or self.now.made place no_row).terms ts ≡ false }
    {
        self.made[place].side.signs.are_same(signs)
    }

    // Whether the row at this place of those in the making has these coefficients.
    fn has_cells(&self, place: usize, cells: &Cells) -> bool
        requires live { place < length self.now.made }
        requires wide { length cells.now.items ≡ length self.now.vars + 1 }
        ensures { result ≡ same_terms (slice_index_or self.now.made place no_row).terms (linear_in self.now.vars cells.now.items).terms }
    {
        let _vars = self.vars();
        are_same(
            self.made_coefficients(place),
            coefficients(cells.as_slice()),
        )
    }

    // Does the same with a row that was not guessed, and keeps its place for a guess. All rows are looked through: each search that finds
    // none makes the list longer, and each that finds one is the last for its row, so that there are few.
    fn settle_searched(&mut self, row: &NewRow, hash: u64)
        requires few_made { length self.old.made ≤ 2000 }
        requires room { HasRoom self.old }
        requires wide { length row.now.cells.items ≡ length self.old.vars + 1 }
        requires signed { IsSigned self.old.vars row.now.cells.items row.now.side }
        requires settled { IsSettled (linear_in self.old.vars row.now.cells.items) }
        ensures { self.new ≡ record self.old { made = settle self.old.made (row_in self.old.vars row.now.cells.items row.now.side) } }
    {
        self.tell_distinct();
        match self.place_of(row) {
            Some(place) => {
                self.lower(place, row);
                self.hint(hash, place);
            }
            None => {
                let place = self.count_made();
                self.put(row);
                self.hint(hash, place);
            }
        }
    }

    // The place of the row with these coefficients, where one of the guesses for its hash is right.
    fn guessed(&self, row: &NewRow, hash: u64) -> Option<usize>
        requires wide { length row.now.cells.items ≡ length self.now.vars + 1 }
        requires signed { IsSigned self.now.vars row.now.cells.items row.now.side }
        ensures { MatchOption result (Unit {0}) (λ place. IsPlace self.now.made (linear_in self.now.vars row.now.cells.items).terms place) }
    {
        let mut guess = self.hints.first(hash);
        'guesses: for _guess in 0..self.count_made() {
            if guess >= self.count_made() {
                return None;
            }
            if self.is_at(guess, row) {
                return Some(guess);
            }
            guess = self.hints.next(hash, guess);
        }
        None
    }

    // A place with these coefficients.
    fn place_of(&self, row: &NewRow) -> Option<usize>
        requires wide { length row.now.cells.items ≡ length self.now.vars + 1 }
        requires signed { IsSigned self.now.vars row.now.cells.items row.now.side }
        ensures { MatchOption result (list_any (λ other. same_terms other.terms (linear_in self.now.vars row.now.cells.items).terms) self.now.made ≡ false)
            (λ place. IsPlace self.now.made (linear_in self.now.vars row.now.cells.items).terms place) }
    {
        'rows: for place in 0..self.count_made() {
            if self.is_at(place, row) {
                return Some(place);
            }
        }
        None
    }

    // Keeps the place as a guess for coefficients of this hash.
    fn hint(&mut self, hash: u64, place: usize)
        ensures { self.new ≡ self.old }
    {
        self.hints.put(hash, place);
    }

    // Puts a row behind those in the making, none of which has its coefficients.
    fn put(&mut self, row: &NewRow)
        requires few_made { length self.old.made ≤ 2000 }
        requires room { HasRoom self.old }
        requires wide { length row.now.cells.items ≡ length self.old.vars + 1 }
        requires settled { IsSettled (linear_in self.old.vars row.now.cells.items) }
        requires signed { IsSigned self.old.vars row.now.cells.items row.now.side }
        requires other { list_any (λ r. same_terms r.terms (linear_in self.old.vars row.now.cells.items).terms) self.old.made ≡ false }
        ensures { self.new ≡ record self.old { made = self.old.made ++ row_in self.old.vars row.now.cells.items row.now.side ∷ [] } }
    {
        let place = self.pool.mark().0;
        let Ok(_) = self.pool.push(&padded(row.cells.as_slice())) else {
            unreachable!()
        };
        put_stored(&mut self.made, &stored(row, place));
    }

    // Puts a row in place of another one in the making, which has its coefficients, where its constant is less.
    fn lower(&mut self, place: usize, row: &NewRow)
        requires wide { length row.now.cells.items ≡ length self.old.vars + 1 }
        requires signed { IsSigned self.old.vars row.now.cells.items row.now.side }
        requires settled { IsSettled (linear_in self.old.vars row.now.cells.items) }
        requires same { IsPlace self.old.made (linear_in self.old.vars row.now.cells.items).terms place }
        ensures { self.new ≡ record self.old {
          made = slice_set self.old.made place
              (lesser (slice_index_or self.old.made place no_row) (row_in self.old.vars row.now.cells.items row.now.side));
        } }
    {
        if self.is_more_than(row, place) {
            self.replace(place, row);
        }
    }

    // Whether the constant of the row at this place of those in the making is more than that of another row.
    fn is_more_than(&self, row: &NewRow, place: usize) -> bool
        requires live { place < length self.now.made }
        requires wide { length row.now.cells.items ≡ length self.now.vars + 1 }
        ensures { result ≡ int_lt (linear_in self.now.vars row.now.cells.items).constant (slice_index_or self.now.made place no_row).constant }
    {
        *constant_of(row.cells.as_slice()) < self.made[place].constant
    }

    // Tells that no two rows in the making have equal coefficients.
    fn tell_distinct(&self)
        ensures { AreDistinct self.now.made }
    {
        let _count = self.made.len();
    }

    // Puts a row in place of another one in the making, which has its coefficients.
    fn replace(&mut self, place: usize, row: &NewRow)
        requires wide { length row.now.cells.items ≡ length self.old.vars + 1 }
        requires signed { IsSigned self.old.vars row.now.cells.items row.now.side }
        requires settled { IsSettled (linear_in self.old.vars row.now.cells.items) }
        requires same { IsPlace self.old.made (linear_in self.old.vars row.now.cells.items).terms place }
        ensures { self.new ≡ record self.old { made = slice_set self.old.made place (row_in self.old.vars row.now.cells.items row.now.side) } }
    {
        self.made[place] = stored(row, self.made[place].place);
    }
}

// The row, whose coefficients lie at this place of the pool.
fn stored(row: &NewRow, place: usize) -> Stored
    requires { 0 < length row.now.cells.items }
    ensures side { result.side ≡ row.now.side }
    ensures constant { row.now.cells.items ≡ result.constant ∷ drop 1 row.now.cells.items }
    ensures place { result.place ≡ place }
{
    Stored {
        side: row.side,
        constant: *constant_of(row.cells.as_slice()),
        place,
    }
}
