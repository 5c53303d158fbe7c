//! Rows of systems in a pool: their coefficients, the rows without a variable, and how rows move together.
ghost use Rattle.std.specs.Prelude.{◌≡◌, ◌+◌, ◌<◌, ◌≤◌, [], ◌∷◌, ◌++◌, length, take, drop, slice_set, if◌then◌else◌, vec_capacity};
ghost use Rattle.std.specs.List.{slice_index_or};
ghost use Rattle.linear_solver.specs.Region.{AreIn, has_none, without, moved, placed_from};

use solver_rows::{Side, Sign};
use std::mem;
use xan_pool::{Mark, RowId, RowPool};

/// A row of a system: what is kept beside its cells, its constant, and the place of its coefficients in the pool.
#[derive(Clone, Copy, Drop)]
pub(crate) struct Stored {
    pub(crate) side: Side,
    pub(crate) constant: i64,
    pub(crate) place: usize,
}

/// The coefficients of a row, of so many variables.
pub(crate) fn coefficients_of<'a>(pool: &'a RowPool, stored: &Stored, count: usize) -> &'a [i64]
    requires live { stored.now.place < length pool.now.rows }
    requires few { count + 1 ≤ pool.now.width }
    ensures cells { result.now ≡ take count (drop 1 (slice_index_or pool.now.rows stored.now.place [])) }
    ensures wide { length result.now ≡ count }
{
    let row = pool.row(RowId(stored.place));
    &row[1..count + 1]
}

/// Puts the rows whose coefficient in this column is 0, which stay where they are.
pub(crate) fn keep(column: usize, rows: &[Stored], made: &mut Vec<Stored>)
    requires within { column < 64 }
    requires room { length made.old.items + length rows.now ≤ vec_capacity made.old }
    ensures items { made.new.items ≡ made.old.items ++ without column rows.now }
    ensures capacity { vec_capacity made.old ≤ vec_capacity made.new }
{
    'rows: for at in 0..rows.len() {
        keep_one(column, &rows[at], made);
    }
}

// Puts a row whose coefficient in this column is 0.
fn keep_one(column: usize, stored: &Stored, made: &mut Vec<Stored>)
    requires within { column < 64 }
    requires room { length made.old.items < vec_capacity made.old }
    ensures items { made.new.items ≡ made.old.items ++ (if has_none column stored.now then stored.now ∷ [] else []) }
    ensures capacity { vec_capacity made.old ≤ vec_capacity made.new }
{
    if stored.side.signs.has(Sign::Zero, column) {
        put_stored(made, stored);
    }
}

/// Puts a row behind others, for which there is room.
pub(crate) fn put_stored(made: &mut Vec<Stored>, stored: &Stored)
    requires { length made.old.items < vec_capacity made.old }
    ensures items { made.new.items ≡ made.old.items ++ stored.now ∷ [] }
    ensures capacity { vec_capacity made.old ≤ vec_capacity made.new }
{
    let Ok(()) = made.push(*stored) else {
        unreachable!()
    };
}

/// Moves the rows together, from this place of the pool on, and gives up what lies behind them. `spare` is room for as many.
pub(crate) fn gather(
    pool: &mut RowPool,
    base: usize,
    rows: &mut Vec<Stored>,
    spare: &mut Vec<Stored>,
)
    requires width { pool.old.width ≡ 65 }
    requires live { AreIn base (length pool.old.rows) rows.old.items }
    requires none { spare.old.items ≡ [] }
    requires room { length rows.old.items ≤ vec_capacity spare.old }
    ensures rows { rows.new.items ≡ placed_from base rows.old.items }
    ensures pool { pool.new ≡ record pool.old { rows = take (base + length rows.old.items) (moved base pool.old.rows rows.old.items) } }
    ensures none { spare.new.items ≡ [] }
    ensures capacity_rows { vec_capacity spare.old ≤ vec_capacity rows.new }
    ensures capacity_spare { vec_capacity rows.old ≤ vec_capacity spare.new }
{
    move_rows(pool, base, rows.as_slice(), spare);
    let count = spare.len();
    let end = pool.mark();
    pool.slide(Mark(base + count), end);
    rows.clear();
    mem::swap(rows, spare);
}

// Moves the rows to this place of the pool and those behind it, in their order.
fn move_rows(pool: &mut RowPool, base: usize, rows: &[Stored], placed: &mut Vec<Stored>)
    requires width { pool.old.width ≡ 65 }
    requires live { AreIn base (length pool.old.rows) rows.now }
    requires room { length placed.old.items + length rows.now ≤ vec_capacity placed.old }
    ensures rows { placed.new.items ≡ placed.old.items ++ placed_from base rows.now }
    ensures pool { pool.new ≡ record pool.old { rows = moved base pool.old.rows rows.now } }
    ensures capacity { vec_capacity placed.old ≤ vec_capacity placed.new }
{
    'rows: for at in 0..rows.len() {
        move_row(pool, rows[at].place, base + at);
        put_stored(placed, &at_place(&rows[at], base + at));
    }
}

// The row at another place.
fn at_place(stored: &Stored, place: usize) -> Stored
    ensures { result ≡ record stored.now { place = place } }
{
    Stored {
        side: stored.side,
        constant: stored.constant,
        place,
    }
}

// Writes a row over another.
fn move_row(pool: &mut RowPool, from: usize, to: usize)
    requires live { from < length pool.old.rows }
    requires other { to ≤ from }
    requires width { pool.old.width ≡ 65 }
    ensures { pool.new ≡ record pool.old { rows = slice_set pool.old.rows to (slice_index_or pool.old.rows from []) } }
{
    let mut cells = [0i64; 65];
    cells.copy_from_slice(pool.row(RowId(from)));
    pool.set(RowId(to), &cells);
}
