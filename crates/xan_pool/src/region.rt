// The pool: its cells lie in one `Vec`, row after row.
ghost use Rattle.std.specs.Prelude.{◌≡◌, ◌+◌, ◌*◌, ◌<◌, ◌≤◌, ◌↔◌, [], ◌∷◌, ◌++◌, length, take, drop, Some, IsErr, IfOk, OnOk, OnErr, slice_get, slice_set, vec_len, vec_capacity};

use std::alloc::Global;
use std::marker::Model;

/// Memory ran out.
#[derive(Clone, Copy, Drop, Debug)]
pub struct Memory;

/// The pool has as many live rows as it has room for.
#[derive(Clone, Copy, Drop, Debug, PartialEq)]
pub struct Full;

/// The position of a row in its pool, counted from 0.
#[derive(Clone, Copy, Drop, Debug, PartialEq)]
pub struct RowId(pub usize);

/// A number of rows of a pool, counted from its first row.
#[derive(Clone, Copy, Drop, Debug, PartialEq)]
pub struct Mark(pub usize);

/// A region of rows, each of the same number of cells. Rows come and go at its end.
///
/// It is seen as the list of its live rows, the width of a row, and the capacity, which is how many rows may be live at once.
#[derive(Drop)]
pub struct RowPool {
    cells: Vec<i64>,
    width: usize,
    capacity: usize,
    live: usize,
}

impl Model for RowPool {
    ghost use Rattle.xan_pool.specs.Pool.{Pool};

    ghost Value = { Pool };

    ghost use Rattle.xan_pool.specs.Layout.{pool_of, IsPool};

    ghost view = { pool_of };

    ghost invariant = { IsPool };
}

impl RowPool {
    /// An empty pool with room for `rows` rows of `width` cells each. It takes all the memory of the pool, and fails where there is
    /// not so much.
    pub fn new(alloc: Global, rows: usize, width: usize) -> Result<RowPool, Memory>
        requires some_cells { 0 < width }
        requires few_cells { width ≤ 128 }
        ensures { IfOk result (λ pool. pool ≡ record { rows = []; width = width; capacity = rows }) }
    {
        let Some(room) = rows.checked_mul(width) else {
            return Err(Memory);
        };
        let Ok(cells) = Vec::with_capacity(alloc, room) else {
            return Err(Memory);
        };
        Ok(RowPool {
            cells,
            width,
            capacity: rows,
            live: 0,
        })
    }

    /// Puts a row after the live ones and answers its position. `Full` comes exactly where the live rows are as many as the capacity,
    /// and then nothing changes.
    pub fn push(&mut self, row: &[i64]) -> Result<RowId, Full>
        requires { length row.now ≡ self.old.width }
        ensures id { IfOk result (λ id. id.0 ≡ length self.old.rows) }
        ensures pushed { OnOk result (self.new ≡ record self.old { rows = self.old.rows ++ row.now ∷ [] }) }
        ensures unchanged { OnErr result (self.new ≡ self.old) }
        ensures full { IsErr result ↔ (length self.old.rows ≡ self.old.capacity) }
    {
        if self.live == self.capacity {
            return Err(Full);
        }
        let Ok(()) = self.cells.extend_from_slice(row) else {
            unreachable!()
        };
        let id = RowId(self.live);
        self.live += 1;
        Ok(id)
    }

    /// The cells of a live row.
    pub fn row(&self, id: RowId) -> &[i64]
        requires { id.0 < length self.now.rows }
        ensures cells { slice_get self.now.rows id.0 ≡ Some result.now }
        ensures width { length result.now ≡ self.now.width }
    {
        row_at(self.cells.as_slice(), id.0, self.width)
    }

    /// Writes these cells over those of a live row. The other rows stay.
    pub fn set(&mut self, id: RowId, row: &[i64])
        requires live { id.0 < length self.old.rows }
        requires width { length row.now ≡ self.old.width }
        ensures { self.new ≡ record self.old { rows = slice_set self.old.rows id.0 row.now } }
    {
        write_row(self.cells.as_mut_slice(), id.0, row);
    }

    /// How many rows are live. There are never more than the capacity.
    pub fn mark(&self) -> Mark
        ensures live { result.0 ≡ length self.now.rows }
        ensures within { length self.now.rows ≤ self.now.capacity }
    {
        Mark(self.live)
    }

    /// Gives up all rows but the first `to`. Those stay as they are.
    pub fn release(&mut self, to: Mark)
        requires { to.0 ≤ length self.old.rows }
        ensures { self.new ≡ record self.old { rows = take to.0 self.old.rows } }
    {
        self.cells.truncate(to.0 * self.width);
        self.live = to.0;
    }

    /// Gives up the rows from position `to` to before position `from`. The later ones follow the first `to`, in their order.
    pub fn slide(&mut self, to: Mark, from: Mark)
        requires order { to.0 ≤ from.0 }
        requires within { from.0 ≤ length self.old.rows }
        ensures { self.new ≡ record self.old { rows = take to.0 self.old.rows ++ drop from.0 self.old.rows } }
    {
        cut(&mut self.cells, to.0 * self.width, from.0 * self.width);
        self.live -= from.0 - to.0;
    }
}

// The row at a position, in cells that hold rows of this width.
fn row_at(cells: &[i64], position: usize, width: usize) -> &[i64]
    requires { position * width + width ≤ length cells.now }
    ensures { result.now ≡ take width (drop (position * width) cells.now) }
{
    let start = position * width;
    &cells[start..start + width]
}

// Writes over the row at a position, in cells that hold rows of its width.
fn write_row(cells: &mut [i64], position: usize, row: &[i64])
    requires { position * length row.now + length row.now ≤ length cells.old }
    ensures { cells.new ≡ take (position * length row.now) cells.old ++ row.now ++ drop (position * length row.now + length row.now) cells.old }
{
    let start = position * row.len();
    cells[start..start + row.len()].copy_from_slice(row);
}

// Cuts a stretch of cells out, and moves the later ones up.
fn cut(cells: &mut Vec<i64>, start: usize, end: usize)
    requires order { start ≤ end }
    requires within { end ≤ vec_len cells.old }
    ensures items { cells.new.items ≡ take start cells.old.items ++ drop end cells.old.items }
    ensures capacity { vec_capacity cells.new ≡ vec_capacity cells.old }
{
    let _gone = cells.drain(start..end);
}
