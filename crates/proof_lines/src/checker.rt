//! The check, line by line.
ghost use Rattle.std.specs.Prelude.{◌≡◌, ◌+◌, ◌<◌, ◌≤◌, ◌^◌, ◌↔◌, ◌∷◌, ◌++◌, [], List, IsOk, IfSome, length, take, drop, slice_get, option_map, if◌then◌else◌, Err};
ghost use Rattle.xan_lin.specs.Linear.{Linear};
ghost use Rattle.proof_lines.specs.declared.bad_line.Why.TheVariants as why;
ghost use Rattle.proof_lines.specs.Lines.{LinesProve};
ghost use Rattle.proof_lines.specs.Check.{is_listed, bounded, row_given, checked};
ghost use Rattle.proof_lines.specs.Rows.{opposite_of};
ghost use Rattle.proof_lines.specs.Cells.{AreDifferent, IsBlankBehind, AreBlankBehind, Stands, Gives, combination_cells, cut_cells, last_cannot_hold};
ghost use Rattle.proof_lines.specs.Code.{cells_in};

use crate::bad_line::{BadLine, Why};
use crate::cells::{Cells, WIDTH, combine, divide, is_impossible, spread};
use crate::columns::Columns;
use crate::hypotheses::is_listed;
use crate::line::Line;
use index_sorts::Context;
use xan_lin::Form;
use xan_pool::{RowId, RowPool};

/// Checks that the lines prove the goal from the rows of the context: under every assignment of integers under which these rows hold, the
/// goal holds.
///
/// `Ok` comes exactly where they do. Else the answer is the first bad line and the first reason that it has, in the order of [`Why`]. The
/// pool lends the room for the rows of the lines, and is as before at the end. No memory is taken.
pub fn check_lines(
    pool: &mut RowPool,
    ctx: &Context,
    goal: &Form,
    lines: &[Line],
) -> Result<(), BadLine>
    requires width { pool.old.width ≡ 65 }
    requires countable { length lines.now < 2 ^ 32 }
    requires room { length pool.old.rows + length lines.now ≤ pool.old.capacity }
    ensures proved { IsOk result ↔ LinesProve ctx.now.rows goal.now lines.now }
    ensures first_bad { result ≡ checked ctx.now.rows goal.now lines.now }
    ensures unchanged { pool.new ≡ pool.old }
{
    let start = pool.mark();
    let answer = walk(pool, ctx.rows(), goal, lines);
    pool.release(start);
    answer
}

// The row of a line that many lines before it, of the rows of a pool from `base` on.
fn row_at(pool: &RowPool, base: usize, number: u32) -> Option<&[i64]>
    requires { base ≤ length pool.now.rows }
    ensures row { option_map (λ row. row.now) result ≡ slice_get (drop base pool.now.rows) number }
    ensures width { IfSome result (λ row. length row.now ≡ pool.now.width) }
{
    let count = pool.mark().0 - base;
    if number as usize >= count {
        return None;
    }
    Some(pool.row(RowId(base + number as usize)))
}

// Writes a row, where its variables find columns.
fn fill_form(cells: &mut Cells, columns: &mut Columns, form: &Form) -> Result<(), Why>
    requires blank { IsBlankBehind (length columns.old) cells.old }
    requires few { length columns.old ≤ 64 }
    requires different { AreDifferent columns.old }
    ensures { Gives columns.old columns.new (cells_in result cells.new) (bounded columns.old form.now) }
{
    match spread(cells, columns, form.terms(), &form.constant_part()) {
        Some(()) => Ok(()),
        None => Err(Why::Variables),
    }
}

// Writes a hypothesis.
fn fill_hypothesis(
    cells: &mut Cells,
    hyps: &[Form],
    last: &mut usize,
    columns: &mut Columns,
    form: &Form,
) -> Result<(), Why>
    requires blank { IsBlankBehind (length columns.old) cells.old }
    requires few { length columns.old ≤ 64 }
    requires different { AreDifferent columns.old }
    ensures { Gives columns.old columns.new (cells_in result cells.new) (if is_listed form.now hyps.now then bounded columns.old form.now else Err why.NotInContext) }
{
    if !is_listed(form, hyps, last) {
        return Err(Why::NotInContext);
    }
    fill_form(cells, columns, form)
}

// Writes the row that holds where the goal does not.
fn fill_opposite(cells: &mut Cells, goal: &Form, columns: &mut Columns) -> Result<(), Why>
    requires blank { IsBlankBehind (length columns.old) cells.old }
    requires few { length columns.old ≤ 64 }
    requires different { AreDifferent columns.old }
    ensures { Gives columns.old columns.new (cells_in result cells.new) (bounded columns.old (opposite_of goal.now)) }
{
    match goal.negated_row() {
        Ok(row) => fill_form(cells, columns, &row),
        Err(_) => Err(Why::TooLarge),
    }
}

// Writes the sum of two rows, each times a multiplier.
fn fill_combination(
    cells: &mut Cells,
    pool: &RowPool,
    base: usize,
    used: usize,
    left_by: &i64,
    left: u32,
    right_by: &i64,
    right: u32,
) -> Result<(), Why>
    requires width { pool.now.width ≡ 65 }
    requires within { base ≤ length pool.now.rows }
    requires few { used ≤ 64 }
    requires blank { IsBlankBehind used cells.old }
    requires rows { AreBlankBehind used (drop base pool.now.rows) }
    ensures { cells_in result cells.new ≡ combination_cells (drop base pool.now.rows) left_by.now left right_by.now right }
{
    let Some(left) = row_at(pool, base, left) else {
        return Err(Why::NoSuchRow);
    };
    let Some(right) = row_at(pool, base, right) else {
        return Err(Why::NoSuchRow);
    };
    if *left_by < 1 {
        return Err(Why::Multiplier);
    }
    if *right_by < 1 {
        return Err(Why::Multiplier);
    }
    match combine(cells, used, left, left_by, right, right_by) {
        Some(()) => Ok(()),
        None => Err(Why::TooLarge),
    }
}

// Writes a row over a divisor.
fn fill_cut(
    cells: &mut Cells,
    pool: &RowPool,
    base: usize,
    used: usize,
    row: u32,
    by: &i64,
) -> Result<(), Why>
    requires width { pool.now.width ≡ 65 }
    requires within { base ≤ length pool.now.rows }
    requires few { used ≤ 64 }
    requires blank { IsBlankBehind used cells.old }
    requires rows { AreBlankBehind used (drop base pool.now.rows) }
    ensures { cells_in result cells.new ≡ cut_cells (drop base pool.now.rows) row by.now }
{
    let Some(row) = row_at(pool, base, row) else {
        return Err(Why::NoSuchRow);
    };
    if *by < 1 {
        return Err(Why::Multiplier);
    }
    match divide(cells, used, row, by) {
        Some(()) => Ok(()),
        None => Err(Why::NotDivisible),
    }
}

// Whether there is a last row from `base` on and it cannot hold.
fn ends_refuted(pool: &RowPool, base: usize) -> bool
    requires width { pool.now.width ≡ 65 }
    requires within { base ≤ length pool.now.rows }
    ensures { result ≡ last_cannot_hold (drop base pool.now.rows) }
{
    let count = pool.mark().0;
    count > base && is_impossible(pool.row(RowId(count - 1)))
}

// Writes the row that a line gives behind the rows of the lines before it, which are those from `base` on.
fn fill_line(
    cells: &mut Cells,
    pool: &RowPool,
    base: usize,
    hyps: &[Form],
    goal: &Form,
    columns: &mut Columns,
    last: &mut usize,
    line: &Line,
) -> Result<(), Why>
    requires width { pool.now.width ≡ 65 }
    requires within { base ≤ length pool.now.rows }
    requires few { length columns.old ≤ 64 }
    requires different { AreDifferent columns.old }
    requires blank { IsBlankBehind (length columns.old) cells.old }
    requires rows { AreBlankBehind (length columns.old) (drop base pool.now.rows) }
    ensures { (rows : List Linear) → Stands columns.old (drop base pool.now.rows) rows
        → Gives columns.old columns.new (cells_in result cells.new) (row_given hyps.now goal.now rows columns.old line.now) }
{
    match line {
        Line::Hyp(form) => fill_hypothesis(cells, hyps, last, columns, form),
        Line::Goal => fill_opposite(cells, goal, columns),
        Line::Comb {
            left_by,
            left,
            right_by,
            right,
        } => fill_combination(
            cells,
            pool,
            base,
            columns.count(),
            left_by,
            *left,
            right_by,
            *right,
        ),
        Line::Cut { row, by } => fill_cut(cells, pool, base, columns.count(), *row, by),
    }
}

// Puts cells behind the rows of a pool with room for them.
fn put(pool: &mut RowPool, cells: &Cells)
    requires width { length cells.now ≡ pool.old.width }
    requires room { length pool.old.rows < pool.old.capacity }
    ensures { pool.new ≡ record pool.old { rows = pool.old.rows ++ cells.now ∷ [] } }
{
    let Ok(_) = pool.push(cells) else {
        unreachable!()
    };
}

// The check of the lines over a list of rows. It leaves the rows of the lines behind those of the pool.
fn walk(pool: &mut RowPool, hyps: &[Form], goal: &Form, lines: &[Line]) -> Result<(), BadLine>
    requires width { pool.old.width ≡ 65 }
    requires countable { length lines.now < 2 ^ 32 }
    requires room { length pool.old.rows + length lines.now ≤ pool.old.capacity }
    ensures answer { result ≡ checked hyps.now goal.now lines.now }
    ensures kept { record pool.new { rows = take (length pool.old.rows) pool.new.rows } ≡ pool.old }
    ensures more { length pool.old.rows ≤ length pool.new.rows }
{
    let base = pool.mark().0;
    let mut columns = Columns::new();
    let mut last = 0usize;
    let mut cells = [0i64; WIDTH];
    'lines: for (at, line) in lines.iter().enumerate() {
        match fill_line(
            &mut cells,
            pool,
            base,
            hyps,
            goal,
            &mut columns,
            &mut last,
            line,
        ) {
            Ok(()) => put(pool, &cells),
            Err(why) => return Err(BadLine { at: at as u32, why }),
        }
    }
    if ends_refuted(pool, base) {
        Ok(())
    } else {
        Err(BadLine {
            at: lines.len() as u32,
            why: Why::NotRefuted,
        })
    }
}
