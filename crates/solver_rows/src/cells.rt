//! Rows as cells: the constant, and then the coefficient of each variable that bears on the goal, by rising variable.
ghost use Rattle.std.specs.Prelude.{◌≡◌, ◌↔◌, ◌^◌, ◌<◌, ◌≤◌, ◌+◌, ◌∷◌, ◌++◌, ◌&&◌, [], true, false, IsTrue, ◌+ℤ◌, ◌*ℤ◌, MatchOption, length, take, drop, map, unsigned_abs};
ghost use Rattle.std.specs.List.{list_all};
ghost use Rattle.arrayvec.specs.ArrayVec.{array_vec_len};
ghost use Rattle.xan_lin.specs.Linear.{is_within};
ghost use Rattle.proof_lines.specs.Rows.{floor_over};
ghost use Rattle.proof_lines.specs.Check.{is_positive};
ghost use Rattle.proof_lines.specs.Cells.{combined_cells, is_zero};

use crate::divisors::Multipliers;
use crate::numbers::{is_zero, number_floor};
use arrayvec::ArrayVec;
use xan_lin::combine_numbers;

/// How many cells a row of the pool has.
pub const WIDTH: usize = 65;

/// The cells of a row that are in use.
pub type Cells = ArrayVec<i64, 65>;

/// Leaves the sum of two rows of as many coefficients, each times a multiplier, where all its numbers are within the bound of forms. The
/// constants come first.
pub fn combine(
    left_constant: &i64,
    left: &[i64],
    right_constant: &i64,
    right: &[i64],
    by: &Multipliers,
    cells: &mut Cells,
) -> Option<()>
    requires few { length left.now ≤ 64 }
    requires alike { length left.now ≡ length right.now }
    requires first { unsigned_abs by.now.first < 2 ^ 63 }
    requires second { unsigned_abs by.now.second < 2 ^ 63 }
    ensures { MatchOption result (list_all is_within (combined_cells by.now.first (left_constant.now ∷ left.now) by.now.second (right_constant.now ∷ right.now)) ≡ false)
        (λ _. (cells.new.items ≡ combined_cells by.now.first (left_constant.now ∷ left.now) by.now.second (right_constant.now ∷ right.now)) × (list_all is_within cells.new.items ≡ true)) }
{
    cells.clear();
    let Some(()) = put_sum(left_constant, right_constant, by, cells) else {
        return None;
    };
    'cells: for place in 0..left.len() {
        let Some(()) = put_sum(&left[place], &right[place], by, cells) else {
            return None;
        };
    }
    Some(())
}

// Puts the sum of two numbers, each times a multiplier, where it is within the bound of forms.
fn put_sum(left: &i64, right: &i64, by: &Multipliers, cells: &mut Cells) -> Option<()>
    requires room { array_vec_len cells.old < 65 }
    requires first { unsigned_abs by.now.first < 2 ^ 63 }
    requires second { unsigned_abs by.now.second < 2 ^ 63 }
    ensures { MatchOption result (is_within ((left.now *ℤ by.now.first) +ℤ (right.now *ℤ by.now.second)) ≡ false)
        (λ _. (cells.new.items ≡ cells.old.items ++ ((left.now *ℤ by.now.first) +ℤ (right.now *ℤ by.now.second)) ∷ [])
        × (is_within ((left.now *ℤ by.now.first) +ℤ (right.now *ℤ by.now.second)) ≡ true)) }
{
    let cell = sum_of(left, right, by)?;
    cells.push(cell);
    Some(())
}

// The sum of two numbers, each times a multiplier, where it is within the bound of forms. Most are 0.
fn sum_of(left: &i64, right: &i64, by: &Multipliers) -> Option<i64>
    requires first { unsigned_abs by.now.first < 2 ^ 63 }
    requires second { unsigned_abs by.now.second < 2 ^ 63 }
    ensures { MatchOption result (is_within ((left.now *ℤ by.now.first) +ℤ (right.now *ℤ by.now.second)) ≡ false)
        (λ cell. (cell ≡ (left.now *ℤ by.now.first) +ℤ (right.now *ℤ by.now.second)) × (is_within ((left.now *ℤ by.now.first) +ℤ (right.now *ℤ by.now.second)) ≡ true)) }
{
    if are_zero(left, right) {
        return Some(0);
    }
    combine_numbers(left, &by.first, right, &by.second)
}

// Whether both numbers are 0.
fn are_zero(left: &i64, right: &i64) -> bool
    ensures { result ≡ (is_zero left.now && is_zero right.now) }
{
    is_zero(left) && is_zero(right)
}

/// The cells over a divisor of at least 1, each the floor.
pub(crate) fn divided(cells: &[i64], by: &i64) -> Cells
    requires few { length cells.now ≤ 65 }
    requires positive { IsTrue (is_positive by.now) }
    ensures { result.items ≡ map (λ cell. floor_over cell by.now) cells.now }
{
    let mut made = ArrayVec::new();
    'cells: for cell in cells {
        made.push(number_floor(cell, by));
    }
    made
}

/// The cells as a row of the pool, which has 65.
pub fn padded(cells: &[i64]) -> [i64; 65]
    requires { length cells.now ≤ 65 }
    ensures front { take (length cells.now) result ≡ cells.now }
{
    let mut row = [0i64; WIDTH];
    row[..cells.len()].copy_from_slice(cells);
    row
}

/// The constant of the row.
pub fn constant_of(cells: &[i64]) -> &i64
    requires { 0 < length cells.now }
    ensures { cells.now ≡ result.now ∷ drop 1 cells.now }
{
    &cells[0]
}

/// The coefficients of the row.
pub fn coefficients(cells: &[i64]) -> &[i64]
    requires { 0 < length cells.now }
    ensures { result.now ≡ drop 1 cells.now }
{
    &cells[1..]
}

/// Whether the numbers are the same.
pub fn are_same(left: &[i64], right: &[i64]) -> bool
    ensures { IsTrue result ↔ (left.now ≡ right.now) }
{
    left == right
}
