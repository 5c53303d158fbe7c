//! Rows as 65 cells: one for each column of a variable, and the constant.
ghost use Rattle.std.specs.Prelude.{◌≡◌, ◌^◌, unsigned_abs, ◌<◌, ◌≤◌, ◌&&◌, ◌∷◌, ◌++◌, [], pos, true, false, IsTrue, MatchOption, length, take, map, replicate, nat_lt, int_lt};
ghost use Rattle.std.specs.List.{list_all, slice_index_or};
ghost use Rattle.xan_lin.specs.Terms.{IsRising};
ghost use Rattle.xan_lin.specs.Linear.{is_within};
ghost use Rattle.proof_lines.specs.Rows.{floor_over, is_multiple};
ghost use Rattle.proof_lines.specs.Variables.{with_terms};
ghost use Rattle.proof_lines.specs.Check.{is_positive};
ghost use Rattle.proof_lines.specs.Cells.{AreDifferent, dense, IsBlankBehind, is_zero, combined_cells, cannot_hold};

use crate::columns::{Columns, MOST_COLUMNS};
use crate::row::{number_floor, number_quotient};
use xan_lin::{Term, combine_numbers};

/// The cells of a row: those of the variables by their columns, and the constant. One row of cells serves a whole check: each line is
/// written over the one before, in the columns in use and the constant, behind which all cells stay 0.
pub(crate) type Cells = [i64; 65];

/// How many cells a row has.
pub(crate) const WIDTH: usize = MOST_COLUMNS + 1;

// Writes the row of no terms and this constant.
fn clear(cells: &mut Cells, used: usize, constant: &i64)
    requires few { used ≤ 64 }
    requires blank { IsBlankBehind used cells.old }
    ensures { cells.new ≡ replicate 64 (pos 0) ++ constant.now ∷ [] }
{
    'columns: for place in 0..used {
        cells[place] = 0;
    }
    cells[MOST_COLUMNS] = *constant;
}

/// Writes the row of these terms and this constant, where its variables find columns.
pub(crate) fn spread(
    cells: &mut Cells,
    columns: &mut Columns,
    terms: &[Term],
    constant: &i64,
) -> Option<()>
    requires blank { IsBlankBehind (length columns.old) cells.old }
    requires rising { IsRising 0 terms.now }
    requires few { length columns.old ≤ 64 }
    requires different { AreDifferent columns.old }
    ensures { MatchOption result (nat_lt 64 (length (with_terms columns.old terms.now)) ≡ true)
        (λ _. (columns.new ≡ with_terms columns.old terms.now) × (length columns.new ≤ 64) × AreDifferent columns.new
        × (cells.new ≡ dense columns.new (record { terms = terms.now; constant = constant.now }))) }
{
    clear(cells, columns.count(), constant);
    'terms: for term in terms {
        let Some(column) = columns.column(term.var) else {
            return None;
        };
        cells[column] = term.coef;
    }
    Some(())
}

/// Writes the sum of two rows, each times a multiplier of at least 1, where all its numbers are within the bound of forms. Only the columns
/// in use and the constant are walked.
pub(crate) fn combine(
    cells: &mut Cells,
    used: usize,
    left: &[i64],
    left_by: &i64,
    right: &[i64],
    right_by: &i64,
) -> Option<()>
    requires few { used ≤ 64 }
    requires blank { IsBlankBehind used cells.old }
    requires left { IsBlankBehind used left.now }
    requires right { IsBlankBehind used right.now }
    requires left_by { unsigned_abs left_by.now < 2 ^ 63 }
    requires right_by { unsigned_abs right_by.now < 2 ^ 63 }
    ensures { MatchOption result (list_all is_within (combined_cells left_by.now left.now right_by.now right.now) ≡ false)
        (λ _. (cells.new ≡ combined_cells left_by.now left.now right_by.now right.now) × (list_all is_within cells.new ≡ true)) }
{
    'columns: for place in 0..used {
        let Some(cell) = combine_numbers(&left[place], left_by, &right[place], right_by) else {
            return None;
        };
        cells[place] = cell;
    }
    let Some(constant) = combine_numbers(
        &left[MOST_COLUMNS],
        left_by,
        &right[MOST_COLUMNS],
        right_by,
    ) else {
        return None;
    };
    cells[MOST_COLUMNS] = constant;
    Some(())
}

/// Writes the row over a divisor of at least 1, with the floor of its constant, where the divisor divides the coefficients. Only the columns
/// in use and the constant are walked.
pub(crate) fn divide(cells: &mut Cells, used: usize, row: &[i64], by: &i64) -> Option<()>
    requires few { used ≤ 64 }
    requires blank { IsBlankBehind used cells.old }
    requires positive { IsTrue (is_positive by.now) }
    requires row { IsBlankBehind used row.now }
    ensures { MatchOption result (list_all (is_multiple by.now) (take 64 row.now) ≡ false)
        (λ _. (cells.new ≡ map (λ cell. floor_over cell by.now) row.now) × (list_all (is_multiple by.now) (take 64 row.now) ≡ true)) }
{
    'columns: for place in 0..used {
        let Some(cell) = number_quotient(&row[place], by) else {
            return None;
        };
        cells[place] = cell;
    }
    cells[MOST_COLUMNS] = number_floor(&row[MOST_COLUMNS], by);
    Some(())
}

/// Whether the row has no variable and a negative constant.
pub(crate) fn is_impossible(row: &[i64]) -> bool
    requires { length row.now ≡ 65 }
    ensures { result ≡ cannot_hold row.now }
{
    has_no_variable(row) && is_negative(&row[MOST_COLUMNS])
}

// Whether all coefficients of the row are 0.
fn has_no_variable(row: &[i64]) -> bool
    requires { length row.now ≡ 65 }
    ensures { result ≡ list_all is_zero (take 64 row.now) }
{
    row[..MOST_COLUMNS].iter().all(|cell| *cell == 0)
}

// Whether the number is below 0.
fn is_negative(number: &i64) -> bool
    ensures { result ≡ int_lt number.now (pos 0) }
{
    *number < 0
}
