//! The signs of a row's coefficients, a bit for each column.
ghost use Rattle.std.specs.Prelude.{◌≡◌, ℕ, ◌<◌, ◌≤◌, ◌+◌, ◌==◌, length, pos, int_lt};
ghost use Rattle.std.specs.Int.{bit_at};
ghost use Rattle.solver_rows.specs.Signing.{with_bit, sign_at, no_signs, same_signs, AreSigns};

use crate::numbers::is_zero;
use crate::source::Sign;

/// The columns of a row's positive coefficients, and those of its negative ones, a bit for each.
#[derive(Clone, Copy, Drop)]
pub struct Signs {
    /// The columns of positive coefficients.
    pub positive: u64,
    /// The columns of negative coefficients.
    pub negative: u64,
}

impl Signs {
    /// Those of no coefficients.
    pub fn none() -> Signs
        ensures positive { result.positive ≡ 0 }
        ensures negative { result.negative ≡ 0 }
    {
        Signs {
            positive: 0,
            negative: 0,
        }
    }

    /// Whether the coefficient of this column has this sign.
    pub fn has(&self, sign: Sign, column: usize) -> bool
        requires { column < 64 }
        ensures { result ≡ sign_at sign self.now column }
    {
        match sign {
            Sign::Positive => has_column(self.positive, column),
            Sign::Negative => has_column(self.negative, column),
            Sign::Zero => {
                !has_column(self.positive, column) && !has_column(self.negative, column)
            }
        }
    }

    /// Whether all coefficients are 0.
    pub fn are_none(&self) -> bool
        ensures { result ≡ no_signs self.now }
    {
        self.positive == 0 && self.negative == 0
    }

    /// Whether these are the same.
    pub fn are_same(&self, other: &Signs) -> bool
        ensures { result ≡ same_signs self.now other.now }
    {
        self.positive == other.positive && self.negative == other.negative
    }
}

/// The signs of these numbers.
pub(crate) fn signs_of(numbers: &[i64]) -> Signs
    requires { length numbers.now ≤ 64 }
    ensures { AreSigns result numbers.now }
{
    let mut signs = Signs::none();
    'numbers: for column in 0..numbers.len() {
        signs = with_number(signs, column, &numbers[column]);
    }
    signs
}

// The signs with that of one more number.
fn with_number(signs: Signs, column: usize, number: &i64) -> Signs
    requires { column < 64 }
    ensures positive { result.positive ≡ with_bit (int_lt (pos 0) number.now) signs.positive column }
    ensures negative { result.negative ≡ with_bit (int_lt number.now (pos 0)) signs.negative column }
{
    if is_zero(number) {
        return signs;
    }
    Signs {
        positive: with_column_where(*number > 0, signs.positive, column),
        negative: with_column_where(*number < 0, signs.negative, column),
    }
}

// The columns, with one more where it is so.
fn with_column_where(more: bool, columns: u64, column: usize) -> u64
    requires { column < 64 }
    ensures { result ≡ with_bit more columns column }
{
    if more { columns | 1 << column } else { columns }
}

// Whether the column is among these.
fn has_column(columns: u64, column: usize) -> bool
    requires { column < 64 }
    ensures { result ≡ (bit_at columns column == 1) }
{
    columns >> column & 1 == 1
}

/// The first of these columns from this one on, or 64.
pub fn next_column(columns: u64, from: usize) -> usize
    requires { from ≤ 64 }
    ensures behind { from ≤ result }
    ensures few { result ≤ 64 }
    ensures skipped { (column : ℕ) → from ≤ column → column < result → bit_at columns column ≡ 0 }
    ensures found { result < 64 → bit_at columns result ≡ 1 }
{
    if from >= 64 {
        return 64;
    }
    let rest = shifted_down(columns, from);
    if rest == 0 {
        return 64;
    }
    from + lowest(rest)
}

// The columns from this one on, counted from it.
fn shifted_down(columns: u64, by: usize) -> u64
    requires { by < 64 }
    ensures { (column : ℕ) → bit_at result column ≡ bit_at columns (by + column) }
{
    columns >> by
}

// The first column, where there is one.
fn lowest(columns: u64) -> usize
    requires { 0 < columns }
    ensures bound { result < 64 }
    ensures set { bit_at columns result ≡ 1 }
    ensures below { (column : ℕ) → column < result → bit_at columns column ≡ 0 }
{
    columns.trailing_zeros() as usize
}
