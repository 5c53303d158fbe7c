//! Greatest common divisors.
ghost use Rattle.std.specs.Prelude.{◌≡◌, ◌^◌, ◌<◌, ◌/◌, ◌+◌, length, pos, IsTrue, unsigned_abs};
ghost use Rattle.xan_lin.specs.Linear.{all_within};
ghost use Rattle.solver_rows.specs.Divisors.{gcd, divisor};
ghost use Rattle.solver_rows.specs.SystemRows.{first_by, second_by};
ghost use Rattle.solver_rows.specs.RowsInCells.{linear_in, cells_divisor, numbers_divisor};

/// The greatest common divisor.
pub(crate) fn gcd(left: u64, right: u64) -> u64
    ensures { result ≡ gcd left right }
{
    let mut a = left;
    let mut b = right;
    'remainders: while b != 0 {
        let rest = a % b;
        a = b;
        b = rest;
    }
    a
}

// The greatest common divisor of the coefficients of a row, and 0 where there are none.
fn divisor(cells: &[i64]) -> u64
    ensures { result ≡ cells_divisor cells.now }
{
    let [_constant, coefficients @ ..] = cells else {
        return 0;
    };
    divisor_of_all(coefficients)
}

// The greatest common divisor of the numbers. One of 1 stays.
#[tactic(auto, unfolding(crate::specs::RowsInCells::numbers_divisor))]
fn divisor_of_all(numbers: &[i64]) -> u64
    ensures { result ≡ numbers_divisor 0 numbers.now }
{
    let mut found = 0;
    let mut rest = numbers;
    'numbers: while let [number, later @ ..] = rest {
        if found == 1 {
            return 1;
        }
        found = gcd(found, number.unsigned_abs());
        rest = later;
    }
    found
}

/// The greatest common divisor of coefficients within the bound of forms.
pub(crate) fn signed_divisor(vars: &[u32], cells: &[i64]) -> i64
    requires wide { length cells.now ≡ length vars.now + 1 }
    requires small { IsTrue (all_within (linear_in vars.now cells.now).terms) }
    ensures { result ≡ pos (divisor (linear_in vars.now cells.now).terms) }
{
    let _count = vars.len();
    let common = divisor(cells);
    signed(common)
}

// The number with a sign.
fn signed(number: u64) -> i64
    requires { number < 2 ^ 62 }
    ensures { result ≡ pos number }
{
    number as i64
}

/// What two rows are multiplied by, so that a variable goes out of their sum.
#[derive(Clone, Copy, Drop)]
pub struct Multipliers {
    /// What the first row is multiplied by.
    pub first: i64,
    /// What the second row is multiplied by.
    pub second: i64,
}

// The number over a divisor, and 0 over 0.
fn part_of(number: u64, by: u64) -> i64
    requires { number < 2 ^ 62 }
    ensures exact { result ≡ pos (number / by) }
    ensures small { unsigned_abs result < 2 ^ 63 }
{
    if by == 0 { 0 } else { (number / by) as i64 }
}

/// The multipliers for coefficients of these magnitudes and different signs.
pub fn multipliers_for(first: u64, second: u64) -> Multipliers
    requires first { first < 2 ^ 62 }
    requires second { second < 2 ^ 62 }
    ensures first { result.first ≡ first_by first second }
    ensures second { result.second ≡ second_by first second }
    ensures first_small { unsigned_abs result.first < 2 ^ 63 }
    ensures second_small { unsigned_abs result.second < 2 ^ 63 }
{
    let common = gcd(first, second);
    Multipliers {
        first: part_of(second, common),
        second: part_of(first, common),
    }
}
