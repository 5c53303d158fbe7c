//! Products and sums of the numbers of forms.
ghost use Rattle.std.specs.Prelude.{◌≡◌, ◌-◌, ◌^◌, ◌<◌, ◌≤◌, ◌+ℤ◌, ◌*ℤ◌, unsigned_abs, true, false, MatchOption};
ghost use Rattle.xan_lin.specs.Linear.{is_within};

use crate::bound::is_wide_small;

// The product of a number and a multiplier below 2^63.
fn multiply(number: &i64, by: &i64) -> i128
    requires { unsigned_abs by.now < 2 ^ 63 }
    ensures exact { result ≡ number.now *ℤ by.now }
    ensures room { unsigned_abs result ≤ 2 ^ 126 - 2 ^ 63 }
{
    i128::from(*number) * i128::from(*by)
}

// The number, where it is within the bound.
pub(crate) fn narrow(exact: &i128) -> Option<i64>
    ensures { MatchOption result (is_within exact.now ≡ false) (λ number. (number ≡ exact.now) × (is_within number ≡ true)) }
{
    if is_wide_small(exact) {
        Some(*exact as i64)
    } else {
        None
    }
}

// The sum of two numbers, of which neither is large.
fn add_products(left: &i128, right: &i128) -> i128
    requires left { unsigned_abs left.now ≤ 2 ^ 126 - 2 ^ 63 }
    requires right { unsigned_abs right.now ≤ 2 ^ 126 - 2 ^ 63 }
    ensures { result ≡ left.now +ℤ right.now }
{
    *left + *right
}

/// The sum of two numbers, each times a multiplier whose magnitude is less than 2^63, where it is within the bound of forms.
pub fn combine_numbers(left: &i64, left_by: &i64, right: &i64, right_by: &i64) -> Option<i64>
    requires left { unsigned_abs left_by.now < 2 ^ 63 }
    requires right { unsigned_abs right_by.now < 2 ^ 63 }
    ensures { MatchOption result (is_within ((left.now *ℤ left_by.now) +ℤ (right.now *ℤ right_by.now)) ≡ false)
        (λ number. (number ≡ (left.now *ℤ left_by.now) +ℤ (right.now *ℤ right_by.now)) × (is_within number ≡ true)) }
{
    let left_product = multiply(left, left_by);
    let right_product = multiply(right, right_by);
    narrow(&add_products(&left_product, &right_product))
}
