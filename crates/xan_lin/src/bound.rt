//! Numbers against the bound.
ghost use Rattle.std.specs.Prelude.{◌≡◌};
ghost use Rattle.xan_lin.specs.Linear.{is_within, all_within, are_within, cut_number};

use crate::term::{BOUND, Term};

// Whether the magnitude is within the bound.
pub(crate) fn is_wide_small(number: &i128) -> bool
    ensures { result ≡ is_within number.now }
{
    number.unsigned_abs() <= u128::from(BOUND.unsigned_abs())
}

// Whether the magnitude is within the bound.
pub(crate) fn is_small(number: &i64) -> bool
    ensures { result ≡ is_within number.now }
{
    is_wide_small(&i128::from(*number))
}

// Whether each coefficient is.
pub(crate) fn are_small(terms: &[Term]) -> bool
    ensures { result ≡ all_within terms.now }
{
    terms.iter().all(|term| is_small(&term.coef))
}

// Whether each number of these terms and of the constant is within the bound.
pub(crate) fn all_are_small(terms: &[Term], constant: &i64) -> bool
    ensures { result ≡ are_within terms.now constant.now }
{
    are_small(terms) && is_small(constant)
}

// The number, or another one past the bound where it is past it.
pub(crate) fn cut(number: &i128) -> i64
    ensures { result ≡ cut_number number.now }
{
    if is_wide_small(number) {
        *number as i64
    } else {
        i64::MAX
    }
}
