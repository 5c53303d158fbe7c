//! The value of terms and a constant under an assignment.
ghost use Rattle.std.specs.Prelude.{◌≡◌, ◌<◌, ◌≤◌, ◌+ℤ◌, length, All};
ghost use Rattle.xan_lin.specs.Value.{value_of_terms};
ghost use Rattle.xan_lin.specs.Wide.{whole, IsSumOf};

use crate::term::Term;
use crate::wide::{Wide, plus_product, widened};

// The sum of the terms' values and the constant.
pub(crate) fn value_of_all(terms: &[Term], constant: &i64, values: &[i64]) -> Wide
    requires few { length terms.now ≤ 16 }
    requires named { All (λ t. t.var < length values.now) terms.now }
    ensures exact { whole result ≡ value_of_terms values.now terms.now +ℤ constant.now }
    ensures small { IsSumOf 17 result }
{
    let mut value = widened(constant);
    for term in terms {
        value = plus_product(&value, &term.coef, &values[term.var as usize]);
    }
    value
}
