//! Products by a number.
ghost use Rattle.std.specs.Prelude.{◌≡◌, ◌<◌, ◌≤◌, ◌*ℤ◌, [], ◌++◌, true, false, IsTrue, MatchOption, length};
ghost use Rattle.arrayvec.specs.ArrayVec.{array_vec_len};
ghost use Rattle.xan_lin.specs.Terms.{scaled_terms, with_multiple};
ghost use Rattle.xan_lin.specs.Linear.{is_within, all_within};

use crate::merge::push_multiple;
use crate::number::narrow;
use crate::term::Term;
use crate::wide::exact_product;
use arrayvec::ArrayVec;

// The product, where it is within the bound.
pub(crate) fn product(left: &i64, right: &i64) -> Option<i64>
    requires { IsTrue (is_within left.now) }
    ensures { MatchOption result (is_within (left.now *ℤ right.now) ≡ false)
        (λ number. (number ≡ left.now *ℤ right.now) × (is_within number ≡ true)) }
{
    narrow(&exact_product(left, right))
}

// The terms, each times a number, where all coefficients stay within the bound.
pub(crate) fn scaled(terms: &[Term], by: &i64) -> Option<ArrayVec<Term, 16>>
    requires few { length terms.now ≤ 16 }
    requires small { IsTrue (all_within terms.now) }
    ensures { MatchOption result (all_within (scaled_terms terms.now by.now) ≡ false)
        (λ made. (made.items ≡ scaled_terms terms.now by.now) × (all_within made.items ≡ true)) }
{
    let mut made = ArrayVec::new();
    for term in terms {
        let Some(coef) = product(&term.coef, by) else {
            return None;
        };
        push_multiple(
            &mut made,
            &Term {
                var: term.var,
                coef,
            },
        );
    }
    Some(made)
}
