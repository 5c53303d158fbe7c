//! Sums of rising terms.
ghost use Rattle.std.specs.Prelude.{◌≡◌, ◌+◌, ◌<◌, ◌≤◌, ◌+ℤ◌, ◌-ℤ◌, pos, [], ◌++◌, map, take, neg_ℤ, IsTrue, length};
ghost use Rattle.arrayvec.specs.ArrayVec.{array_vec_len};
ghost use Rattle.xan_lin.specs.Terms.{sum_terms, negated_term, negated_terms, with_multiple, IsRising};
ghost use Rattle.xan_lin.specs.Linear.{is_within, all_within};

use crate::term::Term;
use arrayvec::ArrayVec;

// The sum of two numbers within the bound.
pub(crate) fn number_sum(left: &i64, right: &i64) -> i64
    requires left { IsTrue (is_within left.now) }
    requires right { IsTrue (is_within right.now) }
    ensures { result ≡ left.now +ℤ right.now }
{
    *left + *right
}

// The first number less the second.
pub(crate) fn number_difference(left: &i64, right: &i64) -> i64
    requires left { IsTrue (is_within left.now) }
    requires right { IsTrue (is_within right.now) }
    ensures { result ≡ left.now -ℤ right.now }
{
    *left - *right
}

// The first number less the second, less 1.
pub(crate) fn number_excess(left: &i64, right: &i64) -> i64
    requires left { IsTrue (is_within left.now) }
    requires right { IsTrue (is_within right.now) }
    ensures { result ≡ (left.now -ℤ right.now) -ℤ pos 1 }
{
    *left - *right - 1
}

// The number with the other sign, less 1.
pub(crate) fn below_negated(number: &i64) -> i64
    requires { IsTrue (is_within number.now) }
    ensures { result ≡ neg_ℤ number.now -ℤ pos 1 }
{
    -*number - 1
}

// The term with the other sign.
fn turned_term(term: &Term) -> Term
    requires { IsTrue (is_within term.now.coef) }
    ensures { result ≡ negated_term term.now }
{
    Term {
        var: term.var,
        coef: -term.coef,
    }
}

// The terms with the other sign.
pub(crate) fn negated(terms: &[Term]) -> ArrayVec<Term, 16>
    requires few { length terms.now ≤ 16 }
    requires small { IsTrue (all_within terms.now) }
    ensures { result.items ≡ negated_terms terms.now }
{
    let mut made = ArrayVec::new();
    for term in terms {
        made.push(turned_term(term));
    }
    made
}

// The terms, in a vector of their own.
pub(crate) fn held(terms: &[Term]) -> ArrayVec<Term, 16>
    requires { length terms.now ≤ 16 }
    ensures { result.items ≡ terms.now }
{
    let mut held = ArrayVec::new();
    let Ok(()) = held.try_extend_from_slice(terms) else {
        unreachable!()
    };
    held
}

// Puts a term behind others, where its coefficient is not 0.
pub(crate) fn push_multiple<const N: usize>(made: &mut ArrayVec<Term, N>, term: &Term)
    requires { array_vec_len made.old < N }
    ensures { made.new.items ≡ made.old.items ++ with_multiple term.now.var term.now.coef [] }
{
    if term.coef != 0 {
        made.push(*term);
    }
}

// The sum of two terms of one variable, where it is not 0, behind what was made.
fn push_sum(made: &mut ArrayVec<Term, 32>, left: &Term, right: &Term)
    requires room { array_vec_len made.old < 32 }
    requires left { IsTrue (is_within left.now.coef) }
    requires right { IsTrue (is_within right.now.coef) }
    ensures { made.new.items ≡ made.old.items ++ with_multiple left.now.var (left.now.coef +ℤ right.now.coef) [] }
{
    let term = Term {
        var: left.var,
        coef: number_sum(&left.coef, &right.coef),
    };
    push_multiple(made, &term);
}

// What was made, and then the rest.
fn followed_by(mut made: ArrayVec<Term, 32>, rest: &[Term]) -> ArrayVec<Term, 32>
    requires { array_vec_len made + length rest.now ≤ 32 }
    ensures { result.items ≡ made.items ++ rest.now }
{
    let Ok(()) = made.try_extend_from_slice(rest) else {
        unreachable!()
    };
    made
}

// The sum of the terms of two forms. The terms with the lesser variable come first.
pub(crate) fn merged(left: &[Term], right: &[Term]) -> ArrayVec<Term, 32>
    requires left_rises { IsRising 0 left.now }
    requires right_rises { IsRising 0 right.now }
    requires left_small { IsTrue (all_within left.now) }
    requires right_small { IsTrue (all_within right.now) }
    requires few { length left.now + length right.now ≤ 32 }
    ensures { result.items ≡ sum_terms left.now right.now }
{
    let mut made = ArrayVec::new();
    let mut later_left = left;
    let mut later_right = right;
    'terms: while let [x, xs @ ..] = later_left {
        let [y, ys @ ..] = later_right else {
            return followed_by(made, later_left);
        };
        if y.var < x.var {
            made.push(*y);
            later_right = ys;
        } else if y.var == x.var {
            push_sum(&mut made, x, y);
            later_left = xs;
            later_right = ys;
        } else {
            made.push(*x);
            later_left = xs;
        }
    }
    followed_by(made, later_right)
}
