//! Forms that rules make.

ghost use Rattle.std.specs.Prelude.{◌≡◌, ◌≢◌, [], ◌∷◌, pos, IsTrue, IfSome, IfOk};
ghost use Rattle.operation_rules.specs.Forms as spec;
ghost use Rattle.xan_lin.specs.Linear.{is_within, sized};

use std::alloc::Global;
use xan_lin::{Form, Memory, Term, TooLarge};

/// The form of a number that is written.
#[tactic(auto, unfolding(xan_lin::specs::Linear::sized, xan_lin::specs::Terms::sum_terms))]
pub(crate) fn literal_form(number: &i64) -> Result<Form, TooLarge>
    ensures { result ≡ sized [] number.now }
{
    Form::from_terms(&[], *number)
}

/// The form 1.
#[tactic(auto, unfolding(xan_lin::specs::Linear::sized, xan_lin::specs::Terms::sum_terms))]
pub(crate) fn one_form() -> Form
    ensures { result ≡ spec.constant_form (pos 1) }
{
    let Ok(form) = Form::from_terms(&[], 1) else {
        unreachable!()
    };
    form
}

/// The variable times a number, and a constant.
pub(crate) fn multiple_form(coef: i64, var: u32, constant: i64) -> Form
    requires small { IsTrue (is_within coef) }
    requires some { coef ≢ pos 0 }
    requires small_constant { IsTrue (is_within constant) }
    ensures { result ≡ spec.multiple_form coef var constant }
{
    let Ok(form) = Form::from_terms(&[Term { var, coef }], constant) else {
        unreachable!()
    };
    form
}

/// The number that a form is, where it has no variable.
pub(crate) fn number_of(form: &Form) -> Option<i64>
    ensures number { result ≡ spec.number_of form.now }
    ensures small { IfSome result (λ n. IsTrue (is_within n)) }
{
    match form.terms() {
        [] => Some(form.constant_part()),
        _ => None,
    }
}

/// Two rows.
pub(crate) fn pair(
    alloc: Global,
    first: Result<Form, TooLarge>,
    second: Result<Form, TooLarge>,
) -> Result<Vec<Result<Form, TooLarge>>, Memory>
    ensures { IfOk result (λ rows. rows.items ≡ first ∷ second ∷ []) }
{
    let mut rows = Vec::new(alloc);
    let Ok(()) = rows.push(first) else {
        return Err(Memory);
    };
    let Ok(()) = rows.push(second) else {
        return Err(Memory);
    };
    Ok(rows)
}

/// What holds of the variable `q` that is f / c.
pub(crate) fn quotient_rows(
    alloc: Global,
    f: &Form,
    divisor: Option<i64>,
    q: u32,
) -> Result<Vec<Result<Form, TooLarge>>, Memory>
    requires { IfSome divisor (λ c. IsTrue (is_within c)) }
    ensures { IfOk result (λ rows. rows.items ≡ spec.quotient_rows f.now divisor q) }
{
    let Some(c) = divisor else {
        return Ok(Vec::new(alloc));
    };
    if c < 1 {
        return Ok(Vec::new(alloc));
    }
    let at_least = f.sub(&multiple_form(c, q, 0));
    let at_most = multiple_form(c, q, c - 1).sub(f);
    pair(alloc, at_least, at_most)
}

/// What holds of the variable `r` that is a remainder by `g`.
pub(crate) fn remainder_rows(
    alloc: Global,
    g: &Form,
    r: u32,
) -> Result<Vec<Result<Form, TooLarge>>, Memory>
    ensures { IfOk result (λ rows. rows.items ≡ spec.remainder_rows g.now r) }
{
    let remainder = Form::variable(r);
    let below = g.excess_row(&remainder);
    pair(alloc, Ok(remainder), below)
}
