//! Whether quantified variables are indices by themselves.

ghost use Rattle.std.specs.Prelude.{◌≡◌, pos};
ghost use Rattle.std.specs.List.{list_any};
ghost use Rattle.dtal_code.specs.Declarations as spec;
ghost use Rattle.index_sorts.specs.Known.{same_form, same_term};
ghost use Rattle.state_types.specs.Matching as matching;
ghost use Rattle.state_types.specs.Types.{index_of};
ghost use Rattle.xan_lin.specs.Linear.{variable_form};

use state_types::Ty;
use xan_lin::{Form, Term};

// Whether the term is the variable once.
fn is_once(var: u64, term: &Term) -> bool
    ensures { result ≡ same_term term.now (record { var = var; coef = pos 1 }) }
{
    u64::from(term.var) == var && term.coef == 1
}

// Whether the form is the variable by itself. A variable is a number below 2 to the 32, and `var` may be past that.
fn is_variable(var: u64, form: &Form) -> bool
    ensures { result ≡ same_form form.now (variable_form var) }
{
    if form.constant_part() != 0 {
        return false;
    }
    let [term, others @ ..] = form.terms() else {
        return false;
    };
    if !others.is_empty() {
        return false;
    }
    is_once(var, term)
}

// Whether the variable is by itself the index of the type.
fn is_alone(var: u64, ty: &Ty) -> bool
    ensures { result ≡ matching.is_alone var (index_of ty.now) }
{
    match ty.index() {
        Some(index) => is_variable(var, index),
        None => false,
    }
}

// Whether it is that of some of the types.
fn is_somewhere(var: u64, types: &[Ty]) -> bool
    ensures { result ≡ list_any (λ t. matching.is_alone var (index_of t)) types.now }
{
    types.iter().any(|ty| is_alone(var, ty))
}

/// Whether each of so many variables is an index of one of the types by itself.
#[tactic(auto, using(crate::proofs::AloneTurns::alone_turn, crate::proofs::AloneTurns::alone_not), unfolding(dtal_code::specs::Declarations::are_alone))]
pub(crate) fn are_alone(first: u32, count: u32, types: &[Ty]) -> bool
    ensures { result ≡ spec.are_alone first count types.now }
{
    let mut var = u64::from(first);
    let mut left = count;
    while left > 0 {
        if !is_somewhere(var, types) {
            return false;
        }
        var += 1;
        left -= 1;
    }
    true
}
