//! The values of quantified variables.

ghost use Rattle.std.specs.Prelude.{◌≡◌, ◌-◌, IfOk};
ghost use Rattle.xan_lin.specs.Subst.{VariablesRise, zero_form};
ghost use Rattle.state_types.specs.Matching as spec;
ghost use Rattle.state_types.specs.Types.{index_of};

use crate::pairs::Pair;
use crate::types::Ty;
use std::alloc::Global;
use xan_lin::{Form, Memory};

// The form 0.
#[tactic(auto, unfolding(xan_lin::specs::Linear::sized, xan_lin::specs::Terms::sum_terms))]
fn zero() -> Form
    ensures { result ≡ zero_form }
{
    let Ok(form) = Form::from_terms(&[], 0) else {
        unreachable!()
    };
    form
}

// Whether the index of the type is the variable alone.
fn is_alone(ty: &Ty, var: u32) -> bool
    ensures { result ≡ spec.is_alone var (index_of ty.now) }
{
    match ty.index() {
        Some(index) => index.is_same(&Form::variable(var)),
        None => false,
    }
}

// The index of the type.
fn index_or_zero(ty: &Ty) -> Form
    ensures { result ≡ spec.index_or_zero (index_of ty.now) }
{
    match ty.index() {
        Some(index) => index.copy(),
        None => zero(),
    }
}

// The value of a variable.
#[tactic(auto, unfolding(crate::specs::Matching::value_for))]
fn value_for(mut pairs: &[Pair], var: u32) -> Form
    ensures { result ≡ spec.value_for var pairs.entry.now }
{
    while let [pair, later @ ..] = pairs {
        if is_alone(&pair.wanted, var) {
            return index_or_zero(&pair.present);
        }
        pairs = later;
    }
    zero()
}

/// The values of the variables from `below` to `vars`.
pub(crate) fn values_for(
    alloc: Global,
    below: u32,
    vars: u32,
    pairs: &[Pair],
) -> Result<Vec<(u32, Form)>, Memory>
    ensures values { IfOk result (λ values. values.items ≡ spec.values_for below (vars - below) pairs.now) }
    ensures rising { IfOk result (λ values. VariablesRise 0 values.items) }
{
    let mut values = Vec::new(alloc);
    for var in below..vars {
        let Ok(()) = values.push((var, value_for(pairs, var))) else {
            return Err(Memory);
        };
    }
    Ok(values)
}
