//! Rules of calls and returns.

ghost use Rattle.std.specs.Prelude.{◌≡◌, ◌≤◌, ◌+◌, ◌++◌, ◌<◌, [], ◌∷◌, All, IfOk, map, slice_get};
ghost use Rattle.operation_rules.specs.Answers.{Gives};
ghost use Rattle.operation_rules.specs.Faults.{NoTarget, or_fault};
ghost use Rattle.operation_rules.specs.Forms as forms;
ghost use Rattle.operation_rules.specs.Rules as spec;
ghost use Rattle.operation_rules.specs.Settings.{HasFew, IsFew, setting_of};
ghost use Rattle.state_types.specs.Types.{subst_ty};
ghost use Rattle.xan_lin.specs.Subst.{VariablesRise, subst_of};

use crate::closed_types::matching;
use crate::error::{Fault, RuleError};
use crate::rule::{Rule, gives_nothing, single};
use crate::setting::Setting;
use state_types::{Signature, Ty, subst_type};
use std::alloc::Global;
use xan_lin::{Form, Memory, TooLarge};
use xan_seq::Seq;

// Lists so many numbers from `number` on, each of which means the variable from `first` on in its turn, behind the values.
fn with_variables(
    mut values: Vec<(u32, Form)>,
    number: u32,
    first: u32,
    count: u32,
) -> Result<Vec<(u32, Form)>, Memory>
    requires number { number ≤ 1024 }
    requires first { first ≤ 1024 }
    requires count { count ≤ 1024 }
    ensures { IfOk result (λ all. all.items ≡ values.items ++ forms.variables_from number first count) }
{
    for turn in 0..count {
        let Ok(()) = values.push((number + turn, Form::variable(first + turn))) else {
            return Err(Memory);
        };
    }
    Ok(values)
}

// The rows of a result, in which the variables have these values.
fn result_rows(
    alloc: Global,
    rows: &[Form],
    values: &[(u32, Form)],
) -> Result<Vec<Result<Form, TooLarge>>, Memory>
    requires { VariablesRise 0 values.now }
    ensures { IfOk result (λ made. made.items ≡ map (subst_of values.now 0) rows.now) }
{
    let mut made = Vec::new(alloc);
    for row in rows {
        let Ok(()) = made.push(row.subst(values, 0)) else {
            return Err(Memory);
        };
    }
    Ok(made)
}

// A signature's result, where all its variables have these values.
fn result_with(
    alloc: Global,
    sig: &Signature,
    demands: Seq<Form>,
    values: &[(u32, Form)],
) -> Result<Rule, Memory>
    requires { VariablesRise 0 values.now }
    ensures { IfOk result (λ rule. rule ≡ record { demands = demands; fresh = sig.now.result_vars; assumed = map (subst_of values.now 0) sig.now.result_rows; given = subst_ty values.now 0 sig.now.result ∷ [] }) }
{
    let assumed = result_rows(alloc, sig.result_rows.as_slice(), values)?;
    let given = single(alloc, subst_type(&sig.result, values, 0))?;
    Ok(Rule {
        demands,
        fresh: sig.result_vars,
        assumed: Seq::from_vec(assumed),
        given: Seq::from_vec(given),
    })
}

/// The signature of this function.
#[tactic(auto, using(crate::proofs::CallsMade::sig_few))]
pub(crate) fn signature_at(sigs: &[Signature], fun: u32) -> Result<&Signature, RuleError>
    requires { All IsFew sigs.now }
    ensures found { Gives (λ sig. sig.now) result (or_fault NoTarget (slice_get sigs.now fun)) }
    ensures few { IfOk result (λ sig. IsFew sig.now) }
{
    match sigs.get(fun as usize) {
        Some(sig) => Ok(sig),
        None => Err(RuleError::Fault(Fault::NoTarget)),
    }
}

// The values of a signature's variables and of its result's own.
fn all_values(
    values: Vec<(u32, Form)>,
    sig: &Signature,
    first: u32,
) -> Result<Vec<(u32, Form)>, Memory>
    requires few { IsFew sig.now }
    requires first { first ≤ 1024 }
    requires rising { VariablesRise 0 values.items }
    requires listed { All (λ v. v.0 < sig.now.vars) values.items }
    ensures all { IfOk result (λ all. all.items ≡ values.items ++ forms.variables_from sig.now.vars first sig.now.result_vars) }
    ensures rising { IfOk result (λ all. VariablesRise 0 all.items) }
{
    with_variables(values, sig.vars, first, sig.result_vars)
}

/// A call with arguments of these types.
#[tactic(auto, unfolding(crate::specs::Rules::called))]
pub(crate) fn called(
    alloc: Global,
    st: &Setting<'_>,
    first: u32,
    fun: u32,
    types: &[Ty],
) -> Result<Rule, RuleError>
    requires few { HasFew (setting_of st.now) }
    requires room { first ≤ 1024 }
    ensures { Gives (λ rule. rule) result (spec.called (setting_of st.now) first fun types.now) }
{
    let sig = signature_at(st.sigs, fun)?;
    let found = matching(
        alloc,
        0,
        sig.vars,
        sig.rows.as_slice(),
        sig.params.as_slice(),
        types,
    )?;
    let values = all_values(found.values.into_vec(), sig, first)?;
    Ok(result_with(alloc, sig, found.rows, values.as_slice())?)
}

/// The function's result, where its own variables stay what they are.
#[tactic(auto, unfolding(crate::specs::Rules::returned))]
pub(crate) fn returned(alloc: Global, own: &Signature, types: &[Ty]) -> Result<Rule, RuleError>
    requires { IsFew own.now }
    ensures { Gives (λ rule. rule) result (spec.returned own.now types.now) }
{
    let wanted = single(alloc, own.result.copy())?;
    let found = matching(
        alloc,
        own.vars,
        own.vars + own.result_vars,
        own.result_rows.as_slice(),
        wanted.as_slice(),
        types,
    )?;
    Ok(gives_nothing(alloc, found.rows.into_vec()))
}
