//! Instructions that go to a label.

ghost use Rattle.std.specs.Prelude.{◌≡◌, All, IfOk, option_map, true};
ghost use Rattle.std.specs.List.{list_all};
ghost use Rattle.dtal_code.specs.Declarations.{state_of};
ghost use Rattle.dtal_code.specs.Passing as spec;
ghost use Rattle.dtal_code.specs.Verdicts.{by_rule, found};
ghost use Rattle.dtal_code.specs.declared.refusal.Rule.TheVariants as rule;
ghost use Rattle.instruction_checks.specs.Code.{Gives};
ghost use Rattle.instruction_checks.specs.Proving.{IsReady};
ghost use Rattle.instruction_checks.specs.Steps as steps;
ghost use Rattle.instruction_checks.specs.Views.{AreCountable, IsSite, IsStanding, action_of};
ghost use Rattle.operation_rules.specs.Answers as rules;
ghost use Rattle.operation_rules.specs.Applied.{all_assuming};
ghost use Rattle.operation_rules.specs.Faults.{filled};
ghost use Rattle.operation_rules.specs.Settings.{setting_of};
ghost use Rattle.operation_rules.specs.Sides.{side};
ghost use Rattle.state_types.specs.Types.{TypeBelow};
ghost use Rattle.xan_lin.specs.Subst.{VariablesRise};

use crate::action::Action;
use crate::asking::asks;
use crate::error::Broken;
use crate::going::rule_in;
use crate::lines::{Checker, are_proved};
use crate::names::form_below;
use crate::reading::present_types;
use crate::site::Site;
use dtal_code::Rule;
use operation_rules::{Operation, RuleError, assume_all, side_rows};
use proof_lines::Line;
use state_types::{Context, StateError, StateType, Ty, meets};
use std::alloc::Global;
use xan_lin::Form;
use xan_seq::Seq;

// The state at the label of a number.
fn state_at(labels: &[StateType], label: u32) -> Option<&StateType>
    ensures { option_map (λ state. state.now) result ≡ spec.label_at labels.now label }
{
    if label == 0 {
        return None;
    }
    labels.get((label - 1) as usize)
}

// The state at the label to which an instruction goes.
fn target_of(labels: &[StateType], label: u32) -> Result<&StateType, Broken>
    ensures { Gives (λ state. state.now) result (found (spec.label_at labels.now label) rule.Target) }
{
    match state_at(labels, label) {
        Some(state) => Ok(state),
        None => Err(Broken::Rule(Rule::Target)),
    }
}

// Whether the variable is the label's, and not the signature's.
fn is_listed(own: u32, vars: u32, value: &(u32, Form)) -> bool
    ensures { result ≡ spec.is_listed own vars value.now }
{
    own <= value.0 && value.0 < vars
}

// Whether all are.
fn are_listed(own: u32, vars: u32, values: &[(u32, Form)]) -> bool
    ensures { result ≡ list_all (spec.is_listed own vars) values.now }
{
    values.iter().all(|value| is_listed(own, vars, value))
}

// Whether the values name only variables below a number.
fn values_below(vars: u32, values: &[(u32, Form)]) -> bool
    ensures { result ≡ list_all (spec.value_is_below vars) values.now }
{
    values
        .iter()
        .all(|value| form_below(&value.1, u64::from(vars)))
}

// What is asked of the listed values.
#[tactic(auto, unfolding(crate::specs::Steps::values_by))]
fn check_values(own: u32, target: u32, present: u32, values: &[(u32, Form)]) -> Result<(), Broken>
    ensures { Gives (λ _. tt) result (steps.values_by own target present values.now) }
{
    asks(are_listed(own, target, values), Rule::Edge)?;
    asks(values_below(present, values), Rule::Form)
}

// The rows that the label demands.
fn edge_rows(
    alloc: Global,
    own: u32,
    state: &StateType,
    target: &StateType,
    values: &[(u32, Form)],
) -> Result<Vec<Form>, Broken>
    requires { VariablesRise 0 values.now }
    ensures { Gives (λ rows. rows.items) result (steps.edge_rows_by own state.now target.now values.now) }
{
    match meets(alloc, state, target, values) {
        Ok(rows) => {
            check_values(own, target.ctx.vars(), state.ctx.vars(), values)?;
            Ok(rows)
        }
        Err(StateError::Large(_)) => {
            check_values(own, target.ctx.vars(), state.ctx.vars(), values)?;
            Err(Broken::Rule(Rule::Form))
        }
        Err(StateError::Kind(_)) => Err(Broken::Rule(Rule::Kind)),
        Err(StateError::Memory) => Err(Broken::Memory),
    }
}

// The context with the rows of the side that goes to the label, or of the other one.
fn assume_side(
    alloc: Global,
    taken: bool,
    op: &Operation,
    types: &[Ty],
    ctx: &mut Context,
) -> Result<(), RuleError>
    requires { All (TypeBelow ctx.old.vars) types.now }
    ensures { rules.Gives (λ _. ctx.new) result (filled (all_assuming (side taken op.now types.now) ctx.old)) }
{
    let rows = side_rows(alloc, taken, op, types)?;
    assume_all(ctx, rows.as_slice())
}

// The context on the side that goes to the label.
fn taken_side(
    alloc: Global,
    op: &Operation,
    types: &[Ty],
    ctx: &Context,
) -> Result<Context, RuleError>
    requires { All (TypeBelow ctx.now.vars) types.now }
    ensures { rules.Gives (λ taken. taken) result (filled (all_assuming (side true op.now types.now) ctx.now)) }
{
    let mut taken = ctx.copy()?;
    assume_side(alloc, true, op, types, &mut taken)?;
    Ok(taken)
}

// The edge to a label, with the lines of what it demands, and the context that goes on.
#[tactic(auto, using(crate::proofs::VerdictParts::ruled_fails), unfolding(crate::specs::Steps::edge_by))]
fn keep_edge(
    site: &Site<'_>,
    checker: &mut Checker,
    target: &StateType,
    op: &Operation,
    types: &[Ty],
    values: &[(u32, Form)],
    by: &[Seq<Line>],
    state: &mut StateType,
) -> Result<(), Broken>
    requires ready { IsReady checker.old }
    requires countable { AreCountable by.now }
    requires rising { VariablesRise 0 values.now }
    requires below { All (TypeBelow state.old.ctx.vars) types.now }
    ensures left { Gives (λ _. state.new.ctx) result (steps.edge_by (setting_of site.now.setting) state.old target.now op.now types.now values.now by.now) }
    ensures places { IfOk result (λ _. state.new.places ≡ state.old.places) }
    ensures ready { IfOk result (λ _. IsReady checker.new) }
{
    let demands = edge_rows(site.alloc, site.setting.own.vars, state, target, values)?;
    let taken = taken_side(site.alloc, op, types, &state.ctx)?;
    assume_side(site.alloc, false, op, types, &mut state.ctx)?;
    asks(
        are_proved(site.alloc, checker, &taken, demands.as_slice(), by)?,
        Rule::Lines,
    )
}

// The operation has a rule for what it reads.
#[tactic(auto, using(crate::proofs::VerdictParts::ruled_fails), unfolding(crate::specs::Steps::kinds_by))]
fn check_kinds(site: &Site<'_>, op: &Operation, types: &[Ty], ctx: &Context) -> Result<(), Broken>
    requires site { IsSite site.now }
    requires below { All (TypeBelow ctx.now.vars) types.now }
    ensures { Gives (λ _. tt) result (steps.kinds_by (setting_of site.now.setting) op.now types.now ctx.now.vars) }
{
    let _rule = rule_in(site, op, types, ctx)?;
    Ok(())
}

// The state behind an instruction that goes to a label.
#[tactic(auto, unfolding(crate::specs::Steps::goes_to_by))]
fn go_to_by(
    site: &Site<'_>,
    checker: &mut Checker,
    action: &Action,
    values: &[(u32, Form)],
    by: &[Seq<Line>],
    state: &mut StateType,
) -> Result<(), Broken>
    requires site { IsSite site.now }
    requires ready { IsReady checker.old }
    requires countable { AreCountable by.now }
    requires rising { VariablesRise 0 values.now }
    requires standing { IsStanding site.now.setting.own.now.vars state.old }
    ensures gone { Gives (λ _. state.new) result (steps.goes_to_by (setting_of site.now.setting) site.now.labels.now state.old (action_of action.now) values.now by.now) }
    ensures ready { IfOk result (λ _. IsReady checker.new) }
{
    let target = target_of(site.labels, action.target)?;
    let types = present_types(site, action, state)?;
    check_kinds(site, &action.operation, types.as_slice(), &state.ctx)?;
    keep_edge(
        site,
        checker,
        target,
        &action.operation,
        types.as_slice(),
        values,
        by,
        state,
    )
}

/// The same as the definition has it, and what is asked of the state before the next instruction holds.
pub(crate) fn go_to(
    site: &Site<'_>,
    checker: &mut Checker,
    action: &Action,
    values: &[(u32, Form)],
    by: &[Seq<Line>],
    state: &mut StateType,
) -> Result<(), Broken>
    requires site { IsSite site.now }
    requires ready { IsReady checker.old }
    requires countable { AreCountable by.now }
    requires rising { VariablesRise 0 values.now }
    requires standing { IsStanding site.now.setting.own.now.vars state.old }
    ensures gone { Gives (λ _. state.new) result (spec.goes_to_verdict (setting_of site.now.setting) site.now.labels.now state.old (action_of action.now) values.now by.now) }
    ensures standing { IfOk result (λ _. IsStanding site.now.setting.own.now.vars state.new) }
    ensures ready { IfOk result (λ _. IsReady checker.new) }
{
    go_to_by(site, checker, action, values, by, state)
}
