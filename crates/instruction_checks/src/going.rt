//! Instructions that do not go to a label.

ghost use Rattle.std.specs.Prelude.{◌≡◌, ◌≤◌, ◌+◌, All, IfOk};
ghost use Rattle.dtal_code.specs.Passing as spec;
ghost use Rattle.dtal_code.specs.Verdicts.{by_rule};
ghost use Rattle.instruction_checks.specs.Code.{Gives, IsGiven};
ghost use Rattle.instruction_checks.specs.Proving.{IsReady};
ghost use Rattle.instruction_checks.specs.Steps as steps;
ghost use Rattle.instruction_checks.specs.Views.{AreCountable, IsSite, IsStanding, action_of};
ghost use Rattle.operation_rules.specs.Answers as rules;
ghost use Rattle.operation_rules.specs.Named.{IsNamed, IsTypeNamed};
ghost use Rattle.operation_rules.specs.Rules.{rule};
ghost use Rattle.operation_rules.specs.declared.operation.Operation.TheVariants.{Return};
ghost use Rattle.operation_rules.specs.Settings.{setting_of};
ghost use Rattle.state_types.specs.Types.{TypeBelow};

use crate::action::Action;
use crate::asking::asks;
use crate::error::Broken;
use crate::lines::{Checker, are_proved};
use crate::reading::{read_types, set_types};
use crate::site::Site;
use dtal_code::Rule as Broke;
use operation_rules::{Operation, Rule, RuleError, apply, assumed_rows_are_named, rule_of};
use proof_lines::Line;
use state_types::{Context, StateType, Ty};
use xan_seq::Seq;

/// The rule of an operation in a context. Its rows name present and fresh variables.
pub(crate) fn rule_in(
    site: &Site<'_>,
    op: &Operation,
    types: &[Ty],
    ctx: &Context,
) -> Result<Rule, RuleError>
    requires site { IsSite site.now }
    requires below { All (TypeBelow ctx.now.vars) types.now }
    ensures rule { rules.Gives (λ rule. rule) result (rule (setting_of site.now.setting) op.now types.now ctx.now.vars) }
    ensures named { IfOk result (λ rule. All (IsNamed (ctx.now.vars + rule.fresh)) rule.assumed) }
{
    assumed_rows_are_named();
    rule_of(site.alloc, &site.setting, op, types, ctx.vars())
}

// The rule of an operation is applied, and lines prove what it demands in the context before it. The types that it gives.
#[tactic(auto, using(crate::proofs::VerdictParts::ruled_fails), unfolding(crate::specs::Steps::kept_by))]
fn keep_rule(
    site: &Site<'_>,
    checker: &mut Checker,
    op: &Operation,
    types: &[Ty],
    by: &[Seq<Line>],
    ctx: &mut Context,
) -> Result<Seq<Ty>, Broken>
    requires site { IsSite site.now }
    requires ready { IsReady checker.old }
    requires countable { AreCountable by.now }
    requires below { All (TypeBelow ctx.old.vars) types.now }
    ensures kept { Gives (λ given. (given, ctx.new)) result (steps.kept_by (setting_of site.now.setting) op.now types.now ctx.old by.now) }
    ensures ready { IfOk result (λ _. IsReady checker.new) }
{
    let rule = rule_in(site, op, types, ctx)?;
    let proved = are_proved(site.alloc, checker, ctx, rule.demands.as_slice(), by)?;
    let outcome = apply(site.alloc, rule, ctx)?;
    asks(proved, Broke::Lines)?;
    Ok(outcome.types)
}

// The state behind an instruction.
#[tactic(auto, unfolding(crate::specs::Steps::goes_on_by))]
fn go_on_by(
    site: &Site<'_>,
    checker: &mut Checker,
    action: &Action,
    by: &[Seq<Line>],
    state: &mut StateType,
) -> Result<(), Broken>
    requires site { IsSite site.now }
    requires ready { IsReady checker.old }
    requires countable { AreCountable by.now }
    requires standing { IsStanding site.now.setting.own.now.vars state.old }
    ensures gone { Gives (λ _. state.new) result (steps.goes_on_by (setting_of site.now.setting) state.old (action_of action.now) by.now) }
    ensures ready { IfOk result (λ _. IsReady checker.new) }
{
    let types = read_types(site, action, state)?;
    let given = keep_rule(
        site,
        checker,
        &action.operation,
        types.as_slice(),
        by,
        &mut state.ctx,
    )?;
    set_types(
        &mut state.places,
        action.writes.as_slice(),
        given.as_slice(),
    )?;
    Ok(())
}

/// The same as the definition has it, and what is asked of the state before the next instruction holds.
pub(crate) fn go_on(
    site: &Site<'_>,
    checker: &mut Checker,
    action: &Action,
    by: &[Seq<Line>],
    state: &mut StateType,
) -> Result<(), Broken>
    requires site { IsSite site.now }
    requires ready { IsReady checker.old }
    requires countable { AreCountable by.now }
    requires standing { IsStanding site.now.setting.own.now.vars state.old }
    ensures gone { Gives (λ _. state.new) result (spec.goes_on_verdict (setting_of site.now.setting) state.old (action_of action.now) by.now) }
    ensures standing { IfOk result (λ _. IsStanding site.now.setting.own.now.vars state.new) }
    ensures ready { IfOk result (λ _. IsReady checker.new) }
{
    go_on_by(site, checker, action, by, state)
}

// The rule of a return is applied, and the context stays.
fn keep_return(
    site: &Site<'_>,
    checker: &mut Checker,
    op: &Operation,
    types: &[Ty],
    by: &[Seq<Line>],
    ctx: &mut Context,
) -> Result<(), Broken>
    requires site { IsSite site.now }
    requires ready { IsReady checker.old }
    requires countable { AreCountable by.now }
    requires below { All (TypeBelow ctx.old.vars) types.now }
    requires returns { op.now ≡ Return }
    ensures kept { IsGiven result (steps.kept_by (setting_of site.now.setting) op.now types.now ctx.old by.now) }
    ensures same { IfOk result (λ _. ctx.new ≡ ctx.old) }
    ensures ready { IfOk result (λ _. IsReady checker.new) }
{
    keep_rule(site, checker, op, types, by, ctx)?;
    Ok(())
}

// The state behind a return: the one before it.
#[tactic(auto, unfolding(crate::specs::Steps::gives_back_by))]
fn go_back_by(
    site: &Site<'_>,
    checker: &mut Checker,
    action: &Action,
    by: &[Seq<Line>],
    state: &mut StateType,
) -> Result<(), Broken>
    requires site { IsSite site.now }
    requires ready { IsReady checker.old }
    requires countable { AreCountable by.now }
    requires standing { IsStanding site.now.setting.own.now.vars state.old }
    requires returns { action.now.operation ≡ Return }
    ensures gone { Gives (λ _. state.new) result (steps.gives_back_by (setting_of site.now.setting) state.old (action_of action.now) by.now) }
    ensures same { IfOk result (λ _. state.new ≡ state.old) }
    ensures ready { IfOk result (λ _. IsReady checker.new) }
{
    let types = read_types(site, action, state)?;
    keep_return(
        site,
        checker,
        &action.operation,
        types.as_slice(),
        by,
        &mut state.ctx,
    )
}

/// The same as the definition has it.
pub(crate) fn go_back(
    site: &Site<'_>,
    checker: &mut Checker,
    action: &Action,
    by: &[Seq<Line>],
    state: &mut StateType,
) -> Result<(), Broken>
    requires site { IsSite site.now }
    requires ready { IsReady checker.old }
    requires countable { AreCountable by.now }
    requires standing { IsStanding site.now.setting.own.now.vars state.old }
    requires returns { action.now.operation ≡ Return }
    ensures gone { Gives (λ _. state.new) result (spec.gives_back_verdict (setting_of site.now.setting) state.old (action_of action.now) by.now) }
    ensures standing { IfOk result (λ _. IsStanding site.now.setting.own.now.vars state.new) }
    ensures ready { IfOk result (λ _. IsReady checker.new) }
{
    go_back_by(site, checker, action, by, state)
}
