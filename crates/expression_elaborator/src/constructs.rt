//! What a construct does to a state, once its operands have their types: it has the rule of its operation.

ghost use Rattle.std.specs.Prelude.{◌≡◌, ◌+◌, ◌≤◌, true, Ok, IfOk, All};
ghost use Rattle.std.specs.List.{list_all};
ghost use Rattle.header_elaborator.specs.Code.{Gives, Steps, and_then};
ghost use Rattle.expression_elaborator.specs.Views.{IsSite, site_of, state_of};
ghost use Rattle.operation_rules.specs.Answers as rules;
ghost use Rattle.operation_rules.specs.Named.{IsNamed};
ghost use Rattle.operation_rules.specs.Rules.{rule};
ghost use Rattle.state_types.specs.Types.{TypeBelow};
ghost use Rattle.typed_core.specs.Constructs as spec;
ghost use Rattle.typed_core.specs.Limits.{by_rule, held};
ghost use Rattle.typed_core.specs.States.{in_ctx};
ghost use Rattle.typed_core.specs.Strays.{type_below};

use crate::demands::ask_at;
use crate::state::{Site, State};
use header_elaborator::{Stop, hold, types_below};
use index_sorts::Context;
use operation_rules::{
    Operation, Rule, RuleError, assume_all, assumed_rows_are_named, rule_of, types_given, widen,
};
use state_types::Ty;
use std::alloc::Global;

/// The types name index variables that are there.
#[tactic(auto, using(header_elaborator::proofs::StrayTests::types_named))]
pub(crate) fn check_types(types: &[Ty], vars: u32) -> Result<(), Stop>
    ensures held { Gives (λ _. tt) result (held (list_all (type_below vars) types.now)) }
    ensures below { IfOk result (λ _. All (TypeBelow vars) types.now) }
{
    hold(types_below(types, vars))?;
    Ok(())
}

/// The rule's fresh variables come first, then the rows that are taken to hold, then the types that are given.
#[tactic(auto, unfolding(typed_core::specs::Constructs::followed))]
fn follow(alloc: Global, rule: &Rule, ctx: &mut Context) -> Result<Vec<Ty>, RuleError>
    requires { All (IsNamed (ctx.old.vars + rule.now.fresh)) rule.now.assumed }
    ensures { rules.Gives (λ types. (types.items, ctx.new)) result (spec.followed rule.now ctx.old) }
{
    widen(ctx, rule.fresh)?;
    assume_all(ctx, rule.assumed.as_slice())?;
    types_given(alloc, rule.given.as_slice())
}

/// The rule of an operation at a site. Its rows name present and fresh variables.
#[tactic(auto, using(header_elaborator::proofs::WalkParts::ruled_fails))]
fn rule_at(site: &Site<'_>, op: &Operation, types: &[Ty], ctx: &Context) -> Result<Rule, Stop>
    requires site { IsSite site.now }
    requires below { All (TypeBelow ctx.now.vars) types.now }
    ensures rule { Gives (λ rule. rule) result (by_rule (rule (spec.setting_of (site_of site.now)) op.now types.now ctx.now.vars)) }
    ensures named { IfOk result (λ rule. All (IsNamed (ctx.now.vars + rule.fresh)) rule.assumed) }
{
    assumed_rows_are_named();
    Ok(rule_of(site.alloc, &site.setting, op, types, ctx.vars())?)
}

/// The rule is followed, and there are no fewer variables.
#[tactic(auto, using(header_elaborator::proofs::WalkParts::ruled_fails, crate::proofs::ContextVariables::followed_grows))]
fn follow_at(site: &Site<'_>, rule: &Rule, ctx: &mut Context) -> Result<Vec<Ty>, Stop>
    requires { All (IsNamed (ctx.old.vars + rule.now.fresh)) rule.now.assumed }
    ensures followed { Gives (λ types. (types.items, ctx.new)) result (by_rule (spec.followed rule.now ctx.old)) }
    ensures grown { IfOk result (λ _. ctx.old.vars ≤ ctx.new.vars) }
{
    Ok(follow(site.alloc, rule, ctx)?)
}

/// What a rule demands is asked in the context before it, and then the rule is followed.
fn ask_and_follow(
    site: &Site<'_>,
    at: Option<u32>,
    rule: &Rule,
    st: &mut State,
) -> Result<Vec<Ty>, Stop>
    requires { All (IsNamed (st.old.ctx.vars + rule.now.fresh)) rule.now.assumed }
    ensures given { Steps (λ types. types.items) result (state_of st.new)
        (and_then (by_rule (spec.followed rule.now st.old.ctx)) (λ made. Ok (made.0, in_ctx made.1 (spec.asking (site_of site.now) at rule.now.demands (state_of st.old))))) }
    ensures grown { IfOk result (λ _. st.old.ctx.vars ≤ st.new.ctx.vars) }
{
    ask_at(site, at, rule.demands.as_slice(), st)?;
    Ok(follow_at(site, rule, &mut st.ctx)?)
}

/// The types that an operation gives to what it writes, by those that it reads.
#[tactic(auto, unfolding(typed_core::specs::Constructs::types_by))]
pub fn types_by(
    site: &Site<'_>,
    at: Option<u32>,
    op: &Operation,
    types: &[Ty],
    st: &mut State,
) -> Result<Vec<Ty>, Stop>
    requires { IsSite site.now }
    ensures given { Steps (λ types. types.items) result (state_of st.new) (spec.types_by (site_of site.now) at op.now types.now (state_of st.old)) }
    ensures grown { IfOk result (λ _. st.old.ctx.vars ≤ st.new.ctx.vars) }
    ensures below { IfOk result (λ _. All (TypeBelow st.old.ctx.vars) types.now) }
{
    check_types(types, st.ctx.vars())?;
    let rule = rule_at(site, op, types, &st.ctx)?;
    ask_and_follow(site, at, &rule, st)
}

/// The first type.
fn first_type(types: &[Ty]) -> Result<Ty, Stop>
    ensures { Gives (λ ty. ty) result (spec.first_type types.now) }
{
    let [ty, ..] = types else {
        return Err(Stop::Misfit);
    };
    Ok(ty.copy())
}

/// The one type that an operation gives.
#[tactic(auto, unfolding(typed_core::specs::Constructs::type_by))]
pub(crate) fn type_by(
    site: &Site<'_>,
    at: Option<u32>,
    op: &Operation,
    types: &[Ty],
    st: &mut State,
) -> Result<Ty, Stop>
    requires { IsSite site.now }
    ensures given { Steps (λ ty. ty) result (state_of st.new) (spec.type_by (site_of site.now) at op.now types.now (state_of st.old)) }
    ensures grown { IfOk result (λ _. st.old.ctx.vars ≤ st.new.ctx.vars) }
{
    let given = types_by(site, at, op, types, st)?;
    first_type(given.as_slice())
}

/// Where it writes nothing.
#[tactic(auto, unfolding(typed_core::specs::Constructs::state_by))]
pub fn state_by(
    site: &Site<'_>,
    at: Option<u32>,
    op: &Operation,
    types: &[Ty],
    st: &mut State,
) -> Result<(), Stop>
    requires { IsSite site.now }
    ensures moved { Gives (λ _. state_of st.new) result (spec.state_by (site_of site.now) at op.now types.now (state_of st.old)) }
    ensures grown { IfOk result (λ _. st.old.ctx.vars ≤ st.new.ctx.vars) }
    ensures below { IfOk result (λ _. All (TypeBelow st.old.ctx.vars) types.now) }
{
    let _given = types_by(site, at, op, types, st)?;
    Ok(())
}
