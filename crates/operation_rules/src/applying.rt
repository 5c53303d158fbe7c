//! A rule applied to a context.

ghost use Rattle.std.specs.Prelude.{◌≡◌, ◌+◌, All, IfOk};
ghost use Rattle.operation_rules.specs.Answers.{Gives};
ghost use Rattle.operation_rules.specs.Applied as spec;
ghost use Rattle.operation_rules.specs.Faults.{filled, needed};
ghost use Rattle.operation_rules.specs.Named.{IsNamed};

use crate::error::{Fault, RuleError};
use crate::rule::Rule;
use index_sorts::Context;
use state_types::Ty;
use std::alloc::Global;
use xan_lin::{Form, TooLarge};
use xan_seq::Seq;

/// What an operation demands, and the types of what it writes.
#[derive(Drop)]
pub struct Outcome {
    /// The demanded rows, in order.
    pub demands: Seq<Form>,
    /// The types of what is written.
    pub types: Seq<Ty>,
}

/// The context has so many more variables. `Variables` comes exactly where there are too many.
#[tactic(auto, unfolding(crate::specs::Applied::widened))]
pub fn widen(ctx: &mut Context, count: u32) -> Result<(), RuleError>
    ensures widened { Gives (λ _. ctx.new) result (filled (spec.widened count ctx.old)) }
    ensures more { IfOk result (λ _. ctx.new.vars ≡ ctx.old.vars + count) }
{
    ctx.fresh(count)?;
    Ok(())
}

/// A row is taken to hold. It is left out where it is past the bounds or known. It names variables of the context.
pub fn assume(ctx: &mut Context, row: &Result<Form, TooLarge>) -> Result<(), RuleError>
    requires { IsNamed ctx.old.vars row.now }
    ensures assumed { Gives (λ _. ctx.new) result (filled (spec.assuming row.now ctx.old)) }
    ensures variables { ctx.new.vars ≡ ctx.old.vars }
{
    if let Ok(row) = row {
        ctx.add(row.copy())?;
    }
    Ok(())
}

/// The same of rows in order.
#[tactic(auto, unfolding(crate::specs::Applied::all_assuming))]
pub fn assume_all(ctx: &mut Context, mut rows: &[Result<Form, TooLarge>]) -> Result<(), RuleError>
    requires { All (IsNamed ctx.old.vars) rows.now }
    ensures { Gives (λ _. ctx.new) result (filled (spec.all_assuming rows.entry.now ctx.old)) }
{
    while let [row, later @ ..] = rows {
        assume(ctx, row)?;
        rows = later;
    }
    Ok(())
}

// A type that has to be within the bounds.
fn within(ty: &Result<Ty, TooLarge>) -> Result<Ty, RuleError>
    ensures { Gives (λ ty. ty) result (needed ty.now) }
{
    match ty {
        Ok(ty) => Ok(ty.copy()),
        Err(why) => Err(RuleError::Fault(Fault::Large(*why))),
    }
}

/// Types that have to be within the bounds, in order.
#[tactic(auto, unfolding(crate::specs::Applied::all_given))]
pub fn types_given(alloc: Global, mut given: &[Result<Ty, TooLarge>]) -> Result<Vec<Ty>, RuleError>
    ensures { Gives (λ types. types.items) result (needed (spec.all_given given.entry.now)) }
{
    let mut made = Vec::new(alloc);
    while let [ty, later @ ..] = given {
        made.push(within(ty)?)?;
        given = later;
    }
    Ok(made)
}

/// The rule applied to the context: its given types, its fresh variables and its assumed rows, in this order. A fault comes by the first
/// that is past a bound. After a fault the context has some first ones.
#[tactic(auto, unfolding(crate::specs::Applied::applied))]
pub fn apply(alloc: Global, rule: Rule, ctx: &mut Context) -> Result<Outcome, RuleError>
    requires { All (IsNamed (ctx.old.vars + rule.fresh)) rule.assumed }
    ensures { Gives (λ o. record { demands = o.demands; ctx = ctx.new; types = o.types }) result (spec.applied rule ctx.old) }
{
    let types = types_given(alloc, rule.given.as_slice())?;
    widen(ctx, rule.fresh)?;
    assume_all(ctx, rule.assumed.as_slice())?;
    Ok(Outcome {
        demands: rule.demands,
        types: Seq::from_vec(types),
    })
}
