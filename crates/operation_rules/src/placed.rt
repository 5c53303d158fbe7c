//! An operation over places.

ghost use Rattle.std.specs.Prelude.{◌≡◌, ◌≤◌, All};
ghost use Rattle.operation_rules.specs.Answers.{Gives};
ghost use Rattle.operation_rules.specs.Applied as spec;
ghost use Rattle.operation_rules.specs.Faults.{NoPlace, or_fault};
ghost use Rattle.operation_rules.specs.Named.{PlaceBelow};
ghost use Rattle.operation_rules.specs.Settings.{HasFew, setting_of};
ghost use Rattle.operation_rules.specs.Sound.{IsSetting};

use crate::applying::{Outcome, apply};
use crate::calls::signature_at;
use crate::closed_types::{closed_at, tuple_at};
use crate::error::{Fault, RuleError};
use crate::operation::Operation;
use crate::rules::rule_of;
use crate::setting::Setting;
use index_sorts::Context;
use state_types::Ty;
use std::alloc::Global;

// What an operation names is there.
#[tactic(auto, unfolding(crate::specs::Applied::named, crate::specs::Rules::cell_at))]
fn named(st: &Setting<'_>, op: &Operation) -> Result<(), RuleError>
    requires { HasFew (setting_of st.now) }
    ensures { Gives (λ _. tt) result (spec.named (setting_of st.now) op.now) }
{
    match op {
        Operation::Call(fun) => {
            signature_at(st.sigs, *fun)?;
        }
        Operation::New(cells) => {
            closed_at(st.table, *cells)?;
        }
        Operation::Tuple(number) | Operation::Untuple(number, _) => {
            tuple_at(st.table, *number)?;
        }
        _ => {}
    }
    Ok(())
}

// The type of a place that is read.
fn type_there(place: &Option<Ty>) -> Result<Ty, RuleError>
    ensures { Gives (λ ty. ty) result (or_fault NoPlace place.now) }
{
    match place {
        Some(ty) => Ok(ty.copy()),
        None => Err(RuleError::Fault(Fault::NoPlace)),
    }
}

// The types of the places that are read.
#[tactic(auto, unfolding(crate::specs::Applied::all_there))]
fn all_there(alloc: Global, mut places: &[Option<Ty>]) -> Result<Vec<Ty>, RuleError>
    ensures { Gives (λ types. types.items) result (spec.all_there places.entry.now) }
{
    let mut made = Vec::new(alloc);
    while let [place, later @ ..] = places {
        made.push(type_there(place)?)?;
        places = later;
    }
    Ok(made)
}

/// The operation over the types of the places that it reads, in a context: what it names is looked up, then the places, then its rule is
/// applied. The fault is the first by this order. After a fault the context may have some fresh variables and rows.
#[tactic(auto, using(crate::proofs::PlacesRead::ruled_named), unfolding(crate::specs::Applied::ruled))]
pub fn ruled(
    alloc: Global,
    st: &Setting<'_>,
    op: &Operation,
    places: &[Option<Ty>],
    ctx: &mut Context,
) -> Result<Outcome, RuleError>
    requires few { HasFew (setting_of st.now) }
    requires setting { IsSetting (setting_of st.now) }
    requires below { All (PlaceBelow ctx.old.vars) places.now }
    ensures { Gives (λ o. record { demands = o.demands; ctx = ctx.new; types = o.types }) result (spec.ruled (setting_of st.now) op.now places.now ctx.old) }
{
    named(st, op)?;
    let types = all_there(alloc, places)?;
    let rule = rule_of(alloc, st, op, types.as_slice(), ctx.vars())?;
    apply(alloc, rule, ctx)
}
