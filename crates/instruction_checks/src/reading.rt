//! The places that an instruction reads and writes, and what it names.

ghost use Rattle.std.specs.Prelude.{◌≡◌, map, OnOk, All, IfOk, ◌==◌, Ok, slice_get};
ghost use Rattle.std.specs.List.{list_any};
ghost use Rattle.dtal_code.specs.Passing as spec;
ghost use Rattle.dtal_code.specs.Verdicts.{by_rule};
ghost use Rattle.instruction_checks.specs.Code.{Gives};
ghost use Rattle.instruction_checks.specs.Steps as steps;
ghost use Rattle.instruction_checks.specs.Views.{IsStanding, action_of};
ghost use Rattle.operation_rules.specs.Answers as rules;
ghost use Rattle.operation_rules.specs.Applied.{all_there, named};
ghost use Rattle.operation_rules.specs.Faults.{or_fault};
ghost use Rattle.operation_rules.specs.declared.error.Fault.TheVariants.{NoTarget, NoPlace};
ghost use Rattle.operation_rules.specs.Rules.{cell_at, tuple_at};
ghost use Rattle.operation_rules.specs.Settings.{setting_of};
ghost use Rattle.state_types.specs.PlaceTypes.{type_at};
ghost use Rattle.state_types.specs.Types.{TypeBelow};

use crate::action::Action;
use crate::asking::asks;
use crate::error::Broken;
use crate::site::Site;
use dtal_code::Rule;
use operation_rules::{Fault, Operation, RuleError, Setting};
use state_types::{Places, Signature, StateType, Ty, TypeTable};
use std::alloc::Global;
use xan_lin::Memory;

// The function is there.
fn function_there(sigs: &[Signature], fun: u32) -> Result<(), RuleError>
    ensures { rules.Gives (λ _. tt {0}) result (rules.and_then (or_fault NoTarget (slice_get sigs.now fun)) (λ _. Ok (tt {0}))) }
{
    match sigs.get(fun as usize) {
        Some(_) => Ok(()),
        None => Err(RuleError::Fault(Fault::NoTarget)),
    }
}

// The type is there.
#[tactic(auto, unfolding(operation_rules::specs::Rules::cell_at))]
fn cells_there(table: &TypeTable, number: u32) -> Result<(), RuleError>
    ensures { rules.Gives (λ _. tt {0}) result (rules.and_then (cell_at table.now number) (λ _. Ok (tt {0}))) }
{
    match table.get(number) {
        Some(_) => Ok(()),
        None => Err(RuleError::Fault(Fault::NoType)),
    }
}

// The type is there, and is a tuple type.
#[tactic(auto, unfolding(operation_rules::specs::Rules::tuple_at))]
fn tuple_there(table: &TypeTable, number: u32) -> Result<(), RuleError>
    ensures { rules.Gives (λ _. tt {0}) result (rules.and_then (tuple_at table.now number) (λ _. Ok (tt {0}))) }
{
    match table.get(number) {
        Some(packed) => {
            if packed.tuple {
                Ok(())
            } else {
                Err(RuleError::Fault(Fault::NoType))
            }
        }
        None => Err(RuleError::Fault(Fault::NoType)),
    }
}

// What the operation names is there.
#[tactic(auto, unfolding(operation_rules::specs::Applied::named))]
fn check_named(st: &Setting<'_>, op: &Operation) -> Result<(), RuleError>
    ensures { rules.Gives (λ _. tt) result (named (setting_of st.now) op.now) }
{
    match op {
        Operation::Call(fun) => function_there(st.sigs, *fun),
        Operation::New(cells) => cells_there(st.table, *cells),
        Operation::Tuple(number) | Operation::Untuple(number, _) => tuple_there(st.table, *number),
        _ => Ok(()),
    }
}

// Whether the place is one of these.
fn is_listed(place: u8, places: &[u8]) -> bool
    ensures { result ≡ list_any (λ other. place == other) places.now }
{
    places.iter().any(|other| place == *other)
}

// Whether no place stands twice.
#[tactic(auto, unfolding(dtal_code::specs::Passing::are_different))]
fn are_different(mut places: &[u8]) -> bool
    ensures { result ≡ spec.are_different places.entry.now }
{
    while let [place, later @ ..] = places {
        if is_listed(*place, later) {
            return false;
        }
        places = later;
    }
    true
}

// The type of a place that is read.
fn type_there(places: &Places, place: u8) -> Result<Ty, RuleError>
    ensures { rules.Gives (λ ty. ty) result (or_fault NoPlace (type_at place places.now)) }
{
    match places.get(u16::from(place)) {
        Some(ty) => Ok(ty.copy()),
        None => Err(RuleError::Fault(Fault::NoPlace)),
    }
}

// The types of places, one after the other.
#[tactic(auto, using(crate::proofs::PlacesTurns::there_more), unfolding(operation_rules::specs::Applied::all_there))]
fn types_there(alloc: Global, places: &Places, mut reads: &[u8]) -> Result<Vec<Ty>, RuleError>
    ensures { rules.Gives (λ types. types.items) result (all_there (map (λ place. type_at place places.now) reads.entry.now)) }
{
    let mut made = Vec::new(alloc);
    while let [place, later @ ..] = reads {
        made.push(type_there(places, *place)?)?;
        reads = later;
    }
    Ok(made)
}

/// The types of the places that an instruction reads.
#[tactic(auto, using(crate::proofs::VerdictParts::ruled_fails))]
pub(crate) fn present_types(
    site: &Site<'_>,
    action: &Action,
    state: &StateType,
) -> Result<Vec<Ty>, Broken>
    requires { IsStanding site.now.setting.own.now.vars state.now }
    ensures below { IfOk result (λ types. All (TypeBelow state.now.ctx.vars) types.items) }
    ensures types { Gives (λ types. types.items) result (by_rule (all_there (spec.read_types state.now action.now.reads.items))) }
{
    Ok(types_there(site.alloc, &state.places, action.reads.as_slice())?)
}

/// The same, once what it names is there and it writes no place twice.
#[tactic(auto, using(crate::proofs::VerdictParts::ruled_fails), unfolding(crate::specs::Steps::reads_by))]
pub(crate) fn read_types(
    site: &Site<'_>,
    action: &Action,
    state: &StateType,
) -> Result<Vec<Ty>, Broken>
    requires { IsStanding site.now.setting.own.now.vars state.now }
    ensures below { IfOk result (λ types. All (TypeBelow state.now.ctx.vars) types.items) }
    ensures types { Gives (λ types. types.items) result (steps.reads_by (setting_of site.now.setting) state.now (action_of action.now)) }
{
    check_named(&site.setting, &action.operation)?;
    asks(are_different(action.writes.as_slice()), Rule::Place)?;
    present_types(site, action, state)
}

/// The places have these types, one after the other.
#[tactic(auto, unfolding(dtal_code::specs::Passing::with_types))]
pub(crate) fn set_types(
    places: &mut Places,
    mut writes: &[u8],
    mut types: &[Ty],
) -> Result<(), Memory>
    ensures { OnOk result (places.new ≡ spec.with_types writes.entry.now types.entry.now places.old) }
{
    while let [place, later @ ..] = writes {
        let [ty, others @ ..] = types else {
            return Ok(());
        };
        places.set(u16::from(*place), ty.copy())?;
        writes = later;
        types = others;
    }
    Ok(())
}
