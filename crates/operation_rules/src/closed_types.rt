//! Closed types by their numbers, and matches with their parts.

ghost use Rattle.std.specs.Prelude.{◌≡◌, ◌<◌, ◌≤◌, [], ◌∷◌, false, All, IfOk, slice_get};
ghost use Rattle.operation_rules.specs.Answers.{Gives};
ghost use Rattle.operation_rules.specs.Faults.{NoType, or_fault};
ghost use Rattle.operation_rules.specs.Rules as spec;
ghost use Rattle.state_types.specs.Tables.{IsClosed};
ghost use Rattle.state_types.specs.declared.types.Ty.TheVariants as ty;
ghost use Rattle.xan_lin.specs.Subst.{VariablesRise};

use crate::error::{Fault, RuleError};
use crate::rule::single;
use state_types::{Found, Packed, Ty, TypeId, TypeTable, match_types};
use std::alloc::Global;
use xan_lin::{Form, Memory};
use xan_seq::Seq;

/// The closed type of this number.
#[tactic(auto, using(crate::proofs::BlocksFound::item_few))]
pub(crate) fn closed_at(table: &TypeTable, number: TypeId) -> Result<&Packed, RuleError>
    requires { All (λ packed. packed.vars ≤ 1024) table.now }
    ensures found { Gives (λ packed. packed.now) result (or_fault NoType (slice_get table.now number)) }
    ensures closed { IfOk result (λ packed. IsClosed packed.now) }
    ensures few { IfOk result (λ packed. packed.now.vars ≤ 1024) }
{
    match table.get(number) {
        Some(packed) => Ok(packed),
        None => Err(RuleError::Fault(Fault::NoType)),
    }
}

/// The tuple type of this number.
#[tactic(auto, unfolding(crate::specs::Rules::tuple_at))]
pub(crate) fn tuple_at(table: &TypeTable, number: TypeId) -> Result<&Packed, RuleError>
    requires { All (λ packed. packed.vars ≤ 1024) table.now }
    ensures found { Gives (λ packed. packed.now) result (spec.tuple_at table.now number) }
    ensures closed { IfOk result (λ packed. IsClosed packed.now) }
    ensures few { IfOk result (λ packed. packed.now.vars ≤ 1024) }
{
    let packed = closed_at(table, number)?;
    if !packed.tuple {
        return Err(RuleError::Fault(Fault::NoType));
    }
    Ok(packed)
}

// The closed type of cells that are tuples of this type.
fn tuple_cell(alloc: Global, number: TypeId) -> Result<Packed, Memory>
    ensures made { IfOk result (λ packed. packed ≡ record { vars = 0; rows = []; parts = ty.Named number ∷ []; tuple = false }) }
    ensures closed { IfOk result (λ packed. IsClosed packed) }
{
    Ok(Packed {
        vars: 0,
        rows: Seq::from_vec(Vec::new(alloc)),
        parts: Seq::from_vec(single(alloc, Ty::Named(number))?),
        tuple: false,
    })
}

/// What the cells of an array of this type hold: a tuple itself, or the one part of a cell type.
#[tactic(auto, unfolding(crate::specs::Rules::cell_at))]
pub(crate) fn cell_at(alloc: Global, table: &TypeTable, number: TypeId) -> Result<Packed, RuleError>
    requires { All (λ packed. packed.vars ≤ 1024) table.now }
    ensures found { Gives (λ packed. packed) result (spec.cell_at table.now number) }
    ensures closed { IfOk result (λ packed. IsClosed packed) }
    ensures few { IfOk result (λ packed. packed.vars ≤ 1024) }
{
    let packed = closed_at(table, number)?;
    if packed.tuple {
        return Ok(tuple_cell(alloc, number)?);
    }
    Ok(packed.copy(alloc)?)
}

/// A match of as many types.
#[tactic(auto, using(crate::proofs::BlocksFound::match_listed), unfolding(crate::specs::Rules::matching))]
pub(crate) fn matching(
    alloc: Global,
    below: u32,
    vars: u32,
    rows: &[Form],
    wanted: &[Ty],
    actual: &[Ty],
) -> Result<Found, RuleError>
    ensures found { Gives (λ found. found) result (spec.matching below vars rows.now wanted.now actual.now) }
    ensures rising { IfOk result (λ found. VariablesRise 0 found.values) }
    ensures listed { IfOk result (λ found. All (λ v. v.0 < vars) found.values) }
{
    if wanted.len() != actual.len() {
        return Err(RuleError::Fault(Fault::WrongCount));
    }
    Ok(match_types(alloc, below, vars, rows, wanted, actual)?)
}

/// A match with a closed type's parts.
pub(crate) fn matching_packed(
    alloc: Global,
    packed: &Packed,
    types: &[Ty],
) -> Result<Found, RuleError>
    ensures { Gives (λ found. found) result (spec.matching_packed packed.now types.now) }
{
    matching(
        alloc,
        0,
        packed.vars,
        packed.rows.as_slice(),
        packed.parts.as_slice(),
        types,
    )
}

/// Types of the kinds that are wanted, before any form is looked at.
#[tactic(auto, unfolding(crate::specs::Rules::of_kinds))]
pub(crate) fn of_kinds(mut wanted: &[Ty], mut actual: &[Ty]) -> Result<(), RuleError>
    ensures { Gives (λ _. tt) result (spec.of_kinds wanted.entry.now actual.entry.now) }
{
    while let [first, later @ ..] = wanted {
        let [present, others @ ..] = actual else {
            return Err(RuleError::Fault(Fault::WrongCount));
        };
        if !first.is_like(present) {
            return Err(RuleError::Fault(Fault::WrongKind));
        }
        wanted = later;
        actual = others;
    }
    let [] = actual else {
        return Err(RuleError::Fault(Fault::WrongCount));
    };
    Ok(())
}

/// So many, as is wanted.
pub(crate) fn as_many(wanted: usize, actual: u32) -> Result<(), RuleError>
    ensures { Gives (λ _. tt) result (spec.as_many wanted actual) }
{
    if wanted == actual as usize {
        Ok(())
    } else {
        Err(RuleError::Fault(Fault::WrongCount))
    }
}
