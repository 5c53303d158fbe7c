//! The types that a program writes.

ghost use Rattle.std.specs.Prelude.{◌≡◌, ◌≤◌, ◌<◌, ◌&&◌, ◌∷◌, ◌++◌, [], length, All, IfOk, OnOk};
ghost use Rattle.dtal_code.specs.Declarations as spec;
ghost use Rattle.dtal_code.specs.Refusing.{types_walked};
ghost use Rattle.dtal_code.specs.Verdicts.{at_place};
ghost use Rattle.dtal_code.specs.declared.refusal.Where.TheVariants as where_is;
ghost use Rattle.dtal_verifier.specs.Code.{Passes};
ghost use Rattle.dtal_verifier.specs.Views.{table_with};
ghost use Rattle.instruction_checks.specs.Code.{Gives};
ghost use Rattle.state_types.specs.Tables.{IsClosed};

use crate::alone::are_alone;
use crate::error::{VerifyError, locate};
use crate::presence::types_exist;
use dtal_code::{Rule, Where};
use instruction_checks::{Broken, asks, rows_below, types_below};
use state_types::{Packed, TypeTable};
use std::alloc::Global;
use xan_lin::{Form, Memory};

// The most variables of a context.
const MOST_VARIABLES: u32 = 1024;

// The most rows of a context, and of a list of rows.
const MOST_ROWS: usize = 512;

/// Whether so many variables and these rows, all of them counted, are no more than a context has.
pub(crate) fn are_few(vars: u32, rows: &[Form]) -> bool
    ensures { result ≡ spec.are_few vars rows.now }
{
    vars <= MOST_VARIABLES && rows.len() <= MOST_ROWS
}

// Whether the type names only its own variables.
fn names_own(packed: &Packed) -> bool
    ensures { result ≡ (spec.rows_are_below packed.now.vars packed.now.rows && spec.types_are_below packed.now.vars packed.now.parts) }
{
    let vars = u64::from(packed.vars);
    rows_below(packed.rows.as_slice(), vars) && types_below(packed.parts.as_slice(), vars)
}

// What is asked of a written type.
#[tactic(auto, unfolding(dtal_code::specs::Declarations::packed_verdict))]
fn check_type(types: &[Packed], packed: &Packed) -> Result<(), Broken>
    ensures { Gives (λ _. tt) result (spec.packed_verdict (table_with types.now) packed.now) }
{
    let parts = packed.parts.as_slice();
    asks(types_exist(types, parts), Rule::NoType)?;
    asks(are_alone(0, packed.vars, parts), Rule::Alone)?;
    asks(names_own(packed), Rule::Form)?;
    asks(are_few(packed.vars, packed.rows.as_slice()), Rule::Size)
}

// The same, told with the type's number.
#[tactic(auto, using(crate::proofs::RefusedPlaces::place_fails))]
fn check_type_at(types: &[Packed], packed: &Packed, number: u32) -> Result<(), VerifyError>
    ensures { Passes (λ _. tt) result (at_place (where_is.Types number) (spec.packed_verdict (table_with types.now) packed.now)) }
{
    match check_type(types, packed) {
        Ok(()) => Ok(()),
        Err(broken) => Err(locate(broken, Where::Types(number))),
    }
}

/// What is asked of all written types.
#[tactic(auto, unfolding(dtal_code::specs::Refusing::types_walked))]
pub(crate) fn check_types(types: &[Packed]) -> Result<(), VerifyError>
    requires { length types.now ≤ 65534 }
    ensures { Passes (λ _. tt) result (types_walked (table_with types.now) 2 types.now) }
{
    let mut left = types;
    let mut number = 2u32;
    while let [packed, later @ ..] = left {
        check_type_at(types, packed, number)?;
        number += 1;
        left = later;
    }
    Ok(())
}

// The table with one more type.
fn add_type(alloc: Global, table: &mut TypeTable, packed: &Packed) -> Result<(), Memory>
    requires few { length table.old < 65536 }
    requires closed { IsClosed packed.now }
    ensures { OnOk result (table.new ≡ table.old ++ packed.now ∷ []) }
{
    let copy = packed.copy(alloc)?;
    table.add(copy)?;
    Ok(())
}

/// The table of the types that a program writes.
pub(crate) fn table_of(alloc: Global, types: &[Packed]) -> Result<TypeTable, Memory>
    requires few { length types.now ≤ 65534 }
    requires closed { All IsClosed types.now }
    ensures { IfOk result (λ table. table ≡ table_with types.now) }
{
    let mut table = TypeTable::new(alloc)?;
    for packed in types {
        add_type(alloc, &mut table, packed)?;
    }
    Ok(table)
}
