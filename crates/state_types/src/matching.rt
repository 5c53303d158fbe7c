//! Matches of wanted types with present ones.

ghost use Rattle.std.specs.Prelude.{◌≡◌, ◌<◌, length, IfOk};
ghost use Rattle.xan_lin.specs.Subst.{VariablesRise};
ghost use Rattle.state_types.specs.Answers.{Gives};
ghost use Rattle.state_types.specs.Matching as spec;
ghost use Rattle.state_types.specs.Tables.{closed_at};

use crate::closed::Signature;
use crate::error::StateError;
use crate::pairs::{Pair, pairs_of};
use crate::rows::demanded;
use crate::table::TypeTable;
use crate::types::{Ty, TypeId};
use crate::values::values_for;
use std::alloc::Global;
use xan_lin::Form;
use xan_seq::Seq;

/// What a match finds.
#[derive(Drop)]
pub struct Found {
    /// The value of each quantified variable, by rising variable.
    pub values: Seq<(u32, Form)>,
    /// The demanded rows, in order.
    pub rows: Seq<Form>,
}

// The values, and the rows that they demand.
#[tactic(auto, unfolding(crate::specs::Matching::found_with))]
fn found_with(
    alloc: Global,
    values: Vec<(u32, Form)>,
    below: u32,
    pairs: &[Pair],
    rows: &[Form],
) -> Result<Found, StateError>
    requires { VariablesRise 0 values.items }
    ensures found { Gives (λ found. found) result (spec.found_with values.items below pairs.now rows.now) }
    ensures rising { IfOk result (λ found. VariablesRise 0 found.values) }
{
    let all = demanded(alloc, values.as_slice(), below, pairs, rows)?;
    Ok(Found {
        values: Seq::from_vec(values),
        rows: Seq::from_vec(all),
    })
}

/// The match of as many wanted types with present ones, where the variables from `below` to `vars` are quantified and those less than
/// `below` stay what they are, as at a result, which may name its function's variables. The value of a quantified variable is the index
/// of the first present type, in order, whose wanted index is that variable alone, or 0 where there is none. The demanded rows are: type
/// by type, where the wanted index with these values differs from the present one, wanted less present and present less wanted; then
/// `rows` with these values. `Kind` comes exactly where some kinds differ, with the first such number, from 0. `Large` comes exactly
/// where none does and a wanted index with the values, a difference or a row is past the bounds of a form, by the first of these.
#[tactic(auto, unfolding(crate::specs::Matching::matched))]
pub fn match_types(
    alloc: Global,
    below: u32,
    vars: u32,
    rows: &[Form],
    wanted: &[Ty],
    actual: &[Ty],
) -> Result<Found, StateError>
    requires { length wanted.now ≡ length actual.now }
    ensures found { Gives (λ found. found) result (spec.matched below vars rows.now wanted.now actual.now) }
    ensures rising { IfOk result (λ found. VariablesRise 0 found.values) }
{
    let pairs = pairs_of(alloc, wanted, actual)?;
    let values = values_for(alloc, below, vars, pairs.as_slice())?;
    found_with(alloc, values, below, pairs.as_slice(), rows)
}

/// The match of a signature's parameters with as many types: the values of its variables, and the rows that a call demands. The refusals
/// are those of [`match_types`].
pub fn match_params(alloc: Global, sig: &Signature, actual: &[Ty]) -> Result<Found, StateError>
    requires { length sig.now.params ≡ length actual.now }
    ensures found { Gives (λ found. found) result (spec.matched 0 sig.now.vars sig.now.rows sig.now.params actual.now) }
    ensures rising { IfOk result (λ found. VariablesRise 0 found.values) }
{
    match_types(
        alloc,
        0,
        sig.vars,
        sig.rows.as_slice(),
        sig.params.as_slice(),
        actual,
    )
}

/// The match of a closed type's parts with as many types: the values of its variables, and the rows that a constructor or a store
/// demands. The type is in the table. The refusals are those of [`match_types`].
pub fn pack_goals(
    alloc: Global,
    table: &TypeTable,
    id: TypeId,
    actual: &[Ty],
) -> Result<Found, StateError>
    requires there { id < length table.now }
    requires parts { length (closed_at table.now id).parts ≡ length actual.now }
    ensures found { let packed = closed_at table.now id in
        Gives (λ found. found) result (spec.matched 0 packed.vars packed.rows packed.parts actual.now) }
    ensures rising { IfOk result (λ found. VariablesRise 0 found.values) }
{
    let packed = table.at(id);
    match_types(
        alloc,
        0,
        packed.vars,
        packed.rows.as_slice(),
        packed.parts.as_slice(),
        actual,
    )
}
