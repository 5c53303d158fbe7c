//! Rules of arrays.

ghost use Rattle.std.specs.Prelude.{◌≡◌, ◌++◌, ◌≤◌, [], ◌∷◌, Ok, All, IfOk};
ghost use Rattle.operation_rules.specs.Answers.{Gives, and_then};
ghost use Rattle.operation_rules.specs.Faults.{needed};
ghost use Rattle.operation_rules.specs.Rules as spec;
ghost use Rattle.operation_rules.specs.Settings.{HasFew, setting_of};
ghost use Rattle.xan_lin.specs.Linear.{excess_of};

use crate::closed_types::{cell_at, matching_packed, of_kinds};
use crate::error::RuleError;
use crate::opening::opens;
use crate::operands::{as_array, as_number, one_type, three_types, two_types};
use crate::rule::{Rule, gives_nothing, gives_type, single};
use crate::setting::Setting;
use state_types::{Ty, TypeId};
use std::alloc::Global;
use xan_lin::{Form, Memory};
use xan_seq::Seq;

// An index is within a length.
fn bounds(alloc: Global, len: &Form, index: Form) -> Result<Vec<Form>, RuleError>
    ensures { Gives (λ rows. rows.items) result (and_then (needed (excess_of len.now index)) (λ below. Ok (index ∷ below ∷ []))) }
{
    let below = len.excess_row(&index)?;
    let mut rows = Vec::new(alloc);
    rows.push(index)?;
    rows.push(below)?;
    Ok(rows)
}

// The rows with more behind them.
fn joined(mut rows: Vec<Form>, more: &[Form]) -> Result<Vec<Form>, Memory>
    ensures { IfOk result (λ all. all.items ≡ rows.items ++ more.now) }
{
    for row in more {
        let Ok(()) = rows.push(row.copy()) else {
            return Err(Memory);
        };
    }
    Ok(rows)
}

/// The length of an array, which is at least 0.
#[tactic(auto, unfolding(crate::specs::Rules::measured))]
pub(crate) fn measured(alloc: Global, types: &[Ty]) -> Result<Rule, RuleError>
    ensures { Gives (λ rule. rule) result (spec.measured types.now) }
{
    let ty = one_type(types)?;
    let (_, len) = as_array(ty)?;
    let assumed = single(alloc, Ok(len.copy()))?;
    let given = single(alloc, Ok(Ty::Int(len)))?;
    Ok(Rule {
        demands: Seq::from_vec(Vec::new(alloc)),
        fresh: 0,
        assumed: Seq::from_vec(assumed),
        given: Seq::from_vec(given),
    })
}

/// A cell of an array.
#[tactic(auto, unfolding(crate::specs::Rules::loaded))]
pub(crate) fn loaded(
    alloc: Global,
    st: &Setting<'_>,
    types: &[Ty],
    first: u32,
) -> Result<Rule, RuleError>
    requires few { HasFew (setting_of st.now) }
    requires room { first ≤ 1024 }
    ensures { Gives (λ rule. rule) result (spec.loaded (setting_of st.now) first types.now) }
{
    let (array, index) = two_types(types)?;
    let (element, len) = as_array(array)?;
    let index = as_number(index)?;
    let demands = bounds(alloc, &len, index)?;
    let packed = cell_at(alloc, st.table, element)?;
    Ok(opens(alloc, first, demands, &packed)?)
}

/// A cell of an array is written.
#[tactic(auto, unfolding(crate::specs::Rules::stored))]
pub(crate) fn stored(alloc: Global, st: &Setting<'_>, types: &[Ty]) -> Result<Rule, RuleError>
    requires { HasFew (setting_of st.now) }
    ensures { Gives (λ rule. rule) result (spec.stored (setting_of st.now) types.now) }
{
    let (array, index, value) = three_types(types)?;
    let (element, len) = as_array(array)?;
    let index = as_number(index)?;
    let packed = cell_at(alloc, st.table, element)?;
    let value = single(alloc, value)?;
    of_kinds(packed.parts.as_slice(), value.as_slice())?;
    let rows = bounds(alloc, &len, index)?;
    let found = matching_packed(alloc, &packed, value.as_slice())?;
    let demands = joined(rows, found.rows.as_slice())?;
    Ok(gives_nothing(alloc, demands))
}

/// An array of so many cells with this value.
#[tactic(auto, unfolding(crate::specs::Rules::allocated))]
pub(crate) fn allocated(
    alloc: Global,
    st: &Setting<'_>,
    cells: TypeId,
    types: &[Ty],
) -> Result<Rule, RuleError>
    requires { HasFew (setting_of st.now) }
    ensures { Gives (λ rule. rule) result (spec.allocated (setting_of st.now) cells types.now) }
{
    let packed = cell_at(alloc, st.table, cells)?;
    let (len, fill) = two_types(types)?;
    let len = as_number(len)?;
    let fill = single(alloc, fill)?;
    let found = matching_packed(alloc, &packed, fill.as_slice())?;
    let front = single(alloc, len.copy())?;
    let demands = joined(front, found.rows.as_slice())?;
    Ok(gives_type(alloc, demands, Ty::Array(cells, len))?)
}
