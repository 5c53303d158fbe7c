//! Rules of tuples.

ghost use Rattle.std.specs.Prelude.{◌≡◌, ◌≤◌};
ghost use Rattle.operation_rules.specs.Answers.{Gives};
ghost use Rattle.operation_rules.specs.Rules as spec;
ghost use Rattle.operation_rules.specs.Settings.{HasFew, setting_of};

use crate::closed_types::{as_many, matching_packed, tuple_at};
use crate::error::RuleError;
use crate::opening::opens;
use crate::operands::{as_tuple, one_type};
use crate::rule::{Rule, gives_type};
use crate::setting::Setting;
use state_types::{Ty, TypeId};
use std::alloc::Global;

/// A tuple of parts of these types.
#[tactic(auto, unfolding(crate::specs::Rules::constructed))]
pub(crate) fn constructed(
    alloc: Global,
    st: &Setting<'_>,
    number: TypeId,
    types: &[Ty],
) -> Result<Rule, RuleError>
    requires { HasFew (setting_of st.now) }
    ensures { Gives (λ rule. rule) result (spec.constructed (setting_of st.now) number types.now) }
{
    let packed = tuple_at(st.table, number)?;
    let found = matching_packed(alloc, packed, types)?;
    Ok(gives_type(alloc, found.rows.into_vec(), Ty::Named(number))?)
}

/// The parts of a tuple.
#[tactic(auto, unfolding(crate::specs::Rules::split))]
pub(crate) fn split(
    alloc: Global,
    st: &Setting<'_>,
    first: u32,
    number: TypeId,
    count: u32,
    types: &[Ty],
) -> Result<Rule, RuleError>
    requires few { HasFew (setting_of st.now) }
    requires room { first ≤ 1024 }
    ensures { Gives (λ rule. rule) result (spec.split (setting_of st.now) first number count types.now) }
{
    let packed = tuple_at(st.table, number)?;
    let ty = one_type(types)?;
    as_many(packed.parts.as_slice().len(), count)?;
    as_tuple(number, &ty)?;
    Ok(opens(alloc, first, Vec::new(alloc), packed)?)
}
