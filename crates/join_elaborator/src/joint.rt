//! The state that is stated where control flow meets.

ghost use Rattle.std.specs.Prelude.{◌≡◌, ◌+◌, ◌≤◌, [], true, length, IfOk};
ghost use Rattle.join_elaborator.specs.Changed.{changed_by};
ghost use Rattle.header_elaborator.specs.Code.{Gives};
ghost use Rattle.expression_elaborator.specs.Views.{site_of, state_of};
ghost use Rattle.join_elaborator.specs.JoinViews.{in_types, joint_of};
ghost use Rattle.state_types.specs.PlaceTypes.{PlacesRise};
ghost use Rattle.typed_core.specs.Joins as spec;
ghost use Rattle.typed_core.specs.States as states;
ghost use Rattle.typed_core.specs.Strays as strays;
ghost use Rattle.std.specs.List.{list_all};

use crate::changes::Blocks;
use crate::clauses::{
    count_of, first_of, first_past, leading, renamed_rows, rows_of, set_types, stated_of,
    stated_types,
};
use crate::renewing::renew;
use expression_elaborator::{Site, State, note_here};
use header_elaborator::{
    Exact, Failure, Stop, clause_rises, hold, push_variables, rows_below, values_rise,
};
use operation_rules::assume_all;
use state_types::{Places, StateType, Ty};
use std::alloc::Global;
use xan_lin::{Form, TooLarge};
use xanadu_tree::Clause;

/// What a way in has to give.
#[derive(Drop)]
pub struct Joint {
    /// The first of the clause's index variables.
    pub first: u32,
    /// How many they are.
    pub count: u32,
    /// The types that the clause states.
    pub wanted: Vec<(u16, Ty)>,
    /// Its rows before the first that is past the bounds.
    pub rows: Vec<Form>,
    /// Why that one is.
    pub past: Option<TooLarge>,
    /// The other variables that have a fresh index.
    pub others: Vec<u32>,
}

/// Rows that name present variables are taken to hold.
#[tactic(auto, using(header_elaborator::proofs::WalkParts::ruled_fails, header_elaborator::proofs::StrayTests::rows_named, expression_elaborator::proofs::ContextVariables::assumed_same), unfolding(typed_core::specs::States::assuming))]
fn assume_rows(rows: &[Exact<Form>], st: &mut State) -> Result<(), Stop>
    requires { list_all (strays.row_below st.old.ctx.vars) rows.now ≡ true }
    ensures assumed { Gives (λ _. state_of st.new) result (states.assuming rows.now (state_of st.old)) }
    ensures kept { IfOk result (λ _. st.new.ctx.vars ≡ st.old.ctx.vars) }
    ensures naming { st.new.naming.items ≡ st.old.naming.items }
{
    assume_all(&mut st.ctx, rows)?;
    Ok(())
}

/// The clause's rows, over the variables of the state, are taken to hold.
#[tactic(auto, using(header_elaborator::proofs::Lists::first_true, header_elaborator::proofs::Lists::second_true), unfolding(typed_core::specs::Joins::stating))]
fn state_rows(
    alloc: Global,
    own: u32,
    clause: &Option<Clause>,
    st: &mut State,
) -> Result<Vec<Exact<Form>>, Stop>
    ensures stated { Gives (λ rows. (rows.items, state_of st.new)) result
        (spec.stating st.old.naming.items own (spec.stated clause.now) (state_of st.old)) }
    ensures kept { IfOk result (λ _. st.new.ctx.vars ≡ st.old.ctx.vars) }
    ensures naming { IfOk result (λ _. strays.values_rise 0 st.new.naming.items ≡ true) }
    ensures types { IfOk result (λ _. list_all (λ s. strays.type_rises s.1) (spec.stated clause.now).vars ≡ true) }
{
    hold(values_rise(st.naming.as_slice()))?;
    hold(clause_rises(clause))?;
    let rows = renamed_rows(alloc, st.naming.as_slice(), own, rows_of(clause))?;
    hold(rows_below(rows.as_slice(), st.ctx.vars()))?;
    assume_rows(rows.as_slice(), st)?;
    Ok(rows)
}

/// The variables have the types that they keep, and those that the clause states.
fn set_places(types: Vec<(u16, Ty)>, wanted: &[(u16, Ty)], st: &mut State) -> Result<(), Failure>
    requires { PlacesRise 0 types.items }
    ensures set { IfOk result (λ _. state_of st.new ≡ in_types (spec.with_types wanted.now types.items) (state_of st.old)) }
    ensures kept { st.new.ctx ≡ st.old.ctx }
{
    st.places = Places::from_vec(types);
    set_types(&mut st.places, wanted)
}

/// The state that a clause and the changed variables make of what was known before, over all index variables so far.
#[tactic(auto, unfolding(typed_core::specs::Joins::joined))]
pub fn joined(
    site: &Site<'_>,
    clause: &Option<Clause>,
    blocks: &Blocks<'_>,
    before: &StateType,
    st: &mut State,
) -> Result<Joint, Stop>
    requires { before.now.ctx.vars ≤ st.old.ctx.vars }
    ensures joined { Gives (λ joint. (joint_of joint, state_of st.new)) result
        (spec.joined (site_of site.now) (spec.stated clause.now) (changed_by blocks.now) before.now (state_of st.old)) }
    ensures grown { IfOk result (λ _. st.old.ctx.vars ≤ st.new.ctx.vars) }
    ensures few { IfOk result (λ joint. (joint.first + joint.count) + length joint.others.items ≤ 1024) }
{
    let first = st.ctx.vars();
    let kept = renew(site.alloc, clause, blocks, before, st)?;
    push_variables(&mut st.naming, first_of(clause), first, count_of(clause))?;
    let rows = state_rows(site.alloc, site.setting.own.vars, clause, st)?;
    let wanted = stated_types(
        site.alloc,
        st.naming.as_slice(),
        site.setting.own.vars,
        stated_of(clause),
    )?;
    set_places(kept.types, wanted.as_slice(), st)?;
    note_here(st)?;
    Ok(Joint {
        first,
        count: count_of(clause),
        wanted,
        rows: leading(site.alloc, rows.as_slice())?,
        past: first_past(rows.as_slice()),
        others: kept.others,
    })
}
