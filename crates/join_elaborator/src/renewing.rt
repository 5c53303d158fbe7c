//! The types that were known before, where changed variables have fresh indices.

ghost use Rattle.std.specs.Prelude.{◌≡◌, ◌+◌, ◌≤◌, [], true, false, length, IfErr, IfOk, Ok};
ghost use Rattle.join_elaborator.specs.Changed.{changed_by, is_marked};
ghost use Rattle.header_elaborator.specs.Code.{Gives};
ghost use Rattle.expression_elaborator.specs.Views.{state_of};
ghost use Rattle.join_elaborator.specs.JoinViews.{IsMany, renewed_of};
ghost use Rattle.state_types.specs.PlaceTypes.{PlacesRise};
ghost use Rattle.typed_core.specs.Joins as spec;
ghost use Rattle.typed_core.specs.States as states;

use crate::changes::{Blocks, has_mark, is_named, marks_of};
use crate::clauses::{count_of, stated_of};
use expression_elaborator::{State, place_of};
use header_elaborator::{Failure, Stop, has_index, with_index};
use state_types::{StateType, Ty};
use std::alloc::Global;
use xan_lin::{Form, LimitKind};
use xanadu_tree::{Clause, CoreTy};

/// The types of variables, and those among them that have a fresh variable as their index.
#[derive(Drop)]
pub(crate) struct Renewed {
    pub(crate) types: Vec<(u16, Ty)>,
    pub(crate) others: Vec<u32>,
}

/// Each of these variables has a place, so that they are few.
#[tactic(auto, unfolding(typed_core::specs::Joins::few_places))]
fn few_places(mut entries: &[(u16, Ty)]) -> Result<(), Stop>
    ensures { Gives (λ _. tt) result (spec.few_places entries.entry.now) }
{
    while let [entry, later @ ..] = entries {
        let _place = place_of(u32::from(entry.0))?;
        entries = later;
    }
    Ok(())
}

/// Whether the clause says nothing of the variable, it is marked as changed, and its type has an index.
fn is_renewed(marks: &[bool], stated: &[(u32, CoreTy)], entry: &(u16, Ty)) -> bool
    ensures { result ≡ spec.is_renewed (is_marked marks.now) stated.now entry.now }
{
    has_index(&entry.1) && has_mark(marks, entry.0) && !is_named(u32::from(entry.0), stated)
}

impl Renewed {
    /// A variable that keeps its type.
    fn keep(&mut self, entry: &(u16, Ty)) -> Result<(), Failure>
        ensures { IfOk result (λ _. renewed_of self.new ≡ spec.with_entry false 0 entry.now (renewed_of self.old)) }
    {
        self.types.push((entry.0, entry.1.copy()))?;
        Ok(())
    }

    /// A variable with a fresh index.
    fn renew(&mut self, first: u32, entry: &(u16, Ty)) -> Result<(), Failure>
        requires few { length self.old.others.items ≤ 240 }
        requires first { first ≤ 2048 }
        ensures { IfOk result (λ _. renewed_of self.new ≡ spec.with_entry true first entry.now (renewed_of self.old)) }
    {
        let index = Form::variable(first + self.others.len() as u32);
        self.types.push((entry.0, with_index(&entry.1, index)))?;
        self.others.push(u32::from(entry.0))?;
        Ok(())
    }
}

/// The types before, where each variable that is marked, and of which the clause says nothing, has a fresh index.
#[tactic(auto, unfolding(typed_core::specs::Joins::renewed))]
fn renew_marked(
    alloc: Global,
    marks: &[bool],
    stated: &[(u32, CoreTy)],
    first: u32,
    mut entries: &[(u16, Ty)],
) -> Result<Renewed, Failure>
    requires few { length entries.now ≤ 240 }
    requires first { first ≤ 2048 }
    ensures { IfOk result (λ made.
        renewed_of made ≡ spec.renewed (is_marked marks.now) stated.now first entries.entry.now (record { types = []; others = [] })) }
{
    let mut made = Renewed {
        types: Vec::new(alloc),
        others: Vec::new(alloc),
    };
    while let [entry, later @ ..] = entries {
        if is_renewed(marks, stated, entry) {
            made.renew(first, entry)?;
        } else {
            made.keep(entry)?;
        }
        entries = later;
    }
    Ok(made)
}

/// The same for variables that have places, where the blocks change them.
#[tactic(auto, using(crate::proofs::RenewedMarks::renewed_by_marks))]
fn renew_all(
    alloc: Global,
    blocks: &Blocks<'_>,
    stated: &[(u32, CoreTy)],
    first: u32,
    entries: &[(u16, Ty)],
) -> Result<Renewed, Failure>
    requires few { length entries.now ≤ 240 }
    requires placed { spec.few_places entries.now ≡ Ok tt }
    requires first { first ≤ 2048 }
    ensures { IfOk result (λ made.
        renewed_of made ≡ spec.renewed (changed_by blocks.now) stated.now first entries.now (record { types = []; others = [] })) }
{
    let marks = marks_of(blocks);
    renew_marked(alloc, &marks, stated, first, entries)
}

/// So many variables, and one for each other variable, are fresh.
fn add_fresh(count: u32, others: usize, st: &mut State) -> Result<(), Stop>
    ensures moved { Gives (λ _. state_of st.new) result (states.with_fresh (count + others) (state_of st.old)) }
    ensures more { IfOk result (λ _. st.new.ctx.vars ≡ st.old.ctx.vars + (count + others)) }
    ensures few { IfOk result (λ _. st.new.ctx.vars ≤ 1024) }
{
    let Ok(others) = u32::try_from(others) else {
        return Err(Stop::Past(LimitKind::Variables));
    };
    let Some(all) = count.checked_add(others) else {
        return Err(Stop::Past(LimitKind::Variables));
    };
    st.fresh(all)?;
    // (a context never has more variables than it can have)
    let _few = st.ctx.vars();
    Ok(())
}

/// The variable behind those of the clause, where these are few enough.
fn behind_clause(first: u32, count: u32) -> Result<u32, Stop>
    requires { first ≤ 1024 }
    ensures next { IfOk result (λ next. (next ≡ first + count) × (next ≤ 2048)) }
    ensures many { IfErr result (λ why. IsMany count why) }
{
    if count > 1024 {
        return Err(Stop::Past(LimitKind::Variables));
    }
    Ok(first + count)
}

/// The types before with fresh indices for the changed variables, and the state with all fresh variables.
#[tactic(auto, unfolding(typed_core::specs::Joins::renewing))]
pub(crate) fn renew(
    alloc: Global,
    clause: &Option<Clause>,
    blocks: &Blocks<'_>,
    before: &StateType,
    st: &mut State,
) -> Result<Renewed, Stop>
    requires { before.now.ctx.vars ≤ st.old.ctx.vars }
    ensures renewed { Gives (λ made. (renewed_of made, state_of st.new)) result
        (spec.renewing (spec.stated clause.now) (changed_by blocks.now) before.now (state_of st.old)) }
    ensures rising { IfOk result (λ made. PlacesRise 0 made.types.items) }
    ensures more { IfOk result (λ made. st.new.ctx.vars ≡ st.old.ctx.vars + ((spec.stated clause.now).quant.count + length made.others.items)) }
    ensures few { IfOk result (λ _. st.new.ctx.vars ≤ 1024) }
{
    few_places(before.places.entries())?;
    let next = behind_clause(st.ctx.vars(), count_of(clause))?;
    let made = renew_all(
        alloc,
        blocks,
        stated_of(clause),
        next,
        before.places.entries(),
    )?;
    st.resume(&before.ctx, &before.places)?;
    add_fresh(count_of(clause), made.others.len(), st)?;
    Ok(made)
}
