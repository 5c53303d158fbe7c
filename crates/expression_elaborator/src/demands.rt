//! Demands: rows that are no goals because they are known, goals, and notes of both.

ghost use Rattle.std.specs.Prelude.{◌≡◌, ◌≤◌, [], length, IfOk};
ghost use Rattle.expression_elaborator.specs.Views.{site_of, state_of};
ghost use Rattle.index_sorts.specs.Known.{knows};
ghost use Rattle.typed_core.specs.Constructs.{asking};
ghost use Rattle.typed_core.specs.States as spec;

use crate::state::{Site, State, over};
use header_elaborator::Failure;
use index_sorts::Context;
use state_types::StateType;
use typed_core::{GoalAt, Note};
use xan_lin::Form;
use xan_seq::Seq;

/// The number of the goal that comes next. A number past 32 bits is as want of memory.
fn next_number(goals: &[GoalAt]) -> Result<u32, Failure>
    ensures { IfOk result (λ number. number ≡ length goals.now) }
{
    match u32::try_from(goals.len()) {
        Ok(number) => Ok(number),
        Err(_) => Err(Failure),
    }
}

/// A demanded row is a goal, unless it is known.
fn ask(
    site: &Site<'_>,
    at: u32,
    ctx: &Context,
    row: &Form,
    goals: &mut Vec<GoalAt>,
    numbers: &mut Vec<u32>,
) -> Result<(), Failure>
    ensures { IfOk result (λ _.
        spec.asked (knows ctx.now row.now) (record { fun = site.now.fun; at = at; ctx = ctx.now; row = row.now })
        (record { goals = goals.old.items; numbers = numbers.old.items })
        ≡ record { goals = goals.new.items; numbers = numbers.new.items }) }
{
    if ctx.knows(row) {
        return Ok(());
    }
    numbers.push(next_number(goals.as_slice())?)?;
    goals.push(GoalAt {
        fun: site.fun,
        at,
        ctx: ctx.copy()?,
        row: row.copy(),
    })?;
    Ok(())
}

/// The goals among demanded rows go behind the others; their numbers.
#[tactic(auto, unfolding(typed_core::specs::States::all_asked))]
pub fn ask_all(
    site: &Site<'_>,
    at: u32,
    ctx: &Context,
    mut rows: &[Form],
    goals: &mut Vec<GoalAt>,
) -> Result<Vec<u32>, Failure>
    ensures { IfOk result (λ numbers.
        spec.all_asked (site_of site.now) at ctx.now rows.entry.now (record { goals = goals.old.items; numbers = [] })
        ≡ record { goals = goals.new.items; numbers = numbers.items }) }
{
    let mut numbers = Vec::new(site.alloc);
    while let [row, later @ ..] = rows {
        ask(site, at, ctx, row, goals, &mut numbers)?;
        rows = later;
    }
    Ok(numbers)
}

/// What a construct demands: one note, also where all rows are known.
#[tactic(auto, unfolding(typed_core::specs::States::demanding))]
fn demand(site: &Site<'_>, at: u32, rows: &[Form], st: &mut State) -> Result<(), Failure>
    ensures demanded { IfOk result (λ _. state_of st.new ≡ spec.demanding (site_of site.now) at rows.now (state_of st.old)) }
    ensures kept { st.new.ctx ≡ st.old.ctx }
{
    let numbers = ask_all(site, at, &st.ctx, rows, &mut st.goals)?;
    st.notes.push(Note::Demand {
        goals: Seq::from_vec(numbers),
    })?;
    Ok(())
}

/// What a rule demands is noted where there is a place for it.
pub(crate) fn ask_at(
    site: &Site<'_>,
    at: Option<u32>,
    rows: &[Form],
    st: &mut State,
) -> Result<(), Failure>
    ensures asked { IfOk result (λ _. state_of st.new ≡ asking (site_of site.now) at rows.now (state_of st.old)) }
    ensures kept { st.new.ctx ≡ st.old.ctx }
{
    match at {
        None => Ok(()),
        Some(at) => demand(site, at, rows, st),
    }
}

/// The state is noted, with these rows over all index variables so far.
#[tactic(auto, unfolding(typed_core::specs::States::noting_state))]
pub fn note_state(rows: &Context, st: &mut State) -> Result<(), Failure>
    requires { rows.now.vars ≤ st.old.ctx.vars }
    ensures noted { IfOk result (λ _. state_of st.new ≡ spec.noting_state rows.now.rows (state_of st.old)) }
    ensures kept { st.new.ctx ≡ st.old.ctx }
{
    let state = StateType {
        ctx: over(rows, st.ctx.vars())?,
        places: st.places.copy()?,
    };
    st.notes.push(Note::State(state))?;
    Ok(())
}

/// The same, with the rows that hold here.
#[tactic(auto, unfolding(typed_core::specs::States::noting_state))]
pub fn note_here(st: &mut State) -> Result<(), Failure>
    ensures noted { IfOk result (λ _. state_of st.new ≡ spec.noting_state st.old.ctx.rows (state_of st.old)) }
    ensures kept { st.new.ctx ≡ st.old.ctx }
{
    let state = st.point()?;
    st.notes.push(Note::State(state))?;
    Ok(())
}
