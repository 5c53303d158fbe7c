//! Ways into a joined state, and what follows branches.

ghost use Rattle.std.specs.Prelude.{◌≡◌, ◌+◌, ◌≤◌, [], length, map, IfOk};
ghost use Rattle.header_elaborator.specs.Code.{Gives};
ghost use Rattle.expression_elaborator.specs.Views.{site_of, state_of};
ghost use Rattle.constraint_elaborator.specs.BlockViews.{gone_on};
ghost use Rattle.join_elaborator.specs.JoinViews.{joint_of};
ghost use Rattle.state_types.specs.PlaceTypes.{type_at};
ghost use Rattle.typed_core.specs.Joins as spec;
ghost use Rattle.typed_core.specs.States as states;

use expression_elaborator::{Site, State, ask_all, note_here, type_of};
use header_elaborator::{Failure, Stop, index_of};
use join_elaborator::Joint;
use state_types::{Found, Places, StateType, Ty, match_types};
use std::alloc::Global;
use typed_core::Note;
use xan_lin::{Form, TooLarge};
use xan_seq::Seq;

/// A match of as many types.
#[tactic(auto, unfolding(typed_core::specs::States::matching, operation_rules::specs::Rules::matching))]
fn matching(
    alloc: Global,
    below: u32,
    vars: u32,
    rows: &[Form],
    wanted: &[Ty],
    actual: &[Ty],
) -> Result<Found, Stop>
    ensures { Gives (λ found. found) result (states.matching below vars rows.now wanted.now actual.now) }
{
    if wanted.len() != actual.len() {
        return Err(Stop::Misfit);
    }
    Ok(match_types(alloc, below, vars, rows, wanted, actual)?)
}

/// The present types of the variables that a clause names.
#[tactic(auto, unfolding(typed_core::specs::Joins::present))]
fn present(alloc: Global, places: &Places, mut wanted: &[(u16, Ty)]) -> Result<Vec<Ty>, Stop>
    ensures { Gives (λ types. types.items) result (spec.present places.now wanted.entry.now []) }
{
    let mut types = Vec::new(alloc);
    while let [one, later @ ..] = wanted {
        types.push(type_of(u32::from(one.0), places)?)?;
        wanted = later;
    }
    Ok(types)
}

/// The types that are wanted of them.
fn wanted_types(alloc: Global, wanted: &[(u16, Ty)]) -> Result<Vec<Ty>, Failure>
    ensures { IfOk result (λ types. types.items ≡ map (λ w. w.1) wanted.now) }
{
    let mut types = Vec::new(alloc);
    for one in wanted {
        types.push(one.1.copy())?;
    }
    Ok(types)
}

/// A row past the bounds is needed.
fn within_bounds(past: Option<TooLarge>) -> Result<(), Stop>
    ensures { Gives (λ _. tt) result (spec.within_bounds past) }
{
    match past {
        None => Ok(()),
        Some(why) => Err(Stop::from(why)),
    }
}

/// The present index of a variable.
#[tactic(auto, unfolding(typed_core::specs::Joins::index_at))]
fn index_at(places: &Places, x: u32) -> Result<Form, Stop>
    ensures { Gives (λ form. form) result (spec.index_at places.now x) }
{
    let ty = type_of(x, places)?;
    match index_of(&ty) {
        Some(index) => Ok(index.copy()),
        None => Err(Stop::Misfit),
    }
}

/// The present indices of variables go behind the values, for the index variables from `next` on.
#[tactic(auto, unfolding(typed_core::specs::Joins::values_at))]
fn push_values(
    values: &mut Vec<(u32, Form)>,
    places: &Places,
    next: u32,
    mut xs: &[u32],
) -> Result<(), Stop>
    requires { next + length xs.now ≤ 1024 }
    ensures { Gives (λ _. values.new.items) result (spec.values_at places.now next xs.entry.now values.old.items) }
{
    let mut var = next;
    while let [x, later @ ..] = xs {
        let form = index_at(places, *x)?;
        values.push((var, form))?;
        var += 1;
        xs = later;
    }
    Ok(())
}

/// What a way in finds: the present types of the variables that the clause names, and their match.
#[derive(Drop)]
struct Met {
    present: Vec<Ty>,
    found: Found,
}

/// The match of the stated types with the present ones.
#[tactic(auto, unfolding(typed_core::specs::Joins::met_there))]
fn match_joint(alloc: Global, joint: &Joint, places: &Places) -> Result<Met, Stop>
    requires { joint.now.first + joint.now.count ≤ 1024 }
    ensures { Gives (λ met. (met.present.items, met.found)) result (spec.met_there (joint_of joint.now) places.now) }
{
    let actual = present(alloc, places, joint.wanted.as_slice())?;
    let wanted = wanted_types(alloc, joint.wanted.as_slice())?;
    let found = matching(
        alloc,
        joint.first,
        joint.first + joint.count,
        joint.rows.as_slice(),
        wanted.as_slice(),
        actual.as_slice(),
    )?;
    Ok(Met {
        present: actual,
        found,
    })
}

/// A way in from what is known somewhere.
#[tactic(auto, unfolding(typed_core::specs::Joins::entered))]
pub(crate) fn enter(
    site: &Site<'_>,
    at: u32,
    joint: &Joint,
    from: &StateType,
    st: &mut State,
) -> Result<(), Stop>
    requires { (joint.now.first + joint.now.count) + length joint.now.others.items ≤ 1024 }
    ensures entered { Gives (λ _. state_of st.new) result
        (spec.entered (site_of site.now) at (joint_of joint.now) from.now (state_of st.old)) }
    ensures kept { st.new.ctx ≡ st.old.ctx }
{
    let Met { present, found } = match_joint(site.alloc, joint, &from.places)?;
    within_bounds(joint.past)?;
    let Found { values, rows } = found;
    let mut values = values.into_vec();
    push_values(
        &mut values,
        &from.places,
        joint.first + joint.count,
        joint.others.as_slice(),
    )?;
    let numbers = ask_all(site, at, &from.ctx, rows.as_slice(), &mut st.goals)?;
    st.notes.push(Note::Edge {
        values: Seq::from_vec(values),
        present: Seq::from_vec(present),
        goals: Seq::from_vec(numbers),
    })?;
    Ok(())
}

/// The same where a block completes.
#[tactic(auto, using(crate::proofs::BranchEnds::entered_not, crate::proofs::BranchEnds::entered_same))]
pub(crate) fn enter_if(
    completes: bool,
    site: &Site<'_>,
    at: u32,
    joint: &Joint,
    from: &StateType,
    st: &mut State,
) -> Result<(), Stop>
    requires { (joint.now.first + joint.now.count) + length joint.now.others.items ≤ 1024 }
    ensures entered { Gives (λ _. state_of st.new) result
        (spec.entered_if completes (site_of site.now) at (joint_of joint.now) from.now (state_of st.old)) }
    ensures kept { st.new.ctx ≡ st.old.ctx }
{
    if !completes {
        return Ok(());
    }
    enter(site, at, joint, from, st)?;
    Ok(())
}

/// The type of the place, or this one where it has none.
fn type_or(ty: &Ty, places: &Places, place: u16) -> Ty
    ensures { result ≡ spec.type_or ty.now (type_at place places.now) }
{
    match places.get(place) {
        Some(other) => other.copy(),
        None => ty.copy(),
    }
}

/// The types at the end of a block of the variables that were visible before it.
#[tactic(auto, unfolding(typed_core::specs::Joins::still_visible))]
fn still_visible(
    alloc: Global,
    mut before: &[(u16, Ty)],
    after: &Places,
) -> Result<Vec<(u16, Ty)>, Failure>
    ensures { IfOk result (λ made. made.items ≡ spec.still_visible before.entry.now after.now) }
{
    let mut made = Vec::new(alloc);
    while let [entry, later @ ..] = before {
        made.push((entry.0, type_or(&entry.1, after, entry.0)))?;
        before = later;
    }
    Ok(made)
}

/// The end of a branch goes on, over all index variables so far.
pub(crate) fn go_on(
    alloc: Global,
    before: &Places,
    end: &StateType,
    st: &mut State,
) -> Result<(), Failure>
    requires { end.now.ctx.vars ≤ st.old.ctx.vars }
    ensures gone { IfOk result (λ _. state_of st.new ≡ gone_on before.now end.now (state_of st.old)) }
    ensures kept { IfOk result (λ _. st.new.ctx.vars ≡ st.old.ctx.vars) }
{
    let types = still_visible(alloc, before.entries(), &end.places)?;
    let places = Places::from_vec(types);
    st.resume(&end.ctx, &places)?;
    note_here(st)
}
