//! The states of labels: noted states, cut to the places that are live there.

ghost use Rattle.std.specs.Prelude.{◌≡◌, ◌++◌, [], IfOk, length, suc, option_to_list};
ghost use Rattle.type_carrier.specs.CarriedTests as tests;
ghost use Rattle.type_carrier.specs.ProvedRows.{behind_front};
ghost use Rattle.type_carrier.specs.Views.{sources_of};
ghost use Rattle.type_carrier.specs.Ways as spec;

use crate::site::Site;
use crate::values::behind_front;
use state_types::{Places, StateType, Ty};
use std::alloc::Global;
use three_address::is_live_at;
use typed_core::Note;
use xan_io::Memory;
use xan_seq::Seq;

// Those of some places that are live at a label.
#[tactic(auto, unfolding(crate::specs::Ways::live_places))]
fn live_places(
    alloc: Global,
    columns: &[Seq<bool>],
    label: u32,
    entries: &[(u16, Ty)],
) -> Result<Vec<(u16, Ty)>, Memory>
    ensures { IfOk result (λ made. made.items ≡ spec.live_places columns.now label entries.now []) }
{
    let mut made = Vec::new(alloc);
    let mut rest = entries;
    'places: while let [entry, later @ ..] = rest {
        if is_live_at(columns, label, entry.0) {
            made.push((entry.0, entry.1.copy()))?;
        }
        rest = later;
    }
    Ok(made)
}

/// A noted state as that of a label.
pub(crate) fn label_state(
    alloc: Global,
    columns: &[Seq<bool>],
    label: u32,
    state: &StateType,
) -> Result<StateType, Memory>
    ensures { IfOk result (λ made. made ≡ spec.label_state columns.now label state.now) }
{
    let live = live_places(alloc, columns, label, state.places.entries())?;
    let Ok(ctx) = state.ctx.copy() else {
        return Err(Memory);
    };
    Ok(StateType {
        ctx,
        places: Places::from_vec(live),
    })
}

// The number of the next label.
fn next_label(states: &[StateType]) -> Result<u32, Memory>
    ensures { IfOk result (λ label. label ≡ suc (length states.now)) }
{
    let Ok(before) = u32::try_from(states.len()) else {
        return Err(Memory);
    };
    match before.checked_add(1) {
        Some(label) => Ok(label),
        None => Err(Memory),
    }
}

/// The state of the next label, where a note of a state stands in front.
pub(crate) fn next_state(
    site: &Site<'_>,
    notes: &[Note],
    states: &[StateType],
) -> Result<Option<StateType>, Memory>
    ensures { IfOk result (λ state. state ≡ tests.next_state (sources_of site.now) notes.now states.now) }
{
    let [note, ..] = notes else {
        return Ok(None);
    };
    match note {
        Note::State(state) => {
            let label = next_label(states)?;
            let made = label_state(site.alloc, site.columns, label, state)?;
            Ok(Some(made))
        }
        Note::Edge { .. } | Note::Demand { .. } => Ok(None),
    }
}

/// The state of the next label behind the others, and the notes behind the one in front.
pub(crate) fn place_label<'a>(
    site: &Site<'_>,
    notes: &'a [Note],
    states: &mut Vec<StateType>,
) -> Result<&'a [Note], Memory>
    ensures states { IfOk result (λ _. states.new.items ≡ states.old.items ++ option_to_list (tests.next_state (sources_of site.now) notes.now states.old.items)) }
    ensures notes { IfOk result (λ rest. rest.now ≡ behind_front notes.now) }
{
    if let Some(state) = next_state(site, notes, states.as_slice())? {
        states.push(state)?;
    }
    Ok(behind_front(notes))
}
