//! What is known at labels.

ghost use Rattle.std.specs.Prelude.{◌≡◌, [], IfOk};
ghost use Rattle.dtal_emit.specs.Emitted as spec;

use crate::homes::home_of;
use dtal_code::LabelState;
use state_types::{Places, StateType, Ty};
use std::alloc::Global;
use xan_io::Memory;
use xan_lin::Form;
use xan_seq::Seq;

// The types of the homes of places.
#[tactic(auto, unfolding(crate::specs::Emitted::at_homes))]
fn at_homes(alloc: Global, homes: &[u8], places: &[(u16, Ty)]) -> Result<Places, Memory>
    ensures { IfOk result (λ made. made ≡ spec.at_homes homes.now places.now []) }
{
    let mut made = Places::new(alloc);
    let mut rest = places;
    'places: while let [(place, ty), later @ ..] = rest {
        let Ok(()) = made.set(u16::from(home_of(homes, *place)), ty.copy()) else {
            return Err(Memory);
        };
        rest = later;
    }
    Ok(made)
}

// The same rows.
fn copy_rows(alloc: Global, rows: &[Form]) -> Result<Seq<Form>, Memory>
    ensures { IfOk result (λ copied. copied ≡ rows.now) }
{
    let mut copied = Vec::new(alloc);
    for row in rows {
        copied.push(row.copy())?;
    }
    Ok(Seq::from_vec(copied))
}

/// What is known at a label, over homes.
pub(crate) fn label_state(
    alloc: Global,
    homes: &[u8],
    state: &StateType,
) -> Result<LabelState, Memory>
    ensures { IfOk result (λ made. made ≡ spec.label_state homes.now state.now) }
{
    Ok(LabelState {
        vars: state.ctx.vars(),
        rows: copy_rows(alloc, state.ctx.rows())?,
        places: at_homes(alloc, homes, state.places.entries())?,
    })
}
