//! Edges into a state type.

ghost use Rattle.std.specs.Prelude.{◌≡◌};
ghost use Rattle.xan_lin.specs.Subst.{VariablesRise};
ghost use Rattle.state_types.specs.Answers.{Gives};
ghost use Rattle.state_types.specs.Matching as spec;

use crate::error::StateError;
use crate::pairs::pairs_at;
use crate::rows::demanded;
use crate::state::StateType;
use std::alloc::Global;
use xan_lin::Form;

/// The rows that an edge demands. Each listed variable of the target has the form beside it; one that is not listed is itself where the
/// present state has it, and else 0. The listed variables rise. First come the target's places by rising number: where the wanted index
/// with these values differs from the present one, wanted less present and present less wanted; then the target's rows with these
/// values. `Kind(p)` comes exactly where a place of the target has no type here or one of another kind, and p is the first such place.
/// `Large` comes exactly where there is none and a wanted index with the values, a difference or a row is past the bounds of a form, by
/// the first of these.
#[tactic(auto, unfolding(crate::specs::Matching::meeting))]
pub fn meets(
    alloc: Global,
    state: &StateType,
    target: &StateType,
    values: &[(u32, Form)],
) -> Result<Vec<Form>, StateError>
    requires { VariablesRise 0 values.now }
    ensures { Gives (λ rows. rows.items) result (spec.meeting state.now target.now values.now) }
{
    let pairs = pairs_at(alloc, &state.places, target.places.entries())?;
    demanded(
        alloc,
        values,
        state.ctx.vars(),
        pairs.as_slice(),
        target.ctx.rows(),
    )
}
