//! When a match and an edge are refused by kind.

ghost use Rattle.std.specs.Prelude.{◌≡◌, ◌↔◌, ℕ, List, Err, length};
ghost use Rattle.xan_lin.specs.Linear.{Linear};
ghost use Rattle.state_types.specs.Matching.{matched, meeting};
ghost use Rattle.state_types.specs.Refusals.{FirstUnlike, FirstAbsent};
ghost use Rattle.state_types.specs.declared.error.StateError.TheVariants as state_error;
ghost use Rattle.state_types.specs.declared.state.StateType.{StateType};
ghost use Rattle.state_types.specs.declared.types.Ty.{Ty};

/// A match is refused by kind exactly where the kinds of the two lists differ, with the first such number.
pub fn kinds_are_compared_first()
    ensures { (below vars : ℕ) (rows : List Linear) (wanted actual : List Ty) (number : ℕ) → length wanted ≡ length actual
        → (matched below vars rows wanted actual ≡ Err (state_error.Kind number)) ↔ FirstUnlike wanted actual number }
{}

/// An edge is refused by kind exactly where a place of the target has no present type of its kind, with the first such place.
pub fn absent_places_are_found_first()
    ensures { (state target : StateType) (values : List (ℕ × Linear)) (place : ℕ)
        → (meeting state target values ≡ Err (state_error.Kind place)) ↔ FirstAbsent state.places target.places place }
{}
