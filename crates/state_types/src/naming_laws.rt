//! Which variables are named by what the calls give.

ghost use Rattle.std.specs.Prelude.{◌≡◌, ℕ, ◌<◌, ◌≤◌, List, Ok, All};
ghost use Rattle.index_sorts.specs.Context.{IndexContext};
ghost use Rattle.xan_lin.specs.Linear.{Linear, NamesBelow};
ghost use Rattle.state_types.specs.Matching.{matched, meeting};
ghost use Rattle.state_types.specs.Naming.{ValuesBelow, FoundBelow, UnpackedBelow};
ghost use Rattle.state_types.specs.Tables.{IsClosed};
ghost use Rattle.state_types.specs.Types.{TypeBelow, subst_ty};
ghost use Rattle.state_types.specs.Unpacking.{unpacked};
ghost use Rattle.state_types.specs.declared.closed.Packed.{Packed};
ghost use Rattle.state_types.specs.declared.matching.Found.{Found};
ghost use Rattle.state_types.specs.declared.state.StateType.{StateType};
ghost use Rattle.state_types.specs.declared.types.Ty.{Ty};

/// What a match finds names only variables that the present types name, or that stay.
pub fn matches_name_present_variables()
    ensures { (below vars present : ℕ) (rows : List Linear) (wanted actual : List Ty) (found : Found)
        → matched below vars rows wanted actual ≡ Ok found → below ≤ present → All (TypeBelow present) actual → FoundBelow present found }
{}

/// What a match finds lists only variables of the target.
pub fn matches_list_the_targets_variables()
    ensures { (below vars : ℕ) (rows : List Linear) (wanted actual : List Ty) (found : Found)
        → matched below vars rows wanted actual ≡ Ok found → All (λ v. v.0 < vars) found.values }
{}

/// The rows of an edge name only variables of the present state, where the values and the present types do.
pub fn edges_name_present_variables()
    ensures { (state target : StateType) (values : List (ℕ × Linear)) (rows : List Linear) → meeting state target values ≡ Ok rows
        → ValuesBelow state.ctx.vars values → All (λ e. TypeBelow state.ctx.vars e.1) state.places → All (NamesBelow state.ctx.vars) rows }
{}

/// A type in which the variables are replaced names only variables that the values name, or that stay.
pub fn replaced_types_name_present_variables()
    ensures { (present below : ℕ) (values : List (ℕ × Linear)) (ty given : Ty) → below ≤ present → ValuesBelow present values
        → subst_ty values below ty ≡ Ok given → TypeBelow present given }
{}

/// Unpacked parts name only variables of the context with the fresh ones, and other types name them as before.
pub fn unpacked_types_name_fresh_variables()
    ensures { (ctx more : IndexContext) (packed : Packed) (parts : List Ty) → unpacked ctx packed ≡ Ok (more, parts) → IsClosed packed
        → UnpackedBelow ctx more packed parts }
{}
