//! Types of emitted programs.

ghost use Rattle.std.specs.Prelude.{◌≡◌, ℕ, Bool, true, List, Some, ◌<◌, length, nat_lt, slice_get};
ghost use Rattle.std.specs.List.{All, Contains};
ghost use Rattle.state_types.specs.PlaceTypes.{PlacesRise};
ghost use Rattle.state_types.specs.declared.state.StateType.{StateType};
ghost use Rattle.state_types.specs.declared.types.Ty.{Ty};
ghost use Rattle.three_address.specs.Flow.{reads_at, writes_at};
ghost use Rattle.three_address.specs.Typing.{IsTyped, IsTypedFun};
ghost use Rattle.three_address.specs.declared.assignment.Assignment.{Assignment};
ghost use Rattle.three_address.specs.declared.function.LowFun.{LowFun};
ghost use Rattle.three_address.specs.declared.function.Lowered.{Lowered};
ghost use Rattle.three_address.specs.declared.typed.Edge.{Edge};
ghost use Rattle.three_address.specs.declared.typed.Typed.{Typed};
ghost use Rattle.dtal_code.specs.Acceptance.{Accepted};
ghost use Rattle.dtal_emit.specs.Emitted.{emitted};
ghost use Rattle.emission_laws.specs.ApartHomes.{AreSlots, IsReadyFun};
ghost use Rattle.emission_laws.specs.EmittedRanges.{IsRanged};
ghost use Rattle.emission_acceptance.specs.Acceptable.{AreAcceptable};
ghost use Rattle.emission_acceptance.specs.LabelsApart.{HomesDiffer};
ghost use Rattle.emission_acceptance.specs.ReadyCode.{IsShortCode};
ghost use Rattle.emission_acceptance.specs.TypesThrough.{AreTypesApart};

/// The emitted program is accepted: where the code over places is typed, its text exists, and homes keep the types of its places apart, there is
/// a state type before each instruction, and no rule fails at any place.
pub fn emitted_programs_are_accepted()
    ensures { (typed : Typed) (homes : Assignment) (kept : ℕ → ℕ → ℕ → Bool) → IsTyped typed → IsRanged typed homes
        → AreAcceptable typed homes (λ number at place. kept number at place ≡ true) → Accepted (emitted typed homes) }
{}

/// Slots of their own keep the types of all places of a function apart, where each instruction reads and writes places of that function, and each
/// label states types of such places alone.
pub fn slots_keep_types_apart()
    ensures { (fun : LowFun) (labels : List StateType) (homes : List ℕ) → AreSlots homes fun.places
        → ((at place : ℕ) → Contains (reads_at fun at) place → place < fun.places) → ((at place : ℕ) → Contains (writes_at fun at) place → place < fun.places)
        → ((before : ℕ) (label : StateType) → slice_get labels before ≡ Some label → All (λ p. p.0 < fun.places) label.places)
        → AreTypesApart fun labels homes (λ at place. nat_lt place fun.places ≡ true) }
{}

/// Slots of their own are different homes of the places that a label lists, where these are places of the function.
pub fn slots_keep_labels_apart()
    ensures { (homes : List ℕ) (count : ℕ) (places : List (ℕ × Ty)) → AreSlots homes count → PlacesRise 0 places → All (λ (x : ℕ × Ty). x.0 < count) places
        → HomesDiffer homes places }
{}

/// Typed code has what emission needs to take it whole, where types and functions have at most eight parts and parameters, and labels stand by
/// rising position.
pub fn typed_code_is_ready()
    ensures { (code : Lowered) (number : ℕ) (fun : LowFun) (labels : List StateType) (edges : List Edge) → IsShortCode code
        → slice_get code.funs number ≡ Some fun → IsTypedFun code fun labels edges → IsReadyFun code.funs fun (length labels) edges }
{}
