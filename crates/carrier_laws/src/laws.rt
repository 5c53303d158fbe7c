//! That carried code is typed.

ghost use Rattle.lowering.specs.Lowered.{lowered};
ghost use Rattle.three_address.specs.Typing.{IsTyped};
ghost use Rattle.three_address.specs.declared.typed.Typed.{Typed};
ghost use Rattle.type_carrier.specs.Carried.{Carries};
ghost use Rattle.typed_core.specs.Proving.{IsElaboration, ProveAll, ProvedParts};
ghost use Rattle.xanadu_tree.specs.PlainOf.{plain_core};
ghost use Rattle.xanadu_tree.specs.Shaped.{Shaped};

/// Carried code is typed: of a core that keeps its rules and is elaborated, where lines prove all its goals, each instruction of the code over places
/// stands in a state type that its rule allows, and each label's state holds at its position.
pub fn carried_code_is_typed()
    ensures { (program : ProvedParts) (typed : Typed) → Shaped (plain_core program.base.core) → IsElaboration program.base.core program.base.made
        → ProveAll program.base.made.goals program.lines → Carries program (lowered program.base) typed → IsTyped typed }
{}
