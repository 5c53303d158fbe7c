//! What lowering grants of what emission asks.

ghost use Rattle.std.specs.Prelude.{◌≡◌, ℕ, Some, slice_get};
ghost use Rattle.xanadu_tree.specs.Plain as core;
ghost use Rattle.xanadu_tree.specs.PlainOf.{plain_core};
ghost use Rattle.xanadu_tree.specs.Shaped.{Shaped};
ghost use Rattle.typed_core.specs.Proving.{ElaboratedParts, IsElaboration};
ghost use Rattle.three_address.specs.Typing.{IsTyped};
ghost use Rattle.three_address.specs.declared.assignment.Assignment.{Assignment};
ghost use Rattle.three_address.specs.declared.typed.Typed.{Typed};
ghost use Rattle.lowering.specs.Lowered.{body_of, lowered};
ghost use Rattle.dtal_code.specs.Acceptance.{Accepted};
ghost use Rattle.dtal_emit.specs.Emitted.{emitted};
ghost use Rattle.emission_laws.specs.EmittedRanges.{BlocksEnd, IsRanged};
ghost use Rattle.emission_laws.specs.FollowedRuns.{main_number};
ghost use Rattle.emission_acceptance.specs.WellHeaded.{IsWellHeaded};
ghost use Rattle.emission_acceptance.specs.ReadyCode.{IsShortCode};
ghost use Rattle.lowered_acceptance.specs.FormedCode.{HaveForms};
ghost use Rattle.lowered_acceptance.specs.SlottedCode.{IsSlotted};
ghost use Rattle.lowered_acceptance.specs.TextedHeaders.{HaveTexts};

/// The program of typed code with each place in a slot of its own is accepted.
pub fn slotted_programs_are_accepted()
    ensures { (typed : Typed) (homes : Assignment) → IsTyped typed → IsRanged typed homes → IsSlotted typed homes → IsShortCode typed.low → IsWellHeaded typed.low
        → main_number typed.low.funs ≡ Some typed.low.main → Accepted (emitted typed homes) }
{}

/// The types and the signatures of lowered code are well made, no two of its functions have one name, and a run begins at `main`.
pub fn lowered_headers_are_well_made()
    ensures headed { (base : ElaboratedParts) → Shaped (plain_core base.core) → IsElaboration base.core base.made → IsWellHeaded (lowered base) }
    ensures main { (base : ElaboratedParts) → Shaped (plain_core base.core) → IsElaboration base.core base.made
        → main_number (lowered base).funs ≡ Some (lowered base).main }
{}

/// The types, the names and the signatures of lowered code have texts.
pub fn lowered_headers_have_texts()
    ensures { (base : ElaboratedParts) → Shaped (plain_core base.core) → IsElaboration base.core base.made → HaveTexts (lowered base) }
{}

/// Lowered code has no more types, parts and parameters than emission takes, and its labels rise.
pub fn lowered_code_is_short()
    ensures { (base : ElaboratedParts) → Shaped (plain_core base.core) → IsElaboration base.core base.made → IsShortCode (lowered base) }
{}

/// From one label to the next, lowered code ends with a jump or a return, where each instruction has the places and the number of its form.
pub fn lowered_blocks_end()
    ensures { (program : core.Program) (number : ℕ) (f : core.Fun) → Shaped program → slice_get program.funs number ≡ Some f → HaveForms (body_of program f).code
        → BlocksEnd 0 (body_of program f).labels (body_of program f).code }
{}

/// The program of a source's typed code, with each place in a slot of its own, is accepted.
pub fn lowered_programs_are_accepted()
    ensures { (base : ElaboratedParts) (typed : Typed) (homes : Assignment) → Shaped (plain_core base.core) → IsElaboration base.core base.made
        → typed.low ≡ lowered base → IsTyped typed → IsRanged typed homes → IsSlotted typed homes → Accepted (emitted typed homes) }
{}
