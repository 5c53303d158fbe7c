//! What is promised of the program that is emitted.

ghost use Rattle.std.specs.Prelude.{All};
ghost use Rattle.dtal_emit.specs.Emitted.{emitted};
ghost use Rattle.lowering.specs.Lowered.{lowered};
ghost use Rattle.program_builder.specs.ProgramOf.{IsProgramOf};
ghost use Rattle.program_builder.specs.SlottedParts.{AreSlotted};
ghost use Rattle.program_builder.specs.Slots.{HasFewPlaces};
ghost use Rattle.three_address.specs.declared.assignment.Assignment.{Assignment};
ghost use Rattle.three_address.specs.declared.typed.Typed.{Typed};
ghost use Rattle.xanadu_tree.specs.PlainOf.{plain_core};

use carried_acceptance::{carried_programs_are_accepted, carried_programs_are_ready};
use emission_laws::emitted_programs_follow;
use lowering::{branches_are_leaves, places_are_those_counted};
use lowering_simulation::proved_code_agrees;
use source_safety::proved_programs_are_never_stuck;
use typed_core::Proved;

/// No function of a program whose goals are proved has more places than an activation. It computes nothing.
pub(crate) fn places_are_few(proved: &Proved)
    ensures { All HasFewPlaces (lowered proved.now.base).funs }
{
    let core = proved.base().core();
    let _funs = core.funs();
    places_are_those_counted();
}

/// Whatever is emitted from the typed code of a program whose goals are proved, with each place in a slot of its own, is a program of it. It
/// computes nothing.
pub(crate) fn slotted_code_keeps_promises(proved: &Proved)
    ensures { (typed : Typed) (homes : Assignment) → AreSlotted proved.now typed homes
        → IsProgramOf (plain_core proved.now.base.core) proved.now.base.made (emitted typed homes) }
{
    let _lines = proved.lines();
    let core = proved.base().core();
    let _funs = core.funs();
    proved_programs_are_never_stuck(proved);
    proved_code_agrees(proved);
    places_are_those_counted();
    branches_are_leaves();
    carried_programs_are_accepted();
    carried_programs_are_ready();
    emitted_programs_follow();
}
