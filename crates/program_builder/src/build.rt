//! The program of a proved core.

ghost use Rattle.std.specs.Prelude.{IfOk};
ghost use Rattle.program_builder.specs.NumberedLines.{AreNumberable};
ghost use Rattle.program_builder.specs.ProgramOf.{IsProgramOf};
ghost use Rattle.xanadu_tree.specs.PlainOf.{plain_core};

use crate::promises::{places_are_few, slotted_code_keeps_promises};
use crate::slots::assign_slots;
use crate::written::tell_written;
use dtal_code::DtalProgram;
use dtal_emit::emit;
use lowering::lower;
use std::alloc::Global;
use type_carrier::carry;
use typed_core::Proved;
use xan_io::Memory;

/// The program of a core whose goals are proved: its code over places, with the types that prove it, in which each place has a slot of its
/// own. No proof has more lines than a text can number. `Memory` comes where memory ran out, or a function is too large for `lower` or `carry`.
pub fn build_program(alloc: Global, proved: &Proved) -> Result<DtalProgram, Memory>
    requires { AreNumberable proved.now.lines }
    ensures { IfOk result (λ program. IsProgramOf (plain_core proved.now.base.core) proved.now.base.made program) }
{
    let low = lower(alloc, proved)?;
    tell_written(&low, proved.lines());
    places_are_few(proved);
    let homes = assign_slots(alloc, low.funs.as_slice())?;
    let code = carry(alloc, proved, low)?;
    slotted_code_keeps_promises(proved);
    emit(alloc, &code, &homes)
}
