//! Instructions that are put behind others.

ghost use Rattle.std.specs.Prelude.{◌≡◌, ◌++◌, ◌∷◌, [], OnOk};
ghost use Rattle.dtal_emit.specs.Homes.{alone, moved_if};

use dtal_code::Instr;
use dtal_code::instruction::Op;
use std::alloc::Global;
use xan_io::Memory;
use xan_seq::Seq;

// Adds an instruction with nothing beside it.
fn push_alone(alloc: Global, out: &mut Vec<Instr>, op: Op) -> Result<(), Memory>
    ensures { OnOk result (out.new.items ≡ out.old.items ++ alone op ∷ []) }
{
    let instr = Instr {
        op,
        edge: Seq::from_vec(Vec::new(alloc)),
        by: Seq::from_vec(Vec::new(alloc)),
    };
    out.push(instr)?;
    Ok(())
}

/// Adds the move of a word, where it is to be.
pub(crate) fn push_move(
    alloc: Global,
    out: &mut Vec<Instr>,
    moves: bool,
    to: u8,
    from: u8,
) -> Result<(), Memory>
    ensures { OnOk result (out.new.items ≡ out.old.items ++ moved_if moves to from) }
{
    if moves {
        push_alone(alloc, out, Op::Mv(to, from))?;
    }
    Ok(())
}
