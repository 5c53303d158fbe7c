//! Instructions put behind code.

ghost use Rattle.std.specs.Prelude.{◌≡◌, ◌++◌, [], ◌∷◌, IfOk, pos};
ghost use Rattle.value_lowering.specs.Frames as frames;
ghost use Rattle.value_lowering.specs.OneInstruction as one;

use std::alloc::Global;
use three_address::{LowInstr, Op22};
use xan_io::Memory;
use xan_seq::Seq;

/// Why there is no code: memory ran out, or a place or a position has no number.
#[derive(Clone, Copy)]
pub enum Stop {
    /// Memory ran out.
    Memory,
    /// A number is past what places and positions have.
    Large,
}

impl From<Memory> for Stop {
    fn from(_error: Memory) -> Stop {
        Stop::Memory
    }
}

/// One instruction more.
pub fn emit(
    alloc: Global,
    code: &mut Vec<LowInstr>,
    op: Op22,
    places: &[u16],
    number: &i64,
    target: u32,
) -> Result<(), Stop>
    ensures { IfOk result (λ _. code.new.items ≡ code.old.items ++ one.instr op places.now number.now target ∷ []) }
{
    let Ok(places) = Vec::from_slice(alloc, places) else {
        return Err(Stop::Memory);
    };
    let instr = LowInstr {
        op,
        places: Seq::from_vec(places),
        number: *number,
        target,
    };
    let Ok(()) = code.push(instr) else {
        return Err(Stop::Memory);
    };
    Ok(())
}

/// The place of a temporary behind so many variables.
pub fn temporary(vars: u16, depth: u16) -> Result<u16, Stop>
    ensures { IfOk result (λ place. place ≡ frames.temporary vars depth) }
{
    match vars.checked_add(depth) {
        Some(place) => Ok(place),
        None => Err(Stop::Large),
    }
}

/// The place of a variable.
pub fn variable(x: u32) -> Result<u16, Stop>
    ensures { IfOk result (λ place. place ≡ x) }
{
    match u16::try_from(x) {
        Ok(place) => Ok(place),
        Err(_) => Err(Stop::Large),
    }
}

/// One instruction more, with a place in front of others and the number of a type.
pub fn emit_with(
    alloc: Global,
    code: &mut Vec<LowInstr>,
    op: Op22,
    to: u16,
    rest: &[u16],
    number: u32,
    target: u32,
) -> Result<(), Stop>
    ensures { IfOk result (λ _. code.new.items ≡ code.old.items ++ one.instr op (to ∷ rest.now) (pos number) target ∷ []) }
{
    let mut places = Vec::new(alloc);
    let Ok(()) = places.push(to) else {
        return Err(Stop::Memory);
    };
    let Ok(()) = places.extend_from_slice(rest) else {
        return Err(Stop::Memory);
    };
    emit(
        alloc,
        code,
        op,
        places.as_slice(),
        &i64::from(number),
        target,
    )
}
