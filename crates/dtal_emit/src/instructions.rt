//! What becomes of an instruction, and of stretches of code.

ghost use Rattle.std.specs.Prelude.{◌≡◌, ◌++◌, ◌∷◌, [], OnOk, IfOk};
ghost use Rattle.dtal_emit.specs.Emitted as spec;

use crate::acting::{acting, takes_places};
use crate::edges::{copy_values, order_lines};
use crate::homes::{homes_of, load, results, store};
use arrayvec::ArrayVec;
use dtal_code::Instr;
use std::alloc::Global;
use three_address::{Edge, LowInstr, parts};
use xan_io::Memory;

// The instruction that acts, with what stands with it.
fn with_edge(
    alloc: Global,
    homes: &[u8],
    instr: &LowInstr,
    edge: &Edge,
    writes: ArrayVec<u8, 8>,
    reads: ArrayVec<u8, 8>,
) -> Result<Instr, Memory>
    ensures { IfOk result (λ made. made ≡ spec.with_edge homes.now instr.now edge.now writes.items reads.items) }
{
    Ok(Instr {
        op: acting(instr.op, &instr.number, instr.target, writes, reads),
        edge: copy_values(alloc, edge.values.as_slice())?,
        by: order_lines(alloc, homes, edge.by.as_slice())?,
    })
}

// An instruction over registers, with the moves from and to slots.
fn emit_over_registers(
    alloc: Global,
    out: &mut Vec<Instr>,
    homes: &[u8],
    instr: &LowInstr,
    edge: &Edge,
    writes: &ArrayVec<u8, 8>,
    reads: &ArrayVec<u8, 8>,
) -> Result<(), Memory>
    ensures { OnOk result (out.new.items ≡ out.old.items ++ spec.over_registers homes.now instr.now edge.now writes.now.items reads.now.items) }
{
    let registers = load(alloc, out, reads)?;
    let made = with_edge(alloc, homes, instr, edge, results(writes), registers)?;
    out.push(made)?;
    store(alloc, out, writes)
}

// Adds what becomes of an instruction.
#[tactic(auto, unfolding(crate::specs::Emitted::emitted_instr))]
fn emit_instr(
    alloc: Global,
    out: &mut Vec<Instr>,
    homes: &[u8],
    instr: &LowInstr,
    edge: &Edge,
) -> Result<(), Memory>
    ensures { OnOk result (out.new.items ≡ out.old.items ++ spec.emitted_instr homes.now instr.now edge.now) }
{
    let Some((writes, reads)) = parts(instr) else {
        return Ok(());
    };
    let writes = homes_of(homes, writes);
    let reads = homes_of(homes, reads);
    if takes_places(instr.op) {
        let made = with_edge(alloc, homes, instr, edge, writes, reads)?;
        out.push(made)?;
        Ok(())
    } else {
        emit_over_registers(alloc, out, homes, instr, edge, &writes, &reads)
    }
}

/// Adds what becomes of a stretch of code.
#[tactic(auto, unfolding(crate::specs::Emitted::emitted_all))]
pub(crate) fn emit_all(
    alloc: Global,
    out: &mut Vec<Instr>,
    homes: &[u8],
    code: &[LowInstr],
    edges: &[Edge],
) -> Result<(), Memory>
    ensures { OnOk result (out.new.items ≡ out.old.items ++ spec.emitted_all homes.now code.now edges.now) }
{
    let mut instrs = code;
    let mut others = edges;
    'code: while let [instr, later @ ..] = instrs {
        let [edge, others_later @ ..] = others else {
            return Ok(());
        };
        emit_instr(alloc, out, homes, instr, edge)?;
        instrs = later;
        others = others_later;
    }
    Ok(())
}
