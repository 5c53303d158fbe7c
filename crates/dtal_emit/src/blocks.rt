//! Blocks: the code from one label to the next.

ghost use Rattle.std.specs.Prelude.{◌≡◌, ◌-◌, ◌++◌, ◌∷◌, [], take, drop, Some, None, OnOk, IfOk};
ghost use Rattle.dtal_emit.specs.Emitted as spec;

use crate::instructions::emit_all;
use crate::labels::label_state;
use dtal_code::{Block, Instr, LabelState};
use state_types::StateType;
use std::alloc::Global;
use three_address::{Edge, LowInstr};
use xan_io::Memory;
use xan_seq::Seq;

// The first elements, so many of them, and the others.
fn split<T>(list: &[T], count: usize) -> (&[T], &[T])
    ensures first { result.0.now ≡ take count list.now }
    ensures others { result.1.now ≡ drop count list.now }
{
    if count <= list.len() {
        list.split_at(count)
    } else {
        list.split_at(list.len())
    }
}

// How far it is from a position to a later one.
fn distance(at: u32, next: u32) -> usize
    ensures { result ≡ next - at }
{
    next.saturating_sub(at) as usize
}

// Adds a block: what stands in front already, and what becomes of a stretch of code.
fn push_block(
    alloc: Global,
    blocks: &mut Vec<Block>,
    state: Option<LabelState>,
    front: Vec<Instr>,
    homes: &[u8],
    code: &[LowInstr],
    edges: &[Edge],
) -> Result<(), Memory>
    ensures { OnOk result (blocks.new.items ≡ blocks.old.items ++ record { state = state; code = front.items ++ spec.emitted_all homes.now code.now edges.now } ∷ []) }
{
    let mut out = front;
    emit_all(alloc, &mut out, homes, code, edges)?;
    blocks.push(Block {
        state,
        code: Seq::from_vec(out),
    })?;
    Ok(())
}

/// The blocks of a function, of which the first begins with these instructions.
#[tactic(auto, unfolding(crate::specs::Emitted::blocks_from))]
pub(crate) fn blocks_of(
    alloc: Global,
    homes: &[u8],
    positions: &[u32],
    labels: &[StateType],
    code: &[LowInstr],
    edges: &[Edge],
    front: Vec<Instr>,
) -> Result<Vec<Block>, Memory>
    ensures { IfOk result (λ blocks. blocks.items ≡ spec.blocks_from homes.now 0 None positions.now labels.now code.now edges.now front.items) }
{
    let mut blocks = Vec::new(alloc);
    let mut at = 0u32;
    let mut state = None;
    let mut front = front;
    let mut code_left = code;
    let mut edges_left = edges;
    let mut nexts = positions;
    let mut states = labels;
    'labels: while let [next, nexts_later @ ..] = nexts {
        let [label, states_later @ ..] = states else {
            push_block(
                alloc,
                &mut blocks,
                state,
                front,
                homes,
                code_left,
                edges_left,
            )?;
            return Ok(blocks);
        };
        let count = distance(at, *next);
        let (code_here, code_later) = split(code_left, count);
        let (edges_here, edges_later) = split(edges_left, count);
        push_block(
            alloc,
            &mut blocks,
            state,
            front,
            homes,
            code_here,
            edges_here,
        )?;
        state = Some(label_state(alloc, homes, label)?);
        front = Vec::new(alloc);
        at = *next;
        code_left = code_later;
        edges_left = edges_later;
        nexts = nexts_later;
        states = states_later;
    }
    push_block(
        alloc,
        &mut blocks,
        state,
        front,
        homes,
        code_left,
        edges_left,
    )?;
    Ok(blocks)
}
