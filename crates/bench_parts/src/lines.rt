//! Checks of a proof over and over.

ghost use Rattle.std.specs.Prelude.{◌≡◌, ◌<◌, ◌≤◌, ◌^◌, ◌+◌, length};

use crate::proof::{combs, cuts};
use crate::systems::{add, difference};
use index_sorts::Context;
use proof_lines::{Line, check_lines};
use std::alloc::Global;
use xan_lin::Form;
use xan_pool::RowPool;

/// How often a proof of so many sums, or of so many cuts, was accepted, unless memory runs out.
pub fn proofs_accepted(alloc: Global, cut: bool, lines: u32, times: u32) -> Option<u64> {
    let proof = if cut {
        cuts(alloc, lines)?
    } else {
        combs(alloc, lines)?
    };
    times_accepted(alloc, proof.as_slice(), times)
}

/// How often the proof of the goal 0 is accepted of so many checks, unless memory runs out.
fn times_accepted(alloc: Global, lines: &[Line], times: u32) -> Option<u64> {
    let context = context(alloc)?;
    let goal = Form::from_terms(&[], 0).ok()?;
    if lines.len() >= 1 << 32 {
        return None;
    }
    let mut pool = RowPool::new(alloc, lines.len(), 65).ok()?;
    let mut accepted = 0u64;
    for _ in 0..times {
        if check_lines(&mut pool, &context, &goal, lines).is_ok() {
            accepted = accepted.saturating_add(1);
        }
    }
    Some(accepted)
}

/// The context of the two hypotheses.
fn context(alloc: Global) -> Option<Context> {
    let mut context = Context::new(alloc, 2).ok()?;
    add(&mut context, difference(0, 1)?)?;
    add(&mut context, difference(1, 0)?)?;
    Some(context)
}
