//! How a system of a test is run.
use crate::tests::solver::room::{held_pool, is_held};
use crate::tests::systems::{context_of, form_of};
use index_sorts::Context;
use linear_solver::{Answer, LineBuf, refute};
use proof_lines::{Line, check_lines, write_lines};
use std::alloc::Global;
use xan_lin::Form;
use xan_pool::RowPool;

/// What a run shows: the answer, and whether the lines are accepted and have this text.
#[derive(Drop)]
pub(crate) struct Shown {
    pub(crate) answer: Answer,
    pub(crate) accepted: bool,
    pub(crate) as_written: bool,
}

// Whether the checker accepts the lines.
fn are_accepted(alloc: Global, context: &Context, goal: &Form, lines: &[Line]) -> Option<bool> {
    let mut pool = RowPool::new(alloc, 3000, 65).ok()?;
    if lines.len() > 3000 {
        return None;
    }
    Some(check_lines(&mut pool, context, goal, lines).is_ok())
}

// The text of the lines.
fn text_of(alloc: Global, lines: &[Line]) -> Option<Vec<u8>> {
    let mut text = Vec::new(alloc);
    if lines.is_empty() || lines.len() >= 1 << 32 {
        return None;
    }
    write_lines(lines, &mut text).ok()?;
    Some(text)
}

/// What the solver shows of a goal over a context, in a pool that keeps a row of others; `wanted` is the text of its lines, or nothing where any will do.
pub(crate) fn run_of(
    alloc: Global,
    context: &Context,
    goal: &Form,
    wanted: &[u8],
) -> Option<Shown> {
    let mut pool = held_pool(alloc)?;
    let mut buf = LineBuf::new(alloc).ok()?;
    let answer = refute(&mut pool, context, goal, &mut buf);
    if !is_held(&pool) {
        return None;
    }
    if answer != Answer::Proved {
        return Some(Shown {
            answer,
            accepted: false,
            as_written: true,
        });
    }
    let lines = buf.lines(alloc, context).ok()?;
    let accepted = are_accepted(alloc, context, goal, lines.as_slice())?;
    let text = text_of(alloc, lines.as_slice())?;
    Some(Shown {
        answer,
        accepted,
        as_written: wanted.is_empty() || text.as_slice() == wanted,
    })
}

/// Whether a run of these texts shows this answer, and where it is `Proved` lines that are accepted and have this text.
pub(crate) fn runs_as(
    alloc: Global,
    rows: &[u8],
    goal: &[u8],
    answer: Answer,
    wanted: &[u8],
) -> Option<bool> {
    let context = context_of(alloc, rows)?;
    let goal = form_of(alloc, goal)?;
    let shown = run_of(alloc, &context, &goal, wanted)?;
    let accepted = shown.accepted == (answer == Answer::Proved);
    Some(shown.answer == answer && accepted && shown.as_written)
}
