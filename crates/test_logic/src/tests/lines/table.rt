//! The table.
use crate::tests::lines::cases::{CASES, Case};
use crate::tests::systems::{context_of, form_of};
use index_sorts::Context;
use proof_lines::{BadLine, Line, check_lines, read_lines};
use std::alloc::Global;
use std::test::Fail;
use xan_lin::Form;
use xan_pool::RowPool;

// How many rows the pool of a test has room for.
const ROOM: usize = 100;

/// What the check answers to these lines.
pub(crate) fn answer(
    alloc: Global,
    context: &Context,
    goal: &Form,
    lines: &[Line],
) -> Option<Result<(), BadLine>> {
    let mut pool = RowPool::new(alloc, ROOM, 65).ok()?;
    if lines.len() > ROOM {
        return None;
    }
    let answer = check_lines(&mut pool, context, goal, lines);
    if pool.mark().0 != 0 {
        return None;
    }
    Some(answer)
}

// Whether the check answers as the case says.
fn is_met(alloc: Global, case: &Case) -> Option<bool> {
    let context = context_of(alloc, case.0)?;
    let goal = form_of(alloc, case.1)?;
    let lines = read_lines(alloc, case.2).ok()?;
    Some(answer(alloc, &context, &goal, lines.as_slice())? == case.3)
}

#[test]
fn the_table_of_lines_is_met(rt: HostRuntime) -> Result<(), Fail> {
    for (at, case) in CASES.iter().enumerate() {
        assert!(rt; is_met(rt.alloc(), case) == Some(true), "case {at}");
    }
    Ok(())
}
