//! A goal over and over.

use crate::systems::{chain, curve, difference};
use index_sorts::Context;
use linear_solver::{Answer, LineBuf, refute};
use std::alloc::Global;
use xan_lin::Form;
use xan_pool::RowPool;

/// How often the goal over a chain of so many variables, or over so many rows of a curve, was proved, unless memory runs out or the size is past
/// what a context takes.
pub fn goals_proved(alloc: Global, chained: bool, size: u32, times: u32) -> Option<u64> {
    if chained {
        let goal = difference(0, size.checked_sub(1)?)?;
        times_proved(alloc, &chain(alloc, size)?, &goal, times)
    } else {
        times_proved(alloc, &curve(alloc, size)?, &Form::variable(0), times)
    }
}

/// How often the goal is proved of so many times, with one pool and one buffer for all, unless memory runs out.
fn times_proved(alloc: Global, context: &Context, goal: &Form, times: u32) -> Option<u64> {
    let mut pool = RowPool::new(alloc, 4001, 65).ok()?;
    let mut buf = LineBuf::new(alloc).ok()?;
    let mut proved = 0u64;
    for _ in 0..times {
        if refute(&mut pool, context, goal, &mut buf) == Answer::Proved {
            proved = proved.saturating_add(1);
        }
    }
    Some(proved)
}
