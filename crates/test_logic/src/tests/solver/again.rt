//! A thousand goals in one pool and buffer.
ghost use Rattle.std.specs.Prelude.{◌≡◌, ◌+◌, ◌≤◌, length};

use crate::tests::solver::cases::CASES;
use crate::tests::solver::room::{held_pool, is_held};
use crate::tests::systems::{context_of, form_of};
use linear_solver::{Answer, LineBuf, refute};
use std::alloc::Global;
use std::test::Fail;
use xan_pool::RowPool;

// The answer to the goal of two texts, in this pool and buffer.
fn answer_in(
    alloc: Global,
    pool: &mut RowPool,
    buf: &mut LineBuf,
    rows: &[u8],
    goal: &[u8],
) -> Option<Answer>
    requires width { pool.old.width ≡ 65 }
    requires room { length pool.old.rows + 4001 ≤ pool.old.capacity }
    ensures { pool.new ≡ pool.old }
{
    let context = context_of(alloc, rows)?;
    let goal = form_of(alloc, goal)?;
    Some(refute(pool, &context, &goal, buf))
}

// How many goals of the table have their answers, and leave the pool's row as it was.
fn count_met(alloc: Global, pool: &mut RowPool, buf: &mut LineBuf) -> usize
    requires width { pool.old.width ≡ 65 }
    requires room { length pool.old.rows + 4001 ≤ pool.old.capacity }
    ensures { pool.new ≡ pool.old }
{
    let mut met: usize = 0;
    for (rows, goal, wanted, _lines) in CASES {
        if answer_in(alloc, pool, buf, rows, goal) == Some(*wanted) && is_held(pool) {
            met = met.saturating_add(1);
        }
    }
    met
}

// How many are so of the table taken so many times.
fn count_met_again(alloc: Global, times: usize) -> Option<usize> {
    let mut pool = held_pool(alloc)?;
    let mut buf = LineBuf::new(alloc).ok()?;
    let mut met: usize = 0;
    for _ in 0..times {
        met = met.saturating_add(count_met(alloc, &mut pool, &mut buf));
    }
    Some(met)
}

#[test]
fn a_thousand_goals(rt: HostRuntime) -> Result<(), Fail> {
    let met = count_met_again(rt.alloc(), 20);
    assert!(rt; CASES.len() >= 50);
    assert!(rt; met == Some(CASES.len() * 20));
    Ok(())
}
