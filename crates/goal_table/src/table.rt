//! The walk over the goals.

ghost use Rattle.std.specs.Prelude.{◌≡◌, ◌+◌, ◌≤◌, length, IfOk};
ghost use Rattle.goal_table.specs.Unproved.{answer_to};
ghost use Rattle.goal_table.specs.Answers.{Decides, Proves, FindsFirst, AreShort, MeansLines, Tells};

use crate::error::GoalError;
use linear_solver::{Answer, LineBuf, refute};
use proof_lines::Line;
use std::alloc::Global;
use typed_core::{Elaborated, GoalAt, Proved};
use xan_pool::RowPool;
use xan_seq::Seq;

/// What the elimination answers to a goal, from the rows of its context. It takes no memory; the pool's rows are as before.
pub fn answer(goal: &GoalAt, pool: &mut RowPool, buf: &mut LineBuf) -> Answer
    requires width { pool.old.width ≡ 65 }
    requires room { length pool.old.rows + 4001 ≤ pool.old.capacity }
    ensures answer { result ≡ answer_to goal.now }
    ensures unchanged { pool.new ≡ pool.old }
{
    refute(pool, &goal.ctx, &goal.row, buf)
}

/// The program with the lines of its goals, if the elimination proves each of them; else the first goal that it does not prove. Each list has
/// at most 257,026 lines. The pool's rows are as before.
pub fn prove_all(
    alloc: Global,
    base: Elaborated,
    pool: &mut RowPool,
    buf: &mut LineBuf,
) -> Result<Proved, GoalError>
    requires width { pool.old.width ≡ 65 }
    requires room { length pool.old.rows + 4001 ≤ pool.old.capacity }
    ensures exact { Decides base result }
    ensures short { IfOk result (λ proved. AreShort proved.lines) }
    ensures unchanged { pool.new ≡ pool.old }
{
    let lines = prove_goals(alloc, base.goals(), pool, buf)?;
    Ok(Proved::new(base, lines))
}

// The lines of each goal, or the first goal that is not proved.
fn prove_goals(
    alloc: Global,
    goals: &[GoalAt],
    pool: &mut RowPool,
    buf: &mut LineBuf,
) -> Result<Seq<Seq<Line>>, GoalError>
    requires width { pool.old.width ≡ 65 }
    requires room { length pool.old.rows + 4001 ≤ pool.old.capacity }
    ensures exact { FindsFirst goals.now result }
    ensures unchanged { pool.new ≡ pool.old }
{
    let mut proved = Vec::new(alloc);
    'goals: for (number, goal) in goals.iter().enumerate() {
        let lines = prove_goal(alloc, number, goal, pool, buf)?;
        let Ok(()) = proved.push(lines) else {
            return Err(GoalError::Memory);
        };
    }
    Ok(Seq::from_vec(proved))
}

// The lines of one goal, before which so many stand.
fn prove_goal(
    alloc: Global,
    number: usize,
    goal: &GoalAt,
    pool: &mut RowPool,
    buf: &mut LineBuf,
) -> Result<Seq<Line>, GoalError>
    requires width { pool.old.width ≡ 65 }
    requires room { length pool.old.rows + 4001 ≤ pool.old.capacity }
    ensures exact { Proves number goal.now result }
    ensures unchanged { pool.new ≡ pool.old }
{
    match refute(pool, &goal.ctx, &goal.row, buf) {
        Answer::Proved => lines_of(alloc, goal, buf),
        other => Err(unproved(number, goal, other)),
    }
}

// The lines that the buffer's steps mean, which prove the goal.
fn lines_of(alloc: Global, goal: &GoalAt, buf: &LineBuf) -> Result<Seq<Line>, GoalError>
    ensures { MeansLines goal.now buf.now result }
{
    // (a buffer never has more steps than it has room for)
    let _few = buf.steps();
    match buf.lines(alloc, &goal.ctx) {
        Ok(lines) => Ok(Seq::from_vec(lines)),
        Err(_) => Err(GoalError::Memory),
    }
}

// What is said of a goal that is not proved. More goals than a number of 32 bits counts have no memory.
fn unproved(number: usize, goal: &GoalAt, answer: Answer) -> GoalError
    ensures { Tells number goal.now answer result }
{
    let Ok(number) = u32::try_from(number) else {
        return GoalError::Memory;
    };
    GoalError::Goal {
        number,
        at: goal.at,
        row: goal.row.copy(),
        answer,
    }
}
