//! The solver's call.
ghost use Rattle.std.specs.Prelude.{◌≡◌, ◌+◌, ◌≤◌, length};
ghost use Rattle.linear_solver.specs.Elimination.{elimination, proof_steps};
ghost use Rattle.linear_solver.specs.Meaning.{lines_meant};
ghost use Rattle.proof_lines.specs.Lines.{LinesProve};
ghost use Rattle.linear_solver.specs.declared.answer.Answer.TheVariants.{Proved};

use crate::answer::Answer;
use crate::forms::{tell_form, tell_forms};
use crate::line_buf::LineBuf;
use index_sorts::Context;
use xan_lin::Form;
use xan_pool::RowPool;

/// Whether the goal follows from the rows of the context, as far as the elimination finds out. It takes no memory: the pool lends the room
/// for the rows of systems, and the buffer that for all else.
///
/// The answer is that of the elimination, and at `Proved` the buffer holds the steps that show it: the lines that they mean prove the goal.
/// At another answer its steps are left open. The pool's rows are as before.
pub fn refute(pool: &mut RowPool, ctx: &Context, goal: &Form, buf: &mut LineBuf) -> Answer
    requires width { pool.old.width ≡ 65 }
    requires room { length pool.old.rows + 4001 ≤ pool.old.capacity }
    ensures exact { result ≡ elimination ctx.now.rows goal.now }
    ensures steps { result ≡ Proved → buf.new ≡ proof_steps ctx.now.rows goal.now }
    ensures proved { result ≡ Proved → LinesProve ctx.now.rows goal.now (lines_meant ctx.now.rows buf.new) }
    ensures unchanged { pool.new ≡ pool.old }
{
    tell_forms(ctx.rows());
    tell_form(goal);
    match buf.eliminate(pool, ctx.rows(), goal) {
        Ok(answer) => answer,
        Err(kind) => Answer::Limit(kind),
    }
}
