//! Statements: what they leave to do.

ghost use Rattle.std.specs.Prelude.{◌≡◌, ◌∷◌, [], map, pos, IfOk};
ghost use Rattle.source_values.specs.Halts.{Gives};
ghost use Rattle.source_evaluator.specs.Steps as spec;
ghost use Rattle.source_evaluator.specs.Views.{state_of};
ghost use Rattle.source_evaluator.specs.Work.{Statements};
ghost use Rattle.xanadu_tree.specs.PlainOf.{plain_block, plain_stmt};

use crate::machine::{Machine, push_four, push_one, push_two};
use crate::tasks::Task;
use source_values::Value;
use std::alloc::AllocError;
use xanadu_tree::CoreStmt;

/// Begins a statement.
#[tactic(auto, using(xanadu_tree::proofs::Equations::plain_trees), unfolding(crate::specs::Steps::begun))]
fn begin<'a>(statement: &'a CoreStmt, m: &mut Machine<'a>) -> Result<(), AllocError>
    ensures { IfOk result (λ _. state_of m.new ≡ spec.begun (plain_stmt statement.now) (state_of m.old)) }
{
    match statement {
        CoreStmt::Set(x, e) => push_two(Task::Operand(e), Task::SetTo(*x), &mut m.work),
        CoreStmt::Split(xs, e, _) => push_two(
            Task::Operand(e),
            Task::SplitTo(xs.as_slice()),
            &mut m.work,
        ),
        CoreStmt::Store(array, index, value, _) => push_four(
            Task::Operand(array),
            Task::Operand(index),
            Task::Operand(value),
            Task::PutCell,
            &mut m.work,
        ),
        CoreStmt::Do(e) => push_two(Task::Operand(e), Task::Forget, &mut m.work),
        CoreStmt::Print(e) => push_two(Task::Operand(e), Task::Say, &mut m.work),
        CoreStmt::If {
            test,
            on_true,
            on_false,
            ..
        } => push_two(
            Task::Decide(test),
            Task::Choose(on_true, on_false),
            &mut m.work,
        ),
        CoreStmt::While { test, body, .. } => push_one(Task::Loop(test, body), &mut m.work),
        CoreStmt::Return(value, _) => match value {
            None => {
                push_one(Task::GiveBack, &mut m.work)?;
                m.values.push(Value::number(&0))
            }
            Some(e) => push_two(Task::Operand(e), Task::GiveBack, &mut m.work),
        },
    }
}

/// Statements come before all else.
fn push_block<'a>(statements: &'a [CoreStmt], m: &mut Machine<'a>) -> Result<(), AllocError>
    ensures { IfOk result (λ _. state_of m.new ≡ spec.doing (Statements (plain_block statements.now) ∷ []) (state_of m.old)) }
{
    push_one(Task::Statements(statements), &mut m.work)
}

/// Begins the first of statements.
#[tactic(auto, using(crate::proofs::Firsts::no_statements))]
pub(crate) fn begin_block<'a>(
    statements: &'a [CoreStmt],
    m: &mut Machine<'a>,
) -> Result<(), AllocError>
    ensures { IfOk result (λ _. state_of m.new ≡ spec.statements (plain_block statements.now) (state_of m.old)) }
{
    let [statement, others @ ..] = statements else {
        return Ok(());
    };
    push_block(others, m)?;
    begin(statement, m)?;
    Ok(())
}
