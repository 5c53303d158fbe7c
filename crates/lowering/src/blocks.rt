//! Which blocks complete, and how many instructions statements have.

ghost use Rattle.std.specs.Option.{option_map};
ghost use Rattle.std.specs.Prelude.{◌≡◌, IfOk};
ghost use Rattle.lowering.specs.Emitted.{result_of_last};
ghost use Rattle.lowering.specs.StatementCode as spec;
ghost use Rattle.xanadu_tree.specs.BodyRules as rules;
ghost use Rattle.xanadu_tree.specs.PlainOf.{plain_block, plain_expr, plain_stmt};

use crate::sizes::{one_if, operand_size, plus, test_size, value_size};
use value_lowering::Stop;
use xanadu_tree::{Clause, CoreExpr, CoreStmt};

/// Whether control can come to what stands behind a statement.
#[cycle(completing)]
#[tactic(auto, using(xanadu_tree::proofs::Equations::plain_trees))]
fn completes(s: &CoreStmt) -> bool
    ensures { result ≡ rules.completes (plain_stmt s.now) }
{
    match s {
        CoreStmt::If {
            on_true,
            on_false,
            ..
        } => {
            let first = completes_all(on_true);
            let second = completes_all(on_false);
            first || second
        }
        CoreStmt::Return(_, _) => false,
        CoreStmt::Set(_, _)
        | CoreStmt::Split(_, _, _)
        | CoreStmt::Store(_, _, _, _)
        | CoreStmt::Do(_)
        | CoreStmt::Print(_)
        | CoreStmt::While { .. } => true,
    }
}

// The same of a statement that has so many others behind it, where only the last one matters.
#[cycle(completing)]
fn completes_last(s: &CoreStmt, many: usize, before: bool) -> bool
    ensures { result ≡ result_of_last many before (rules.completes (plain_stmt s.now)) }
{
    if many == 0 { completes(s) } else { before }
}

/// The same of a block: its end is its last statement's.
#[cycle(completing)]
pub fn completes_all(block: &[CoreStmt]) -> bool
    ensures { result ≡ rules.completes_all (plain_block block.now) }
{
    let mut found = true;
    let mut many = block.len();
    for s in block {
        many -= 1;
        found = completes_last(s, many, found);
    }
    found
}

// Whether something is stated.
fn is_stated(join: &Option<Clause>) -> bool
    ensures { result ≡ spec.is_stated join.now }
{
    match join {
        Some(_) => true,
        None => false,
    }
}

/// Whether there is a label behind both branches.
pub(crate) fn meet(on_true: &[CoreStmt], on_false: &[CoreStmt], join: &Option<Clause>) -> bool
    ensures { result ≡ spec.meet (plain_block on_true.now) (plain_block on_false.now) join.now }
{
    completes_all(on_true) || (is_stated(join) && completes_all(on_false))
}

/// Whether the second branch jumps there.
pub(crate) fn jumps(on_true: &[CoreStmt], on_false: &[CoreStmt], join: &Option<Clause>) -> bool
    ensures { result ≡ spec.jumps (plain_block on_true.now) (plain_block on_false.now) join.now }
{
    completes_all(on_false) && meet(on_true, on_false, join)
}

fn return_size(e: &Option<CoreExpr>) -> Result<u32, Stop>
    ensures { IfOk result (λ size. size ≡ spec.return_size (option_map plain_expr e.now)) }
{
    match e {
        Some(e) => plus(operand_size(e)?, 1),
        None => Ok(2),
    }
}

// How many instructions a statement has.
#[cycle(lengths)]
#[tactic(auto, using(xanadu_tree::proofs::Equations::plain_trees), unfolding(crate::specs::StatementCode::statement_size))]
pub(crate) fn statement_size(s: &CoreStmt) -> Result<u32, Stop>
    ensures { IfOk result (λ size. size ≡ spec.statement_size (plain_stmt s.now)) }
{
    match s {
        CoreStmt::Set(_, e) | CoreStmt::Do(e) => value_size(e),
        CoreStmt::Split(_, e, _) | CoreStmt::Print(e) => plus(operand_size(e)?, 1),
        CoreStmt::Store(array, index, e, _) => {
            let first = operand_size(array)?;
            let second = operand_size(index)?;
            let third = operand_size(e)?;
            plus(first, plus(second, plus(third, 1)?)?)
        }
        CoreStmt::If {
            test,
            on_true,
            on_false,
            join,
            ..
        } => {
            let asked = test_size(test, false)?;
            let first = block_size(on_true)?;
            let second = block_size(on_false)?;
            let end = plus(second, one_if(jumps(on_true, on_false, join)))?;
            let middle = plus(one_if(completes_all(on_true)), end)?;
            plus(asked, plus(first, middle)?)
        }
        CoreStmt::While { test, body, .. } => {
            let asked = test_size(test, false)?;
            let turn = block_size(body)?;
            let end = plus(turn, one_if(completes_all(body)))?;
            plus(plus(asked, end)?, 1)
        }
        CoreStmt::Return(e, _) => return_size(e),
    }
}

/// How many instructions a block has.
#[cycle(lengths)]
#[tactic(auto, using(xanadu_tree::proofs::Equations::plain_trees), unfolding(crate::specs::StatementCode::statement_size))]
pub(crate) fn block_size(block: &[CoreStmt]) -> Result<u32, Stop>
    ensures { IfOk result (λ size. size ≡ spec.block_size (plain_block block.now)) }
{
    let mut size = 0;
    for s in block {
        size = plus(size, statement_size(s)?)?;
    }
    Ok(size)
}
