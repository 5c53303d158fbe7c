//! How many places a function has: one for each variable, and temporaries.

ghost use Rattle.std.specs.Prelude.{◌≡◌, suc, ◌+◌, max, map, IfOk};
ghost use Rattle.std.specs.Option.{option_map};
ghost use Rattle.header_elaborator.specs.Links.{link_of};
ghost use Rattle.typed_core.specs.Places as spec;
ghost use Rattle.xanadu_tree.specs.Plain as core;
ghost use Rattle.xanadu_tree.specs.PlainOf.{plain_block, plain_expr, plain_stmt, plain_test, to_exprs, to_links, to_tests};

use crate::error::Failure;
use xanadu_tree::{CoreExpr, CoreStmt, Op, Test};

/// Whether the operand is put into a temporary.
#[tactic(auto, using(xanadu_tree::proofs::Equations::plain_trees))]
fn is_put(e: &CoreExpr) -> bool
    ensures { result ≡ spec.is_put (plain_expr e.now) }
{
    match e {
        CoreExpr::Var(_) => false,
        CoreExpr::Int(_)
        | CoreExpr::Bool(_)
        | CoreExpr::Neg(_)
        | CoreExpr::Chain { .. }
        | CoreExpr::Compare(_, _, _)
        | CoreExpr::Index(_, _, _)
        | CoreExpr::Len(_)
        | CoreExpr::Call { .. }
        | CoreExpr::Make { .. }
        | CoreExpr::New { .. } => true,
    }
}

/// The next depth.
fn deeper(depth: u32) -> Result<u32, Failure>
    ensures { IfOk result (λ next. next ≡ suc depth) }
{
    match depth.checked_add(1) {
        Some(next) => Ok(next),
        None => Err(Failure),
    }
}

/// The next depth behind an operand.
#[tactic(auto, using(xanadu_tree::proofs::Equations::plain_trees))]
fn behind(e: &CoreExpr, depth: u32) -> Result<u32, Failure>
    ensures { IfOk result (λ next. next ≡ spec.behind (plain_expr e.now) depth) }
{
    match e {
        CoreExpr::Var(_) => Ok(depth),
        CoreExpr::Int(_)
        | CoreExpr::Bool(_)
        | CoreExpr::Neg(_)
        | CoreExpr::Chain { .. }
        | CoreExpr::Compare(_, _, _)
        | CoreExpr::Index(_, _, _)
        | CoreExpr::Len(_)
        | CoreExpr::Call { .. }
        | CoreExpr::Make { .. }
        | CoreExpr::New { .. } => deeper(depth),
    }
}

/// Where the next operand of a chain is computed.
fn next_to(left: bool, depth: u32) -> Result<u32, Failure>
    ensures { IfOk result (λ next. next ≡ spec.next_to left depth) }
{
    if left { deeper(depth) } else { Ok(depth) }
}

/// An operand for which so many are named as its value is computed.
#[tactic(auto, using(xanadu_tree::proofs::Equations::plain_trees))]
fn put(e: &CoreExpr, depth: u32, named: u32) -> Result<u32, Failure>
    ensures { IfOk result (λ all. all ≡ spec.put (plain_expr e.now) depth named) }
{
    match e {
        CoreExpr::Var(_) => Ok(0),
        CoreExpr::Int(_)
        | CoreExpr::Bool(_)
        | CoreExpr::Neg(_)
        | CoreExpr::Chain { .. }
        | CoreExpr::Compare(_, _, _)
        | CoreExpr::Index(_, _, _)
        | CoreExpr::Len(_)
        | CoreExpr::Call { .. }
        | CoreExpr::Make { .. }
        | CoreExpr::New { .. } => Ok(deeper(depth)?.max(named)),
    }
}

/// The temporaries that an operand at this depth names.
#[cycle(named)]
fn operand_named(e: &CoreExpr, depth: u32) -> Result<u32, Failure>
    ensures { IfOk result (λ named. named ≡ spec.operand_named (plain_expr e.now) depth) }
{
    put(e, depth, named_by(e, depth)?)
}

/// Those of two operands, where the first names so many.
#[cycle(named)]
fn named_behind(right: &CoreExpr, left: &CoreExpr, named: u32, depth: u32) -> Result<u32, Failure>
    ensures { IfOk result (λ all. all ≡ max named (spec.operand_named (plain_expr right.now) (spec.behind (plain_expr left.now) depth))) }
{
    let second = operand_named(right, behind(left, depth)?)?;
    Ok(named.max(second))
}

/// Those of the value of an expression at this depth.
#[cycle(named)]
#[tactic(auto, using(xanadu_tree::proofs::Equations::plain_trees), unfolding(typed_core::specs::Places::named_by))]
fn named_by(e: &CoreExpr, depth: u32) -> Result<u32, Failure>
    ensures { IfOk result (λ named. named ≡ spec.named_by (plain_expr e.now) depth) }
{
    match e {
        CoreExpr::Int(_) | CoreExpr::Bool(_) | CoreExpr::Var(_) => Ok(0),
        CoreExpr::Neg(inner) => {
            let next = deeper(depth)?;
            Ok(next.max(operand_named(inner, next)?))
        }
        CoreExpr::Chain { first, rest } => {
            let left = operand_named(first, depth)?;
            let right = named_by_links(rest, is_put(first), depth)?;
            Ok(left.max(right))
        }
        CoreExpr::Compare(_, left, right) => {
            named_behind(right, left, operand_named(left, depth)?, depth)
        }
        CoreExpr::Index(array, index, _) => {
            named_behind(index, array, operand_named(array, depth)?, depth)
        }
        CoreExpr::Len(array) => operand_named(array, depth),
        CoreExpr::Call { args, .. } | CoreExpr::Make { args, .. } => {
            named_by_operands(args, depth)
        }
        CoreExpr::New { len, fill, .. } => {
            named_behind(fill, len, operand_named(len, depth)?, depth)
        }
    }
}

/// Those of operands in order.
#[cycle(named)]
#[tactic(auto, using(xanadu_tree::proofs::Equations::plain_trees), unfolding(typed_core::specs::Places::named_by_operands))]
fn named_by_operands(es: &[CoreExpr], depth: u32) -> Result<u32, Failure>
    ensures { IfOk result (λ named. named ≡ spec.named_by_operands (to_exprs (map plain_expr es.now)) depth) }
{
    let mut named = 0;
    let mut at = depth;
    for e in es {
        named = named.max(operand_named(e, at)?);
        at = behind(e, at)?;
    }
    Ok(named)
}

/// Those of the operators of a chain, whose left side is in a temporary or is a variable.
#[cycle(named)]
#[tactic(auto, using(xanadu_tree::proofs::Equations::plain_trees), unfolding(typed_core::specs::Places::named_by_links))]
fn named_by_links(rest: &[(Op, CoreExpr, u32)], left: bool, depth: u32) -> Result<u32, Failure>
    ensures { IfOk result (λ named. named ≡ spec.named_by_links (to_links (map link_of rest.now)) left depth) }
{
    let mut named = 0;
    let mut is_behind = false;
    let mut is_left = left;
    for (_, e, _) in rest {
        if is_behind {
            named = named.max(deeper(depth)?);
        }
        named = named.max(operand_named(e, next_to(is_left, depth)?)?);
        is_left = true;
        is_behind = true;
    }
    Ok(named)
}

/// A comparison jumps on its operands, and any other leaf on its value.
#[tactic(auto, using(xanadu_tree::proofs::Equations::plain_trees))]
fn leaf_named(e: &CoreExpr) -> Result<u32, Failure>
    ensures { IfOk result (λ named. named ≡ spec.leaf_named (plain_expr e.now)) }
{
    match e {
        CoreExpr::Compare(_, _, _) => named_by(e, 0),
        CoreExpr::Int(_)
        | CoreExpr::Bool(_)
        | CoreExpr::Var(_)
        | CoreExpr::Neg(_)
        | CoreExpr::Chain { .. }
        | CoreExpr::Index(_, _, _)
        | CoreExpr::Len(_)
        | CoreExpr::Call { .. }
        | CoreExpr::Make { .. }
        | CoreExpr::New { .. } => operand_named(e, 0),
    }
}

/// Those of a test.
#[cycle(tests)]
#[tactic(auto, using(xanadu_tree::proofs::Equations::plain_trees), unfolding(typed_core::specs::Places::test_named))]
fn test_named(test: &Test) -> Result<u32, Failure>
    ensures { IfOk result (λ named. named ≡ spec.test_named (plain_test test.now)) }
{
    match test {
        Test::Leaf(e) => leaf_named(e),
        Test::All(parts) | Test::Any(parts) => tests_named(parts),
        Test::Not(part) => test_named(part),
    }
}

/// Those of the parts of a test.
#[cycle(tests)]
#[tactic(auto, using(xanadu_tree::proofs::Equations::plain_trees), unfolding(typed_core::specs::Places::tests_named))]
fn tests_named(parts: &[Test]) -> Result<u32, Failure>
    ensures { IfOk result (λ named. named ≡ spec.tests_named (to_tests (map plain_test parts.now))) }
{
    let mut named = 0;
    for part in parts {
        named = named.max(test_named(part)?);
    }
    Ok(named)
}

/// Those of three operands in order.
#[tactic(auto, unfolding(typed_core::specs::Places::named_by_operands))]
fn store_named(array: &CoreExpr, index: &CoreExpr, value: &CoreExpr) -> Result<u32, Failure>
    ensures { IfOk result (λ named. named ≡
        spec.named_by_operands (core.AnExpr (plain_expr array.now) (core.AnExpr (plain_expr index.now) (core.AnExpr (plain_expr value.now) core.NoExpr))) 0) }
{
    let second = behind(array, 0)?;
    let third = behind(index, second)?;
    let first = operand_named(array, 0)?;
    let later = operand_named(index, second)?.max(operand_named(value, third)?);
    Ok(first.max(later))
}

/// Those of a `return`.
fn return_named(value: &Option<CoreExpr>) -> Result<u32, Failure>
    ensures { IfOk result (λ named. named ≡ spec.return_named (option_map plain_expr value.now)) }
{
    match value {
        None => Ok(1),
        Some(e) => operand_named(e, 0),
    }
}

/// Those of a test, and of blocks that name so many.
fn with_test(test: &Test, named: u32) -> Result<u32, Failure>
    ensures { IfOk result (λ all. all ≡ max (spec.test_named (plain_test test.now)) named) }
{
    Ok(test_named(test)?.max(named))
}

/// Those of a block, behind one that names so many.
#[cycle(statements)]
fn with_block(block: &[CoreStmt], named: u32) -> Result<u32, Failure>
    ensures { IfOk result (λ all. all ≡ max named (spec.statements_named (plain_block block.now))) }
{
    Ok(named.max(statements_named(block)?))
}

/// Those of a statement.
#[cycle(statements)]
#[tactic(auto, using(xanadu_tree::proofs::Equations::plain_trees), unfolding(typed_core::specs::Places::statement_named))]
fn statement_named(statement: &CoreStmt) -> Result<u32, Failure>
    ensures { IfOk result (λ named. named ≡ spec.statement_named (plain_stmt statement.now)) }
{
    match statement {
        CoreStmt::Set(_, e) => named_by(e, 0),
        CoreStmt::Split(_, e, _) | CoreStmt::Print(e) => operand_named(e, 0),
        CoreStmt::Store(array, index, value, _) => store_named(array, index, value),
        CoreStmt::Do(call) => Ok(named_by(call, 0)?.max(1)),
        CoreStmt::If {
            test,
            on_true,
            on_false,
            ..
        } => with_test(test, with_block(on_false, statements_named(on_true)?)?),
        CoreStmt::While { test, body, .. } => with_test(test, statements_named(body)?),
        CoreStmt::Return(value, _) => return_named(value),
    }
}

/// Those of a block.
#[cycle(statements)]
#[tactic(auto, using(xanadu_tree::proofs::Equations::plain_trees), unfolding(typed_core::specs::Places::statements_named))]
fn statements_named(block: &[CoreStmt]) -> Result<u32, Failure>
    ensures { IfOk result (λ named. named ≡ spec.statements_named (plain_block block.now)) }
{
    let mut named = 0;
    for statement in block {
        named = named.max(statement_named(statement)?);
    }
    Ok(named)
}

/// How many places a function has, by how many variables it has and its body.
pub fn places_of(variables: usize, body: &[CoreStmt]) -> Result<u64, Failure>
    ensures { IfOk result (λ places. places ≡ variables + spec.statements_named (plain_block body.now)) }
{
    let named = statements_named(body)?;
    match (variables as u64).checked_add(u64::from(named)) {
        Some(places) => Ok(places),
        None => Err(Failure),
    }
}
