//! The code of expressions.

ghost use Rattle.std.specs.Prelude.{◌≡◌, ◌++◌, [], ◌∷◌, IfOk, map, pos};
ghost use Rattle.value_lowering.specs.ChainParts.{link_of, result_of};
ghost use Rattle.value_lowering.specs.Frames.{operand_place};
ghost use Rattle.value_lowering.specs.OneInstruction as one;
ghost use Rattle.value_lowering.specs.ValueCode as spec;
ghost use Rattle.typed_core.specs.Places as places;
ghost use Rattle.xanadu_tree.specs.PlainOf.{plain_expr, to_exprs, to_links};

use crate::emitting::{Stop, emit, emit_with, temporary, variable};
use std::alloc::Global;
use three_address::{LowInstr, Op22};
use xanadu_tree::{CoreExpr, Op, Rel};

/// The number of a comparison: `a > b` is `b < a`, and `a >= b` is `b <= a`.
pub fn comparison(rel: Rel) -> i64
    ensures { result ≡ one.comparison rel }
{
    match rel {
        Rel::Lt | Rel::Gt => 0,
        Rel::Le | Rel::Ge => 1,
        Rel::Eq => 2,
        Rel::Ne => 3,
    }
}

/// Two places as a comparison takes them.
pub fn in_order(rel: Rel, left: u16, right: u16) -> (u16, u16)
    ensures { result.0 ∷ result.1 ∷ [] ≡ one.in_order rel left right }
{
    match rel {
        Rel::Lt | Rel::Le | Rel::Eq | Rel::Ne => (left, right),
        Rel::Gt | Rel::Ge => (right, left),
    }
}

// A comparison of two places.
fn compared(
    alloc: Global,
    code: &mut Vec<LowInstr>,
    rel: Rel,
    to: u16,
    left: u16,
    right: u16,
) -> Result<(), Stop>
    ensures { IfOk result (λ _. code.new.items ≡ code.old.items ++ one.compared rel to left right ∷ []) }
{
    let (first, second) = in_order(rel, left, right);
    emit(
        alloc,
        code,
        Op22::Set,
        &[to, first, second],
        &comparison(rel),
        0,
    )
}

fn op_of(op: Op) -> Op22
    ensures { result ≡ one.op_of op }
{
    match op {
        Op::Add => Op22::Add,
        Op::Sub => Op22::Sub,
        Op::Mul => Op22::Mul,
        Op::Div => Op22::Div,
        Op::Mod => Op22::Mod,
    }
}

// Whether the operand is put into a temporary.
#[tactic(auto, using(xanadu_tree::proofs::Equations::plain_trees))]
fn is_put(e: &CoreExpr) -> bool
    ensures { result ≡ places.is_put (plain_expr e.now) }
{
    match e {
        CoreExpr::Var(_) => false,
        CoreExpr::Int(_)
        | CoreExpr::Bool(_)
        | CoreExpr::Neg(_)
        | CoreExpr::Chain { .. }
        | CoreExpr::Compare(_, _, _)
        | CoreExpr::Index(_, _, _)
        | CoreExpr::Len(_)
        | CoreExpr::Call { .. }
        | CoreExpr::Make { .. }
        | CoreExpr::New { .. } => true,
    }
}

/// The next depth behind an operand.
#[tactic(auto, using(xanadu_tree::proofs::Equations::plain_trees))]
pub fn behind(e: &CoreExpr, depth: u16) -> Result<u16, Stop>
    ensures { IfOk result (λ next. next ≡ places.behind (plain_expr e.now) depth) }
{
    match e {
        CoreExpr::Var(_) => Ok(depth),
        CoreExpr::Int(_)
        | CoreExpr::Bool(_)
        | CoreExpr::Neg(_)
        | CoreExpr::Chain { .. }
        | CoreExpr::Compare(_, _, _)
        | CoreExpr::Index(_, _, _)
        | CoreExpr::Len(_)
        | CoreExpr::Call { .. }
        | CoreExpr::Make { .. }
        | CoreExpr::New { .. } => temporary(depth, 1),
    }
}

// Where the next operand of a chain is computed.
fn next_to(left: bool, depth: u16) -> Result<u16, Stop>
    ensures { IfOk result (λ next. next ≡ places.next_to left depth) }
{
    if left { temporary(depth, 1) } else { Ok(depth) }
}

/// An operand at a depth, and its place.
#[cycle(values)]
#[tactic(auto, using(xanadu_tree::proofs::Equations::plain_trees, crate::proofs::EmittedCode::emitted))]
pub fn operand(
    e: &CoreExpr,
    alloc: Global,
    vars: u16,
    depth: u16,
    code: &mut Vec<LowInstr>,
) -> Result<u16, Stop>
    ensures place { IfOk result (λ place. place ≡ operand_place vars (plain_expr e.now) depth) }
    ensures code { IfOk result (λ _. code.new.items ≡ code.old.items ++ spec.operand_at vars (plain_expr e.now) depth) }
{
    match e {
        CoreExpr::Var(x) => variable(*x),
        CoreExpr::Int(_)
        | CoreExpr::Bool(_)
        | CoreExpr::Neg(_)
        | CoreExpr::Chain { .. }
        | CoreExpr::Compare(_, _, _)
        | CoreExpr::Index(_, _, _)
        | CoreExpr::Len(_)
        | CoreExpr::Call { .. }
        | CoreExpr::Make { .. }
        | CoreExpr::New { .. } => {
            let place = temporary(vars, depth)?;
            value(e, alloc, vars, depth, place, code)?;
            Ok(place)
        }
    }
}

/// The value of an expression at a depth, into a place.
#[cycle(values)]
#[tactic(auto, using(xanadu_tree::proofs::Equations::plain_trees, crate::proofs::EmittedCode::emitted), unfolding(crate::specs::ValueCode::value_code))]
pub fn value(
    e: &CoreExpr,
    alloc: Global,
    vars: u16,
    depth: u16,
    to: u16,
    code: &mut Vec<LowInstr>,
) -> Result<(), Stop>
    ensures { IfOk result (λ _. code.new.items ≡ code.old.items ++ spec.value_code vars (plain_expr e.now) depth to) }
{
    match e {
        CoreExpr::Int(n) => emit(alloc, code, Op22::Li, &[to], n, 0),
        CoreExpr::Bool(truth) => emit(alloc, code, Op22::Lb, &[to], &i64::from(*truth), 0),
        CoreExpr::Var(x) => {
            let from = variable(*x)?;
            emit(alloc, code, Op22::Mv, &[to, from], &0, 0)
        }
        CoreExpr::Neg(inner) => {
            let zero = temporary(vars, depth)?;
            emit(alloc, code, Op22::Li, &[zero], &0, 0)?;
            let next = temporary(depth, 1)?;
            let place = operand(inner, alloc, vars, next, code)?;
            emit(alloc, code, Op22::Sub, &[to, zero, place], &0, 0)
        }
        CoreExpr::Chain { first, rest } => {
            let left = operand(first, alloc, vars, depth, code)?;
            let next = next_to(is_put(first), depth)?;
            links(rest, alloc, vars, next, left, depth, to, code)
        }
        CoreExpr::Compare(rel, left, right) => {
            let first = operand(left, alloc, vars, depth, code)?;
            let next = behind(left, depth)?;
            let second = operand(right, alloc, vars, next, code)?;
            compared(alloc, code, *rel, to, first, second)
        }
        CoreExpr::Index(array, index, _) => {
            let first = operand(array, alloc, vars, depth, code)?;
            let next = behind(array, depth)?;
            let second = operand(index, alloc, vars, next, code)?;
            emit(alloc, code, Op22::Ld, &[to, first, second], &0, 0)
        }
        CoreExpr::Len(array) => {
            let place = operand(array, alloc, vars, depth, code)?;
            emit(alloc, code, Op22::Len, &[to, place], &0, 0)
        }
        CoreExpr::Call { fun, args, .. } => {
            let found = operands(args, alloc, vars, depth, code)?;
            emit_with(alloc, code, Op22::Call, to, found.as_slice(), 0, *fun)
        }
        CoreExpr::Make { ty, args, .. } => {
            let found = operands(args, alloc, vars, depth, code)?;
            emit_with(alloc, code, Op22::Tup, to, found.as_slice(), *ty, 0)
        }
        CoreExpr::New { ty, len, fill, .. } => {
            let first = operand(len, alloc, vars, depth, code)?;
            let next = behind(len, depth)?;
            let second = operand(fill, alloc, vars, next, code)?;
            emit_with(alloc, code, Op22::New, to, &[first, second], *ty, 0)
        }
    }
}

// Operands in order, and their places.
#[cycle(values)]
#[tactic(auto, using(xanadu_tree::proofs::Equations::plain_trees, crate::proofs::EmittedCode::emitted), unfolding(crate::specs::ValueCode::value_code, crate::specs::ValueCode::operand_places))]
fn operands(
    es: &[CoreExpr],
    alloc: Global,
    vars: u16,
    depth: u16,
    code: &mut Vec<LowInstr>,
) -> Result<Vec<u16>, Stop>
    ensures places { IfOk result (λ found. found.items ≡ spec.operand_places vars (to_exprs (map plain_expr es.now)) depth) }
    ensures code { IfOk result (λ _. code.new.items ≡ code.old.items ++ spec.operands_code vars (to_exprs (map plain_expr es.now)) depth) }
{
    let mut found = Vec::new(alloc);
    let mut next = depth;
    for e in es {
        let place = operand(e, alloc, vars, next, code)?;
        if found.push(place).is_err() {
            return Err(Stop::Memory);
        }
        next = behind(e, next)?;
    }
    Ok(found)
}

// Where the result of an operator goes that has so many others behind it.
fn result_place(many: usize, between: u16, to: u16) -> u16
    ensures { result ≡ result_of many between to }
{
    if many == 0 { to } else { between }
}

// The operators of a chain at a depth, whose left side is in a place and whose next operand is taken at another depth.
#[cycle(values)]
#[tactic(auto, using(xanadu_tree::proofs::Equations::plain_trees, crate::proofs::EmittedCode::emitted), unfolding(crate::specs::ValueCode::value_code))]
fn links(
    rest: &[(Op, CoreExpr, u32)],
    alloc: Global,
    vars: u16,
    next: u16,
    left: u16,
    depth: u16,
    to: u16,
    code: &mut Vec<LowInstr>,
) -> Result<(), Stop>
    ensures { IfOk result (λ _. code.new.items ≡ code.old.items ++ spec.links_code vars (to_links (map link_of rest.now)) next left depth to) }
{
    let between = temporary(vars, depth)?;
    let deeper = temporary(depth, 1)?;
    let mut at = next;
    let mut from = left;
    let mut many = rest.len();
    for (op, e, _) in rest {
        many -= 1;
        let right = operand(e, alloc, vars, at, code)?;
        let result = result_place(many, between, to);
        emit(alloc, code, op_of(*op), &[result, from, right], &0, 0)?;
        from = between;
        at = deeper;
    }
    Ok(())
}
