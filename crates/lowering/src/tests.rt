//! The code of tests, and the positions of their labels.

ghost use Rattle.std.specs.Prelude.{◌≡◌, ◌++◌, [], ◌∷◌, IfOk, map};
ghost use Rattle.lowering.specs.Emitted.{aim_of, turn_of};
ghost use Rattle.value_lowering.specs.OneInstruction as one;
ghost use Rattle.lowering.specs.TestCode as spec;
ghost use Rattle.xanadu_tree.specs.PlainOf.{plain_expr, plain_test, to_tests};

use crate::sizes::{inner_on, one_if, parts_size, plus, test_size, turn};
use std::alloc::Global;
use three_address::{LowInstr, Op22};
use value_lowering::{Stop, behind, comparison, emit, in_order, operand};
use xanadu_tree::{CoreExpr, Rel, Test};

// The comparison that holds where this one does not.
fn opposite(rel: Rel) -> Rel
    ensures { result ≡ one.opposite rel }
{
    match rel {
        Rel::Lt => Rel::Ge,
        Rel::Le => Rel::Gt,
        Rel::Gt => Rel::Le,
        Rel::Ge => Rel::Lt,
        Rel::Eq => Rel::Ne,
        Rel::Ne => Rel::Eq,
    }
}

// The comparison that holds where this one is so.
fn that_is(on: bool, rel: Rel) -> Rel
    ensures { result ≡ one.that_is on rel }
{
    if on { rel } else { opposite(rel) }
}

// A branch on two places.
fn branch(
    alloc: Global,
    code: &mut Vec<LowInstr>,
    on: bool,
    to: u32,
    rel: Rel,
    left: u16,
    right: u16,
) -> Result<(), Stop>
    ensures { IfOk result (λ _. code.new.items ≡ code.old.items ++ one.branch (aim_of on to) rel left right ∷ []) }
{
    let rel = that_is(on, rel);
    let (first, second) = in_order(rel, left, right);
    emit(
        alloc,
        code,
        Op22::Br,
        &[first, second],
        &comparison(rel),
        to,
    )
}

// A branch on a truth value.
fn truth_branch(
    alloc: Global,
    code: &mut Vec<LowInstr>,
    on: bool,
    to: u32,
    place: u16,
) -> Result<(), Stop>
    ensures { IfOk result (λ _. code.new.items ≡ code.old.items ++ one.truth_branch (aim_of on to) place ∷ []) }
{
    let op = if on { Op22::Bt } else { Op22::Bf };
    emit(alloc, code, op, &[place], &0, to)
}

// A leaf of a test.
#[tactic(auto, using(xanadu_tree::proofs::Equations::plain_trees, value_lowering::proofs::EmittedCode::emitted))]
fn leaf(
    e: &CoreExpr,
    alloc: Global,
    vars: u16,
    on: bool,
    to: u32,
    code: &mut Vec<LowInstr>,
) -> Result<(), Stop>
    ensures { IfOk result (λ _. code.new.items ≡ code.old.items ++ spec.leaf_code vars (aim_of on to) (plain_expr e.now)) }
{
    match e {
        CoreExpr::Compare(rel, left, right) => {
            let first = operand(left, alloc, vars, 0, code)?;
            let next = behind(left, 0)?;
            let second = operand(right, alloc, vars, next, code)?;
            branch(alloc, code, on, to, *rel, first, second)
        }
        CoreExpr::Int(_)
        | CoreExpr::Bool(_)
        | CoreExpr::Var(_)
        | CoreExpr::Neg(_)
        | CoreExpr::Chain { .. }
        | CoreExpr::Index(_, _, _)
        | CoreExpr::Len(_)
        | CoreExpr::Call { .. }
        | CoreExpr::Make { .. }
        | CoreExpr::New { .. } => {
            let place = operand(e, alloc, vars, 0, code)?;
            truth_branch(alloc, code, on, to, place)
        }
    }
}

// Where each part but the last goes.
fn inner_to(crossed: bool, to: u32, past: u32) -> u32
    ensures { result ≡ spec.inner_to crossed to past }
{
    if crossed { past } else { to }
}

// Where a part goes that has so many others behind it.
fn turn_to(many: usize, inner: u32, last: u32) -> u32
    ensures { result ≡ turn_of many inner last }
{
    if many == 0 { last } else { inner }
}

// The position behind parts and a jump.
fn past_parts(parts: &[Test], crossed: bool, on: bool, at: u32) -> Result<u32, Stop>
    ensures { IfOk result (λ past. past ≡ spec.past_parts crossed on (to_tests (map plain_test parts.now)) at) }
{
    let size = parts_size(parts, inner_on(crossed, on), on)?;
    plus(plus(at, size)?, one_if(crossed))
}

/// A jump that stands where it is so.
pub(crate) fn jump_if(
    alloc: Global,
    so: bool,
    to: u32,
    code: &mut Vec<LowInstr>,
) -> Result<(), Stop>
    ensures { IfOk result (λ _. code.new.items ≡ code.old.items ++ one.jump_if so to) }
{
    if !so {
        return Ok(());
    }
    emit(alloc, code, Op22::Jmp, &[], &0, to)
}

/// A label that stands where it is so.
pub(crate) fn label_if(so: bool, at: u32, labels: &mut Vec<u32>) -> Result<(), Stop>
    ensures { IfOk result (λ _. labels.new.items ≡ labels.old.items ++ one.label_if so at) }
{
    if !so {
        return Ok(());
    }
    let Ok(()) = labels.push(at) else {
        return Err(Stop::Memory);
    };
    Ok(())
}

/// A test, which goes to a position where it is as asked. It stands at another position.
#[cycle(test_code)]
#[tactic(auto, using(xanadu_tree::proofs::Equations::plain_trees, value_lowering::proofs::EmittedCode::emitted), unfolding(crate::specs::TestCode::test_code, crate::specs::TestCode::test_labels))]
pub(crate) fn test(
    t: &Test,
    alloc: Global,
    vars: u16,
    on: bool,
    to: u32,
    at: u32,
    code: &mut Vec<LowInstr>,
    labels: &mut Vec<u32>,
) -> Result<(), Stop>
    ensures code { IfOk result (λ _. code.new.items ≡ code.old.items ++ spec.test_code vars (aim_of on to) (plain_test t.now) at) }
    ensures labels { IfOk result (λ _. labels.new.items ≡ labels.old.items ++ spec.test_labels on (plain_test t.now) at) }
{
    match t {
        Test::Leaf(e) => leaf(e, alloc, vars, on, to, code),
        Test::All(parts) => {
            let past = past_parts(parts, on, on, at)?;
            let (asked, goes) = (inner_on(on, on), inner_to(on, to, past));
            all(parts, alloc, vars, asked, goes, on, to, at, code, labels)?;
            jump_if(alloc, on, past, code)?;
            label_if(on, past, labels)
        }
        Test::Any(parts) => {
            let past = past_parts(parts, !on, on, at)?;
            let (asked, goes) = (inner_on(!on, on), inner_to(!on, to, past));
            all(parts, alloc, vars, asked, goes, on, to, at, code, labels)?;
            jump_if(alloc, !on, past, code)?;
            label_if(!on, past, labels)
        }
        Test::Not(part) => test(part, alloc, vars, !on, to, at, code, labels),
    }
}

// The parts of a test, each but the last with one aim, and the last one with another.
#[cycle(test_code)]
#[tactic(auto, using(xanadu_tree::proofs::Equations::plain_trees, value_lowering::proofs::EmittedCode::emitted), unfolding(crate::specs::TestCode::test_code, crate::specs::TestCode::test_labels))]
fn all(
    parts: &[Test],
    alloc: Global,
    vars: u16,
    inner: bool,
    inner_to: u32,
    last: bool,
    last_to: u32,
    at: u32,
    code: &mut Vec<LowInstr>,
    labels: &mut Vec<u32>,
) -> Result<(), Stop>
    ensures code { IfOk result (λ _. code.new.items
        ≡ code.old.items ++ spec.parts_code vars (aim_of inner inner_to) (aim_of last last_to) (to_tests (map plain_test parts.now)) at) }
    ensures labels { IfOk result (λ _. labels.new.items ≡ labels.old.items ++ spec.parts_labels inner last (to_tests (map plain_test parts.now)) at) }
{
    let mut here = at;
    let mut many = parts.len();
    for part in parts {
        many -= 1;
        let asked = turn(many, inner, last);
        let goes = turn_to(many, inner_to, last_to);
        test(part, alloc, vars, asked, goes, here, code, labels)?;
        let size = test_size(part, asked)?;
        here = plus(here, size)?;
    }
    Ok(())
}
