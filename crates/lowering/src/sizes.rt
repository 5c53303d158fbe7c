//! How many instructions the code of a part of a core has.

ghost use Rattle.std.specs.Prelude.{◌≡◌, ◌+◌, IfOk, map};
ghost use Rattle.lowering.specs.Emitted.{turn_of};
ghost use Rattle.value_lowering.specs.ChainParts.{link_of};
ghost use Rattle.value_lowering.specs.OneInstruction as one;
ghost use Rattle.lowering.specs.TestCode as tests;
ghost use Rattle.value_lowering.specs.ValueCode as values;
ghost use Rattle.xanadu_tree.specs.PlainOf.{plain_expr, plain_test, to_exprs, to_links, to_tests};

use value_lowering::Stop;
use xanadu_tree::{CoreExpr, Op, Test};

/// The sum of two sizes.
pub(crate) fn plus(left: u32, right: u32) -> Result<u32, Stop>
    ensures { IfOk result (λ sum. sum ≡ left + right) }
{
    match left.checked_add(right) {
        Some(sum) => Ok(sum),
        None => Err(Stop::Large),
    }
}

/// 1 where it is so, and else 0.
pub(crate) fn one_if(so: bool) -> u32
    ensures { result ≡ one.one_if so }
{
    if so { 1 } else { 0 }
}

// An operand that is a variable has none.
#[cycle(sizes)]
#[tactic(auto, using(xanadu_tree::proofs::Equations::plain_trees))]
pub(crate) fn operand_size(e: &CoreExpr) -> Result<u32, Stop>
    ensures { IfOk result (λ size. size ≡ values.size_at (plain_expr e.now)) }
{
    match e {
        CoreExpr::Var(_) => Ok(0),
        CoreExpr::Int(_)
        | CoreExpr::Bool(_)
        | CoreExpr::Neg(_)
        | CoreExpr::Chain { .. }
        | CoreExpr::Compare(_, _, _)
        | CoreExpr::Index(_, _, _)
        | CoreExpr::Len(_)
        | CoreExpr::Call { .. }
        | CoreExpr::Make { .. }
        | CoreExpr::New { .. } => value_size(e),
    }
}

#[cycle(sizes)]
#[tactic(auto, using(xanadu_tree::proofs::Equations::plain_trees), unfolding(value_lowering::specs::ValueCode::value_size))]
pub(crate) fn value_size(e: &CoreExpr) -> Result<u32, Stop>
    ensures { IfOk result (λ size. size ≡ values.value_size (plain_expr e.now)) }
{
    match e {
        CoreExpr::Int(_) | CoreExpr::Bool(_) | CoreExpr::Var(_) => Ok(1),
        CoreExpr::Neg(inner) => plus(plus(operand_size(inner)?, 1)?, 1),
        CoreExpr::Chain { first, rest } => plus(operand_size(first)?, links_size(rest)?),
        CoreExpr::Compare(_, left, right) => {
            let first = operand_size(left)?;
            let second = operand_size(right)?;
            plus(first, plus(second, 1)?)
        }
        CoreExpr::Index(array, index, _) => {
            let first = operand_size(array)?;
            let second = operand_size(index)?;
            plus(first, plus(second, 1)?)
        }
        CoreExpr::Len(array) => plus(operand_size(array)?, 1),
        CoreExpr::Call { args, .. } | CoreExpr::Make { args, .. } => plus(operands_size(args)?, 1),
        CoreExpr::New { len, fill, .. } => {
            let first = operand_size(len)?;
            let second = operand_size(fill)?;
            plus(first, plus(second, 1)?)
        }
    }
}

#[cycle(sizes)]
#[tactic(auto, using(xanadu_tree::proofs::Equations::plain_trees), unfolding(value_lowering::specs::ValueCode::value_size))]
fn operands_size(es: &[CoreExpr]) -> Result<u32, Stop>
    ensures { IfOk result (λ size. size ≡ values.operands_size (to_exprs (map plain_expr es.now))) }
{
    let mut size = 0;
    for e in es {
        size = plus(size, operand_size(e)?)?;
    }
    Ok(size)
}

#[cycle(sizes)]
#[tactic(auto, using(xanadu_tree::proofs::Equations::plain_trees), unfolding(value_lowering::specs::ValueCode::value_size))]
fn links_size(rest: &[(Op, CoreExpr, u32)]) -> Result<u32, Stop>
    ensures { IfOk result (λ size. size ≡ values.links_size (to_links (map link_of rest.now))) }
{
    let mut size = 0;
    for (_, e, _) in rest {
        size = plus(size, plus(operand_size(e)?, 1)?)?;
    }
    Ok(size)
}

// A comparison takes its operands; any other leaf is a truth value.
#[tactic(auto, using(xanadu_tree::proofs::Equations::plain_trees))]
fn leaf_size(e: &CoreExpr) -> Result<u32, Stop>
    ensures { IfOk result (λ size. size ≡ tests.leaf_size (plain_expr e.now)) }
{
    match e {
        CoreExpr::Compare(_, left, right) => {
            let first = operand_size(left)?;
            let second = operand_size(right)?;
            plus(first, plus(second, 1)?)
        }
        CoreExpr::Int(_)
        | CoreExpr::Bool(_)
        | CoreExpr::Var(_)
        | CoreExpr::Neg(_)
        | CoreExpr::Chain { .. }
        | CoreExpr::Index(_, _, _)
        | CoreExpr::Len(_)
        | CoreExpr::Call { .. }
        | CoreExpr::Make { .. }
        | CoreExpr::New { .. } => plus(operand_size(e)?, 1),
    }
}

// What each part of a test but the last is asked.
pub(crate) fn inner_on(crossed: bool, on: bool) -> bool
    ensures { result ≡ tests.inner_on crossed on }
{
    if crossed { !on } else { on }
}

/// A test, by what is asked.
#[cycle(tests)]
#[tactic(auto, using(xanadu_tree::proofs::Equations::plain_trees), unfolding(crate::specs::TestCode::test_size))]
pub(crate) fn test_size(test: &Test, on: bool) -> Result<u32, Stop>
    ensures { IfOk result (λ size. size ≡ tests.test_size on (plain_test test.now)) }
{
    match test {
        Test::Leaf(e) => leaf_size(e),
        Test::All(parts) => plus(parts_size(parts, inner_on(on, on), on)?, one_if(on)),
        Test::Any(parts) => plus(parts_size(parts, inner_on(!on, on), on)?, one_if(!on)),
        Test::Not(part) => test_size(part, !on),
    }
}

/// Parts of a test, by what each but the last and the last one is asked.
#[cycle(tests)]
#[tactic(auto, using(xanadu_tree::proofs::Equations::plain_trees), unfolding(crate::specs::TestCode::test_size))]
pub(crate) fn parts_size(parts: &[Test], inner: bool, last: bool) -> Result<u32, Stop>
    ensures { IfOk result (λ size. size ≡ tests.parts_size inner last (to_tests (map plain_test parts.now))) }
{
    let mut size = 0;
    let mut many = parts.len();
    for part in parts {
        many -= 1;
        let asked = turn(many, inner, last);
        size = plus(size, test_size(part, asked)?)?;
    }
    Ok(size)
}

/// What a part is asked that has so many others behind it.
pub(crate) fn turn(many: usize, inner: bool, last: bool) -> bool
    ensures { result ≡ turn_of many inner last }
{
    if many == 0 { last } else { inner }
}
