//! Expressions and tests: what they leave to do.

ghost use Rattle.std.specs.Prelude.{◌≡◌, ◌∷◌, [], map, pos, IfOk};
ghost use Rattle.source_values.specs.Halts.{Gives};
ghost use Rattle.source_evaluator.specs.Steps as spec;
ghost use Rattle.source_evaluator.specs.Views.{link_of, state_of};
ghost use Rattle.source_evaluator.specs.Work.{Operand, Join, Links};
ghost use Rattle.xanadu_tree.specs.PlainOf.{plain_expr, plain_test, to_exprs, to_links, to_tests};

use crate::machine::{Machine, push_three, push_two};
use crate::tasks::Task;
use source_values::{Halt, Value};
use std::alloc::AllocError;
use xanadu_tree::{CoreExpr, Op, Test};

/// Begins an expression.
#[tactic(auto, using(xanadu_tree::proofs::Equations::plain_trees, crate::proofs::Counts::counted), unfolding(crate::specs::Steps::evaluated))]
pub(crate) fn evaluate<'a>(e: &'a CoreExpr, m: &mut Machine<'a>) -> Result<(), Halt>
    ensures { Gives (λ _. state_of m.new) result (spec.evaluated (plain_expr e.now) (state_of m.old)) }
{
    match e {
        CoreExpr::Int(number) => m.values.push(Value::number(number))?,
        CoreExpr::Bool(truth) => m.values.push(Value::truth(*truth))?,
        CoreExpr::Var(x) => {
            let value = m.env.read(*x)?;
            m.values.push(value)?
        }
        CoreExpr::Neg(inner) => push_two(Task::Operand(inner), Task::Negate, &mut m.work)?,
        CoreExpr::Chain { first, rest } => {
            push_two(Task::Operand(first), Task::Links(rest), &mut m.work)?
        }
        CoreExpr::Compare(rel, left, right) => push_three(
            Task::Operand(left),
            Task::Operand(right),
            Task::Relate(*rel),
            &mut m.work,
        )?,
        CoreExpr::Index(array, index, _) => push_three(
            Task::Operand(array),
            Task::Operand(index),
            Task::ReadCell,
            &mut m.work,
        )?,
        CoreExpr::Len(array) => push_two(Task::Operand(array), Task::Measure, &mut m.work)?,
        CoreExpr::Call { fun, args, .. } => push_two(
            Task::Operands(args),
            Task::CallWith(*fun, args.len()),
            &mut m.work,
        )?,
        CoreExpr::Make { ty, args, .. } => push_two(
            Task::Operands(args),
            Task::MakeTuple(*ty, args.len()),
            &mut m.work,
        )?,
        CoreExpr::New { ty, len, fill, .. } => push_three(
            Task::Operand(len),
            Task::Operand(fill),
            Task::MakeArray(*ty),
            &mut m.work,
        )?,
    }
    Ok(())
}

/// Begins the first of expressions.
#[tactic(auto, using(crate::proofs::Firsts::no_operands, crate::proofs::Firsts::first_operand))]
pub(crate) fn begin_operands<'a>(es: &'a [CoreExpr], m: &mut Machine<'a>) -> Result<(), AllocError>
    ensures { IfOk result (λ _. state_of m.new ≡ spec.operands (to_exprs (map plain_expr es.now)) (state_of m.old)) }
{
    let [e, others @ ..] = es else {
        return Ok(());
    };
    push_two(Task::Operand(e), Task::Operands(others), &mut m.work)
}

/// Begins the right operand of an operator; the others come behind it.
fn push_link<'a>(
    link: &'a (Op, CoreExpr, u32),
    others: &'a [(Op, CoreExpr, u32)],
    m: &mut Machine<'a>,
) -> Result<(), AllocError>
    ensures { IfOk result (λ _. state_of m.new
        ≡ spec.doing (Operand (plain_expr link.now.1) ∷ Join link.now.0 ∷ Links (to_links (map link_of others.now)) ∷ []) (state_of m.old)) }
{
    push_three(
        Task::Operand(&link.1),
        Task::Join(link.0),
        Task::Links(others),
        &mut m.work,
    )
}

/// Begins the right operand of the first operator.
#[tactic(auto, using(crate::proofs::Firsts::no_links, crate::proofs::Firsts::first_link))]
pub(crate) fn begin_links<'a>(
    links: &'a [(Op, CoreExpr, u32)],
    m: &mut Machine<'a>,
) -> Result<(), AllocError>
    ensures { IfOk result (λ _. state_of m.new ≡ spec.linked (to_links (map link_of links.now)) (state_of m.old)) }
{
    let [link, others @ ..] = links else {
        return Ok(());
    };
    push_link(link, others, m)
}

/// Begins the first part of `&&`.
#[tactic(auto, using(crate::proofs::Firsts::no_parts, crate::proofs::Firsts::first_part))]
pub(crate) fn begin_all<'a>(parts: &'a [Test], m: &mut Machine<'a>) -> Result<(), AllocError>
    ensures { IfOk result (λ _. state_of m.new ≡ spec.all_parts (to_tests (map plain_test parts.now)) (state_of m.old)) }
{
    let [part, others @ ..] = parts else {
        return m.values.push(Value::truth(true));
    };
    push_two(Task::Decide(part), Task::WhereTrue(others), &mut m.work)
}

/// Begins the first part of `||`.
#[tactic(auto, using(crate::proofs::Firsts::no_choices, crate::proofs::Firsts::first_choice))]
pub(crate) fn begin_any<'a>(parts: &'a [Test], m: &mut Machine<'a>) -> Result<(), AllocError>
    ensures { IfOk result (λ _. state_of m.new ≡ spec.any_parts (to_tests (map plain_test parts.now)) (state_of m.old)) }
{
    let [part, others @ ..] = parts else {
        return m.values.push(Value::truth(false));
    };
    push_two(Task::Decide(part), Task::WhereFalse(others), &mut m.work)
}

/// Begins a test.
#[tactic(auto, using(xanadu_tree::proofs::Equations::plain_trees), unfolding(crate::specs::Steps::deciding))]
pub(crate) fn decide<'a>(test: &'a Test, m: &mut Machine<'a>) -> Result<(), AllocError>
    ensures { IfOk result (λ _. state_of m.new ≡ spec.deciding (plain_test test.now) (state_of m.old)) }
{
    match test {
        Test::Leaf(e) => push_two(Task::Operand(e), Task::Decided, &mut m.work),
        Test::All(parts) => begin_all(parts, m),
        Test::Any(parts) => begin_any(parts, m),
        Test::Not(part) => push_two(Task::Decide(part), Task::Opposite, &mut m.work),
    }
}
