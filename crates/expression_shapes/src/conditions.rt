//! Tests of `if` and `while`.

ghost use Rattle.std.specs.Prelude.{◌≡◌, map, [], ◌∷◌, Ok};
ghost use Rattle.xanadu_tree.specs.PlainOf.{plain_test};
ghost use Rattle.xanadu_tree.specs.PlainTreeOf.{plain_expression, plain_conjunction, plain_negation, plain_comparison, plain_primary};
ghost use Rattle.type_shapes.specs.Code.{Gives};
ghost use Rattle.expression_shapes.specs.Expressions as spec;
ghost use Rattle.expression_shapes.specs.NodesOf.{conjunctions_of, negations_of};
ghost use Rattle.expression_shapes.specs.SitesOf.{globals_of, locals_of, typed_of};

use crate::expressions::{comparison, primary};
use crate::making;
use crate::places::{has_conjunction, has_negation, is_compound, place_of_primary};
use crate::site::{Site, Typed, check_kind};
use std::alloc::Global;
use type_shapes::ShapeError;
use xanadu_tree::{Comparison, Conjunction, Expression, Kind, Negation, Primary, Test};

/// An expression as a test.
fn leaf(typed: Typed, at: u32) -> Result<Test, ShapeError>
    ensures { Gives plain_test result (spec.leaf at (Ok (typed_of typed))) }
{
    Ok(making::leaf(check_kind(Kind::Bool, at, typed)?))
}

/// An expression as the test of an `if` or a `while`.
#[cycle(tests)]
#[tactic(auto, using(xanadu_tree::proofs::TreeEquations::plain_nodes), unfolding(crate::specs::Expressions::expression_test))]
pub fn test(e: &Expression, site: &Site<'_, '_>) -> Result<Test, ShapeError>
    ensures { Gives plain_test result (spec.expression_test (globals_of site.now.globals.now) (locals_of site.now.locals.now) (plain_expression e.now)) }
{
    let first = conjunction_test(&e.first, site)?;
    if !has_conjunction(&e.rest) {
        return Ok(first);
    }
    Ok(making::any(any_tests(&e.rest, site, first)?))
}

/// The parts of `||`, of which this one is the first.
#[cycle(tests)]
#[tactic(auto, using(xanadu_tree::proofs::TreeEquations::plain_nodes), unfolding(crate::specs::Expressions::any_tests))]
fn any_tests(
    rest: &[(Conjunction, u32)],
    site: &Site<'_, '_>,
    first: Test,
) -> Result<Vec<Test>, ShapeError>
    ensures { Gives (λ x. map plain_test x.items) result (spec.any_tests (globals_of site.now.globals.now) (locals_of site.now.locals.now) (conjunctions_of rest.now) (plain_test first ∷ [])) }
{
    let mut parts = Vec::new(site.alloc);
    parts.push(first)?;
    for (part, _) in rest {
        parts.push(conjunction_test(part, site)?)?;
    }
    Ok(parts)
}

/// The test of an operand of `||`.
#[cycle(tests)]
#[tactic(auto, using(xanadu_tree::proofs::TreeEquations::plain_nodes), unfolding(crate::specs::Expressions::conjunction_test))]
fn conjunction_test(c: &Conjunction, site: &Site<'_, '_>) -> Result<Test, ShapeError>
    ensures { Gives plain_test result (spec.conjunction_test (globals_of site.now.globals.now) (locals_of site.now.locals.now) (plain_conjunction c.now)) }
{
    let first = negation_test(&c.first, site)?;
    if !has_negation(&c.rest) {
        return Ok(first);
    }
    Ok(making::all(all_tests(&c.rest, site, first)?))
}

/// The parts of `&&`, of which this one is the first.
#[cycle(tests)]
#[tactic(auto, using(xanadu_tree::proofs::TreeEquations::plain_nodes), unfolding(crate::specs::Expressions::all_tests))]
fn all_tests(
    rest: &[(Negation, u32)],
    site: &Site<'_, '_>,
    first: Test,
) -> Result<Vec<Test>, ShapeError>
    ensures { Gives (λ x. map plain_test x.items) result (spec.all_tests (globals_of site.now.globals.now) (locals_of site.now.locals.now) (negations_of rest.now) (plain_test first ∷ [])) }
{
    let mut parts = Vec::new(site.alloc);
    parts.push(first)?;
    for (part, _) in rest {
        parts.push(negation_test(part, site)?)?;
    }
    Ok(parts)
}

/// The test of an operand of `&&`.
#[cycle(tests)]
#[tactic(auto, using(xanadu_tree::proofs::TreeEquations::plain_nodes), unfolding(crate::specs::Expressions::negation_test))]
fn negation_test(n: &Negation, site: &Site<'_, '_>) -> Result<Test, ShapeError>
    ensures { Gives plain_test result (spec.negation_test (globals_of site.now.globals.now) (locals_of site.now.locals.now) (plain_negation n.now)) }
{
    let part = comparison_test(&n.operand, site)?;
    if !n.negated {
        return Ok(part);
    }
    Ok(making::opposite_test(part, site.alloc)?)
}

/// Where a comparison has an operator or an index it is a leaf, else the test is that of its one primary.
#[cycle(tests)]
#[tactic(auto, using(xanadu_tree::proofs::TreeEquations::plain_nodes), unfolding(crate::specs::Expressions::comparison_test))]
fn comparison_test(c: &Comparison, site: &Site<'_, '_>) -> Result<Test, ShapeError>
    ensures { Gives plain_test result (spec.comparison_test (globals_of site.now.globals.now) (locals_of site.now.locals.now) (plain_comparison c.now)) }
{
    if is_compound(c) {
        return leaf(comparison(c, site)?, c.at);
    }
    primary_test(&c.left.first.first.operand.primary, site)
}

/// Parentheses around a test belong to the test.
#[cycle(tests)]
#[tactic(auto, using(xanadu_tree::proofs::TreeEquations::plain_nodes), unfolding(crate::specs::Expressions::primary_test))]
fn primary_test(p: &Primary, site: &Site<'_, '_>) -> Result<Test, ShapeError>
    ensures { Gives plain_test result (spec.primary_test (globals_of site.now.globals.now) (locals_of site.now.locals.now) (plain_primary p.now)) }
{
    match p {
        Primary::Group(inner, _) => test(inner, site),
        Primary::Number(_, _)
        | Primary::Truth(_, _)
        | Primary::Variable(_)
        | Primary::Call(_, _)
        | Primary::Make(_, _)
        | Primary::Length(_, _)
        | Primary::New { .. } => leaf(primary(p, site)?, place_of_primary(p)),
    }
}
