//! Expressions outside tests.

ghost use Rattle.std.specs.Prelude.{◌≡◌, map, [], length};
ghost use Rattle.std.specs.Option.{option_map};
ghost use Rattle.xanadu_tree.specs.PlainOf.{plain_expr};
ghost use Rattle.xanadu_tree.specs.PlainTree as plain;
ghost use Rattle.xanadu_tree.specs.PlainTreeOf.{to_comparand, plain_expression, plain_conjunction, plain_negation, plain_comparison, plain_sum, plain_product, plain_unary, plain_postfix, plain_primary, plain_indices, plain_expressions};
ghost use Rattle.type_shapes.specs.Code.{Gives};
ghost use Rattle.expression_shapes.specs.Expressions as spec;
ghost use Rattle.expression_shapes.specs.NodesOf.{conjunctions_of, negations_of, addends_of, factors_of};
ghost use Rattle.expression_shapes.specs.SitesOf.{globals_of, locals_of, typed_of, link_of};

use crate::making;
use crate::places::{
    has_addend, has_factor, place_of, place_of_postfix, place_of_product, place_of_sum,
    place_of_unary,
};
use crate::site::{Site, Typed, check_array, check_kind, find_callee, find_tuple_type, variable};
use type_shapes::{ShapeError, ShapeKind, element_kind, element_number, kind_at, parts_of};
use xanadu_tree::{
    Comparison, Conjunction, CoreExpr, CoreTy, Expression, Identifier, Kind, Negation, Op, Postfix,
    Primary, Product, Rel, Sum, Unary,
};

/// Behind the left operand of `||`, which stands outside a test.
#[tactic(auto, unfolding(crate::specs::Expressions::without_or))]
fn without_or(rest: &[(Conjunction, u32)], left: Typed) -> Result<Typed, ShapeError>
    ensures { Gives typed_of result (spec.without_or (conjunctions_of rest.now) (typed_of left)) }
{
    let [(_, at), ..] = rest else {
        return Ok(left);
    };
    Err(ShapeError::Fault {
        at: *at,
        kind: ShapeKind::OutsideTest,
    })
}

/// Behind the left operand of `&&`, which stands outside a test.
#[tactic(auto, unfolding(crate::specs::Expressions::without_and))]
fn without_and(rest: &[(Negation, u32)], left: Typed) -> Result<Typed, ShapeError>
    ensures { Gives typed_of result (spec.without_and (negations_of rest.now) (typed_of left)) }
{
    let [(_, at), ..] = rest else {
        return Ok(left);
    };
    Err(ShapeError::Fault {
        at: *at,
        kind: ShapeKind::OutsideTest,
    })
}

/// An expression outside a test.
#[cycle(expression)]
#[tactic(auto, using(xanadu_tree::proofs::TreeEquations::plain_nodes), unfolding(crate::specs::Expressions::expression))]
pub fn expression(e: &Expression, site: &Site<'_, '_>) -> Result<Typed, ShapeError>
    ensures { Gives typed_of result (spec.expression (globals_of site.now.globals.now) (locals_of site.now.locals.now) (plain_expression e.now)) }
{
    let left = conjunction(&e.first, site)?;
    without_or(&e.rest, left)
}

/// The operand of `||`.
#[cycle(expression)]
#[tactic(auto, using(xanadu_tree::proofs::TreeEquations::plain_nodes), unfolding(crate::specs::Expressions::conjunction))]
fn conjunction(c: &Conjunction, site: &Site<'_, '_>) -> Result<Typed, ShapeError>
    ensures { Gives typed_of result (spec.conjunction (globals_of site.now.globals.now) (locals_of site.now.locals.now) (plain_conjunction c.now)) }
{
    let left = negation(&c.first, site)?;
    without_and(&c.rest, left)
}

/// The operand of `&&`.
#[cycle(expression)]
#[tactic(auto, using(xanadu_tree::proofs::TreeEquations::plain_nodes), unfolding(crate::specs::Expressions::negation))]
fn negation(n: &Negation, site: &Site<'_, '_>) -> Result<Typed, ShapeError>
    ensures { Gives typed_of result (spec.negation (globals_of site.now.globals.now) (locals_of site.now.locals.now) (plain_negation n.now)) }
{
    if n.negated {
        return Err(ShapeError::Fault {
            at: n.at,
            kind: ShapeKind::OutsideTest,
        });
    }
    comparison(&n.operand, site)
}

/// A comparison, or its left side alone.
#[cycle(expression)]
#[tactic(auto, using(xanadu_tree::proofs::TreeEquations::plain_nodes), unfolding(crate::specs::Expressions::comparison))]
pub fn comparison(c: &Comparison, site: &Site<'_, '_>) -> Result<Typed, ShapeError>
    ensures { Gives typed_of result (spec.comparison (globals_of site.now.globals.now) (locals_of site.now.locals.now) (plain_comparison c.now)) }
{
    let left = sum(&c.left, site)?;
    compared(&c.right, site, c.at, left)
}

/// Behind the left side of a comparison, which stands at this place.
#[cycle(expression)]
#[tactic(auto, using(xanadu_tree::proofs::TreeEquations::plain_nodes), unfolding(crate::specs::Expressions::compared))]
fn compared(
    right: &Option<(Rel, Box<Sum>)>,
    site: &Site<'_, '_>,
    at: u32,
    left: Typed,
) -> Result<Typed, ShapeError>
    ensures { Gives typed_of result (spec.compared (globals_of site.now.globals.now) (locals_of site.now.locals.now) (to_comparand (option_map (λ r. (r.0, plain_sum r.1.value)) right.now)) at (typed_of left)) }
{
    match right {
        None => Ok(left),
        Some((rel, other)) => {
            let a = check_kind(Kind::Int, at, left)?;
            let typed = sum(other, site)?;
            let b = check_kind(Kind::Int, place_of_sum(other), typed)?;
            Ok(making::compared(site.alloc, *rel, a, b)?)
        }
    }
}

/// A sum, or its first operand alone.
#[cycle(expression)]
#[tactic(auto, using(xanadu_tree::proofs::TreeEquations::plain_nodes), unfolding(crate::specs::Expressions::sum))]
fn sum(s: &Sum, site: &Site<'_, '_>) -> Result<Typed, ShapeError>
    ensures { Gives typed_of result (spec.sum (globals_of site.now.globals.now) (locals_of site.now.locals.now) (plain_sum s.now)) }
{
    let first = product(&s.first, site)?;
    if !has_addend(&s.rest) {
        return Ok(first);
    }
    let first = check_kind(Kind::Int, s.at, first)?;
    let rest = addends(&s.rest, site)?;
    Ok(making::chain(site.alloc, first, rest)?)
}

/// The operands behind `+` and `-`, with their operators.
#[cycle(expression)]
#[tactic(auto, using(xanadu_tree::proofs::TreeEquations::plain_nodes), unfolding(crate::specs::Expressions::addends))]
fn addends(
    rest: &[(Op, Product, u32)],
    site: &Site<'_, '_>,
) -> Result<Vec<(Op, CoreExpr, u32)>, ShapeError>
    ensures { Gives (λ x. map link_of x.items) result (spec.addends (globals_of site.now.globals.now) (locals_of site.now.locals.now) (addends_of rest.now) []) }
{
    let mut links = Vec::with_capacity(site.alloc, rest.len())?;
    for (op, one, at) in rest {
        let typed = product(one, site)?;
        let operand = check_kind(Kind::Int, place_of_product(one), typed)?;
        links.push((*op, operand, *at))?;
    }
    Ok(links)
}

/// A product, or its first operand alone.
#[cycle(expression)]
#[tactic(auto, using(xanadu_tree::proofs::TreeEquations::plain_nodes), unfolding(crate::specs::Expressions::product))]
fn product(p: &Product, site: &Site<'_, '_>) -> Result<Typed, ShapeError>
    ensures { Gives typed_of result (spec.product (globals_of site.now.globals.now) (locals_of site.now.locals.now) (plain_product p.now)) }
{
    let first = unary(&p.first, site)?;
    if !has_factor(&p.rest) {
        return Ok(first);
    }
    let first = check_kind(Kind::Int, p.at, first)?;
    let rest = factors(&p.rest, site)?;
    Ok(making::chain(site.alloc, first, rest)?)
}

/// The operands behind `*`, `/` and `%`, with their operators.
#[cycle(expression)]
#[tactic(auto, using(xanadu_tree::proofs::TreeEquations::plain_nodes), unfolding(crate::specs::Expressions::factors))]
fn factors(
    rest: &[(Op, Unary, u32)],
    site: &Site<'_, '_>,
) -> Result<Vec<(Op, CoreExpr, u32)>, ShapeError>
    ensures { Gives (λ x. map link_of x.items) result (spec.factors (globals_of site.now.globals.now) (locals_of site.now.locals.now) (factors_of rest.now) []) }
{
    let mut links = Vec::with_capacity(site.alloc, rest.len())?;
    for (op, one, at) in rest {
        let typed = unary(one, site)?;
        let operand = check_kind(Kind::Int, place_of_unary(one), typed)?;
        links.push((*op, operand, *at))?;
    }
    Ok(links)
}

/// A number with the other sign, or the operand alone.
#[cycle(expression)]
#[tactic(auto, using(xanadu_tree::proofs::TreeEquations::plain_nodes), unfolding(crate::specs::Expressions::unary))]
fn unary(u: &Unary, site: &Site<'_, '_>) -> Result<Typed, ShapeError>
    ensures { Gives typed_of result (spec.unary (globals_of site.now.globals.now) (locals_of site.now.locals.now) (plain_unary u.now)) }
{
    let typed = postfix(&u.operand, site)?;
    if !u.negative {
        return Ok(typed);
    }
    let operand = check_kind(Kind::Int, place_of_postfix(&u.operand), typed)?;
    Ok(making::negated(site.alloc, operand)?)
}

/// A primary with its indices.
#[cycle(expression)]
#[tactic(auto, using(xanadu_tree::proofs::TreeEquations::plain_nodes), unfolding(crate::specs::Expressions::postfix))]
fn postfix(p: &Postfix, site: &Site<'_, '_>) -> Result<Typed, ShapeError>
    ensures { Gives typed_of result (spec.postfix (globals_of site.now.globals.now) (locals_of site.now.locals.now) (plain_postfix p.now)) }
{
    let array = primary(&p.primary, site)?;
    indexed(&p.indices, site, p.at, array)
}

/// The indices behind an array, which stands at this place.
#[cycle(expression)]
#[tactic(auto, using(xanadu_tree::proofs::TreeEquations::plain_nodes), unfolding(crate::specs::Expressions::indexed))]
pub fn indexed(
    indices: &[(Expression, u32)],
    site: &Site<'_, '_>,
    at: u32,
    mut array: Typed,
) -> Result<Typed, ShapeError>
    ensures { Gives typed_of result (spec.indexed (globals_of site.now.globals.now) (locals_of site.now.locals.now) (plain_indices indices.now) at (typed_of array)) }
{
    for (index, bracket_at) in indices {
        let element = check_array(at, array.kind)?;
        let typed = expression(index, site)?;
        let number = check_kind(Kind::Int, place_of(index), typed)?;
        let kind = element_kind(&site.globals.packings, element);
        array = making::cell(site.alloc, array.expr, number, *bracket_at, kind)?;
    }
    Ok(array)
}

/// A primary.
#[cycle(expression)]
#[tactic(auto, using(xanadu_tree::proofs::TreeEquations::plain_nodes), unfolding(crate::specs::Expressions::primary))]
pub fn primary(p: &Primary, site: &Site<'_, '_>) -> Result<Typed, ShapeError>
    ensures { Gives typed_of result (spec.primary (globals_of site.now.globals.now) (locals_of site.now.locals.now) (plain_primary p.now)) }
{
    match p {
        Primary::Number(value, _) => Ok(making::literal(value)),
        Primary::Truth(value, _) => Ok(making::truth(*value)),
        Primary::Variable(name) => variable(site.locals, name),
        Primary::Call(function, given) => call(given, site, function),
        Primary::Make(name, given) => tuple(given, site, name),
        Primary::Length(array, _) => {
            let typed = expression(array, site)?;
            let _element = check_array(place_of(array), typed.kind)?;
            Ok(making::length(site.alloc, typed.expr)?)
        }
        Primary::New {
            element,
            length,
            fill,
            at,
        } => {
            let ty = element_number(&site.globals.types, element)?;
            let typed = expression(length, site)?;
            let len = check_kind(Kind::Int, place_of(length), typed)?;
            let typed = expression(fill, site)?;
            let kind = element_kind(&site.globals.packings, ty);
            let value = check_kind(kind, place_of(fill), typed)?;
            Ok(making::new_array(site.alloc, ty, len, value, *at)?)
        }
        Primary::Group(inner, _) => expression(inner, site),
    }
}

/// A call.
#[cycle(expression)]
#[tactic(auto, using(xanadu_tree::proofs::TreeEquations::plain_nodes), unfolding(crate::specs::Expressions::primary))]
pub fn call(
    given: &[Expression],
    site: &Site<'_, '_>,
    function: &Identifier,
) -> Result<Typed, ShapeError>
    ensures { Gives typed_of result (spec.primary (globals_of site.now.globals.now) (locals_of site.now.locals.now) (plain.Call function.now (plain_expressions given.now))) }
{
    let callee = find_callee(site.globals, function, count(given))?;
    let args = arguments(given, site, &callee.header.params)?;
    let kind = callee.header.given.kind;
    Ok(making::call(callee.number, args, function.at, kind))
}

/// A tuple that is made.
#[cycle(expression)]
#[tactic(auto, using(xanadu_tree::proofs::TreeEquations::plain_nodes), unfolding(crate::specs::Expressions::primary))]
fn tuple(given: &[Expression], site: &Site<'_, '_>, name: &Identifier) -> Result<Typed, ShapeError>
    ensures { Gives typed_of result (spec.primary (globals_of site.now.globals.now) (locals_of site.now.locals.now) (plain.Make name.now (plain_expressions given.now))) }
{
    let ty = find_tuple_type(site.globals, name, count(given))?;
    let args = arguments(given, site, parts_of(&site.globals.packings, ty))?;
    Ok(making::tuple(ty, args, name.at))
}

/// How many arguments there are.
fn count(given: &[Expression]) -> usize
    ensures { result ≡ spec.count (plain_expressions given.now) }
{
    given.len()
}

/// Arguments of the kinds of these types.
#[cycle(expression)]
#[tactic(auto, using(xanadu_tree::proofs::TreeEquations::plain_nodes), unfolding(crate::specs::Expressions::arguments))]
fn arguments(
    given: &[Expression],
    site: &Site<'_, '_>,
    types: &[CoreTy],
) -> Result<Vec<CoreExpr>, ShapeError>
    ensures { Gives (λ x. map plain_expr x.items) result (spec.arguments (globals_of site.now.globals.now) (locals_of site.now.locals.now) (plain_expressions given.now) types.now 0 []) }
{
    let mut args = Vec::with_capacity(site.alloc, given.len())?;
    let mut place = 0;
    for argument in given {
        let typed = expression(argument, site)?;
        let value = check_kind(kind_at(types, place), place_of(argument), typed)?;
        args.push(value)?;
        place += 1;
    }
    Ok(args)
}
