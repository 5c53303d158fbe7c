//! How nodes of the core are made.

ghost use Rattle.std.specs.Prelude.{◌≡◌, IfOk, map};
ghost use Rattle.xanadu_tree.specs.Plain as core;
ghost use Rattle.xanadu_tree.specs.PlainOf.{plain_expr, plain_test, to_exprs, to_links, to_tests};
ghost use Rattle.expression_shapes.specs.Expressions as spec;
ghost use Rattle.expression_shapes.specs.SitesOf.{typed_of, link_of};

use crate::site::Typed;
use std::alloc::Global;
use xan_io::Memory;
use xanadu_tree::{CoreExpr, Kind, Op, Rel, Test};

/// An expression that is a number.
pub fn number(expr: CoreExpr) -> Typed
    ensures { typed_of result ≡ spec.number (plain_expr expr) }
{
    Typed {
        expr,
        kind: Kind::Int,
    }
}

/// A literal number.
#[tactic(auto, using(xanadu_tree::proofs::Equations::plain_trees))]
pub fn literal(value: &i64) -> Typed
    ensures { typed_of result ≡ spec.number (core.Int value.now) }
{
    number(CoreExpr::Int(*value))
}

/// A truth value.
#[tactic(auto, using(xanadu_tree::proofs::Equations::plain_trees))]
pub fn truth(value: bool) -> Typed
    ensures { typed_of result ≡ spec.truth value }
{
    Typed {
        expr: CoreExpr::Bool(value),
        kind: Kind::Bool,
    }
}

/// Operators behind their first operand.
#[tactic(auto, using(xanadu_tree::proofs::Equations::plain_trees))]
pub fn chain(
    alloc: Global,
    first: CoreExpr,
    rest: Vec<(Op, CoreExpr, u32)>,
) -> Result<Typed, Memory>
    ensures { IfOk result (λ x. typed_of x ≡ spec.number (core.Chain (plain_expr first) (to_links (map link_of rest.items)))) }
{
    let first = Box::new(alloc, first)?;
    Ok(number(CoreExpr::Chain { first, rest }))
}

/// The number with the other sign.
#[tactic(auto, using(xanadu_tree::proofs::Equations::plain_trees))]
pub fn negated(alloc: Global, operand: CoreExpr) -> Result<Typed, Memory>
    ensures { IfOk result (λ x. typed_of x ≡ spec.number (core.Neg (plain_expr operand))) }
{
    Ok(number(CoreExpr::Neg(Box::new(alloc, operand)?)))
}

/// A comparison.
#[tactic(auto, using(xanadu_tree::proofs::Equations::plain_trees))]
pub fn compared(alloc: Global, rel: Rel, left: CoreExpr, right: CoreExpr) -> Result<Typed, Memory>
    ensures { IfOk result (λ x. typed_of x ≡ spec.compare rel (plain_expr left) (plain_expr right)) }
{
    let left = Box::new(alloc, left)?;
    let right = Box::new(alloc, right)?;
    Ok(Typed {
        expr: CoreExpr::Compare(rel, left, right),
        kind: Kind::Bool,
    })
}

/// A cell of an array.
#[tactic(auto, using(xanadu_tree::proofs::Equations::plain_trees))]
pub fn cell(
    alloc: Global,
    array: CoreExpr,
    index: CoreExpr,
    at: u32,
    kind: Kind,
) -> Result<Typed, Memory>
    ensures { IfOk result (λ x. typed_of x ≡ spec.cell (plain_expr array) (plain_expr index) at kind) }
{
    let array = Box::new(alloc, array)?;
    let index = Box::new(alloc, index)?;
    Ok(Typed {
        expr: CoreExpr::Index(array, index, at),
        kind,
    })
}

/// The length of an array.
#[tactic(auto, using(xanadu_tree::proofs::Equations::plain_trees))]
pub fn length(alloc: Global, array: CoreExpr) -> Result<Typed, Memory>
    ensures { IfOk result (λ x. typed_of x ≡ spec.number (core.Len (plain_expr array))) }
{
    Ok(number(CoreExpr::Len(Box::new(alloc, array)?)))
}

/// A call.
#[tactic(auto, using(xanadu_tree::proofs::Equations::plain_trees))]
pub fn call(fun: u32, args: Vec<CoreExpr>, at: u32, kind: Kind) -> Typed
    ensures { typed_of result ≡ spec.call fun (map plain_expr args.items) at kind }
{
    Typed {
        expr: CoreExpr::Call { fun, args, at },
        kind,
    }
}

/// A tuple.
#[tactic(auto, using(xanadu_tree::proofs::Equations::plain_trees))]
pub fn tuple(ty: u32, args: Vec<CoreExpr>, at: u32) -> Typed
    ensures { typed_of result ≡ spec.tuple ty (map plain_expr args.items) at }
{
    Typed {
        expr: CoreExpr::Make { ty, args, at },
        kind: Kind::Named(ty),
    }
}

/// A new array.
#[tactic(auto, using(xanadu_tree::proofs::Equations::plain_trees))]
pub fn new_array(
    alloc: Global,
    ty: u32,
    len: CoreExpr,
    fill: CoreExpr,
    at: u32,
) -> Result<Typed, Memory>
    ensures { IfOk result (λ x. typed_of x ≡ spec.new_array ty (plain_expr len) (plain_expr fill) at) }
{
    let len = Box::new(alloc, len)?;
    let fill = Box::new(alloc, fill)?;
    Ok(Typed {
        expr: CoreExpr::New { ty, len, fill, at },
        kind: Kind::Array(ty),
    })
}

/// A test that is an expression.
#[tactic(auto, using(xanadu_tree::proofs::Equations::plain_trees))]
pub fn leaf(expr: CoreExpr) -> Test
    ensures { plain_test result ≡ core.Leaf (plain_expr expr) }
{
    Test::Leaf(expr)
}

/// A test that some part holds.
#[tactic(auto, using(xanadu_tree::proofs::Equations::plain_trees))]
pub fn any(parts: Vec<Test>) -> Test
    ensures { plain_test result ≡ core.Any (to_tests (map plain_test parts.items)) }
{
    Test::Any(parts)
}

/// A test that all parts hold.
#[tactic(auto, using(xanadu_tree::proofs::Equations::plain_trees))]
pub fn all(parts: Vec<Test>) -> Test
    ensures { plain_test result ≡ core.All (to_tests (map plain_test parts.items)) }
{
    Test::All(parts)
}

/// The opposite test.
#[tactic(auto, using(xanadu_tree::proofs::Equations::plain_trees))]
pub fn opposite_test(part: Test, alloc: Global) -> Result<Test, Memory>
    ensures { IfOk result (λ x. plain_test x ≡ core.Not (plain_test part)) }
{
    Ok(Test::Not(Box::new(alloc, part)?))
}
