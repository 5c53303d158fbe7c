//! Statements without blocks.

ghost use Rattle.std.specs.Prelude.{◌≡◌, map, [], IfOk};
ghost use Rattle.std.specs.Option.{option_map};
ghost use Rattle.xanadu_tree.specs.PlainOf.{plain_expr, plain_stmt, plain_test};
ghost use Rattle.xanadu_tree.specs.PlainTree as plain;
ghost use Rattle.xanadu_tree.specs.PlainTreeOf.{plain_expression, plain_expressions, plain_indices};
ghost use Rattle.type_shapes.specs.Code.{Gives, Steps};
ghost use Rattle.expression_shapes.specs.Expressions as expressions;
ghost use Rattle.expression_shapes.specs.SitesOf.{globals_of, locals_of, typed_of};
ghost use Rattle.scope_shapes.specs.StatementsOf.{done_of, body_of};
ghost use Rattle.scope_shapes.specs.Statements as spec;

use expression_shapes::{
    Globals, Locals, Site, Typed, call, check_kind, check_tuple, check_value, expression, indexed,
    place_of, variable,
};
use std::alloc::Global;
use type_shapes::{ShapeError, ShapeKind, kind_at, parts_of};
use xan_io::Memory;
use xan_seq::Seq;
use xanadu_tree::{Clause, CoreExpr, CoreStmt, CoreTy, Expression, Identifier, Kind, Test};

/// A statement, and whether it completes.
#[derive(Drop)]
pub struct Done {
    pub stmt: CoreStmt,
    pub completes: bool,
}

/// The statements of a block, and whether it completes.
#[derive(Drop)]
pub struct Body {
    pub stmts: Vec<CoreStmt>,
    pub completes: bool,
}

/// A statement that completes.
fn goes_on(stmt: CoreStmt) -> Done
    ensures { done_of result ≡ spec.goes_on (plain_stmt stmt) }
{
    Done {
        stmt,
        completes: true,
    }
}

/// A statement that does not complete.
fn ends(stmt: CoreStmt) -> Done
    ensures { done_of result ≡ spec.ends (plain_stmt stmt) }
{
    Done {
        stmt,
        completes: false,
    }
}

/// No statement.
pub fn empty(alloc: Global) -> Body
    ensures { body_of result ≡ spec.empty }
{
    Body {
        stmts: Vec::new(alloc),
        completes: true,
    }
}

/// One statement more.
pub fn and_then(body: &mut Body, done: Done) -> Result<(), Memory>
    ensures { IfOk result (λ _. body_of body.new ≡ spec.and_then (body_of body.old) (done_of done)) }
{
    body.stmts.push(done.stmt)?;
    body.completes = done.completes;
    Ok(())
}

/// An expression that stands here.
fn value_in<'a>(
    alloc: Global,
    globals: &Globals<'a>,
    locals: &Locals<'a>,
    e: &Expression,
) -> Result<Typed, ShapeError>
    ensures { Gives typed_of result (expressions.expression (globals_of globals.now) (locals_of locals.now) (plain_expression e.now)) }
{
    expression(
        e,
        &Site {
            alloc,
            globals,
            locals,
        },
    )
}

/// `var`: the name is visible behind its right side alone.
#[tactic(auto, using(xanadu_tree::proofs::Equations::plain_trees), unfolding(crate::specs::Statements::declare))]
pub fn declare<'a>(
    alloc: Global,
    globals: &Globals<'a>,
    locals: &mut Locals<'a>,
    name: &'a Identifier,
    value: &Expression,
) -> Result<Done, ShapeError>
    ensures { Steps done_of result (locals_of locals.new) (spec.declare (globals_of globals.now) name.now (plain_expression value.now) (locals_of locals.old)) }
{
    if locals.variables.meaning(name.name.bytes()).is_some() {
        return Err(ShapeError::Fault {
            at: name.at,
            kind: ShapeKind::NamedTwice,
        });
    }
    let typed = value_in(alloc, globals, locals, value)?;
    let kind = check_value(place_of(value), typed.kind)?;
    let number = locals.declare(name, kind)?;
    Ok(goes_on(CoreStmt::Set(number, typed.expr)))
}

/// Declares names for the parts of a tuple, and adds their numbers.
#[tactic(auto, unfolding(crate::specs::Statements::split_names))]
fn split_names<'a>(
    locals: &mut Locals<'a>,
    mut names: &'a [Identifier],
    parts: &[CoreTy],
    numbers: &mut Vec<u32>,
) -> Result<(), ShapeError>
    ensures { Gives (λ _. (numbers.new.items, locals_of locals.new)) result (spec.split_names names.entry.now parts.now numbers.old.items (locals_of locals.old)) }
{
    while let [name, rest @ ..] = names {
        let number = locals.new_variable(name, kind_at(parts, numbers.len()))?;
        numbers.push(number)?;
        names = rest;
    }
    Ok(())
}

/// The parts of the tuple type, where there are so many.
fn parts_for<'g>(
    globals: &'g Globals<'_>,
    ty: u32,
    names: usize,
    at: u32,
) -> Result<&'g [CoreTy], ShapeError>
    ensures { Gives (λ x. x.now) result (spec.parts_for (globals_of globals.now) ty names at) }
{
    let parts = parts_of(&globals.packings, ty);
    if parts.len() != names {
        return Err(ShapeError::Fault {
            at,
            kind: ShapeKind::Count,
        });
    }
    Ok(parts)
}

/// `let`
#[tactic(auto, using(xanadu_tree::proofs::Equations::plain_trees), unfolding(crate::specs::Statements::split))]
pub fn split<'a>(
    alloc: Global,
    globals: &Globals<'a>,
    locals: &mut Locals<'a>,
    names: &'a [Identifier],
    value: &Expression,
    at: u32,
) -> Result<Done, ShapeError>
    ensures { Steps done_of result (locals_of locals.new) (spec.split (globals_of globals.now) names.now (plain_expression value.now) at (locals_of locals.old)) }
{
    let typed = value_in(alloc, globals, locals, value)?;
    let ty = check_tuple(place_of(value), typed.kind)?;
    let parts = parts_for(globals, ty, names.len(), at)?;
    let mut numbers = Vec::new(alloc);
    split_names(locals, names, parts, &mut numbers)?;
    Ok(goes_on(CoreStmt::Split(Seq::from_vec(numbers), typed.expr, at)))
}

/// A value written to what the left side reads: a variable, or a cell.
#[tactic(auto, using(xanadu_tree::proofs::Equations::plain_trees))]
fn stored(place: CoreExpr, value: CoreExpr) -> CoreStmt
    ensures { plain_stmt result ≡ spec.stored (plain_expr place) (plain_expr value) }
{
    match place {
        CoreExpr::Var(number) => CoreStmt::Set(number, value),
        CoreExpr::Index(array, index, at) => {
            CoreStmt::Store(Box::into_inner(array), Box::into_inner(index), value, at)
        }
        CoreExpr::Int(_)
        | CoreExpr::Bool(_)
        | CoreExpr::Neg(_)
        | CoreExpr::Chain { .. }
        | CoreExpr::Compare(_, _, _)
        | CoreExpr::Len(_)
        | CoreExpr::Call { .. }
        | CoreExpr::Make { .. }
        | CoreExpr::New { .. } => CoreStmt::Do(value),
    }
}

/// An assignment to a variable or to a cell.
#[tactic(auto, unfolding(crate::specs::Statements::assign))]
pub fn assign<'a>(
    alloc: Global,
    globals: &Globals<'a>,
    locals: &Locals<'a>,
    target: &Identifier,
    indices: &[(Expression, u32)],
    value: &Expression,
) -> Result<Done, ShapeError>
    ensures { Gives done_of result (spec.assign (globals_of globals.now) (locals_of locals.now) target.now (plain_indices indices.now) (plain_expression value.now)) }
{
    let site = Site {
        alloc,
        globals,
        locals,
    };
    let whole = variable(locals, target)?;
    let place = indexed(indices, &site, target.at, whole)?;
    let typed = expression(value, &site)?;
    let kind = place.kind;
    let value = check_kind(kind, place_of(value), typed)?;
    Ok(goes_on(stored(place.expr, value)))
}

/// A call.
#[tactic(auto, using(xanadu_tree::proofs::Equations::plain_trees), unfolding(crate::specs::Statements::called))]
pub fn called<'a>(
    alloc: Global,
    globals: &Globals<'a>,
    locals: &Locals<'a>,
    function: &Identifier,
    given: &[Expression],
) -> Result<Done, ShapeError>
    ensures { Gives done_of result (spec.called (globals_of globals.now) (locals_of locals.now) function.now (plain_expressions given.now)) }
{
    let site = Site {
        alloc,
        globals,
        locals,
    };
    let typed = call(given, &site, function)?;
    Ok(goes_on(CoreStmt::Do(typed.expr)))
}

/// `print`
#[tactic(auto, using(xanadu_tree::proofs::Equations::plain_trees), unfolding(crate::specs::Statements::printed))]
pub fn printed<'a>(
    alloc: Global,
    globals: &Globals<'a>,
    locals: &Locals<'a>,
    value: &Expression,
) -> Result<Done, ShapeError>
    ensures { Gives done_of result (spec.printed (globals_of globals.now) (locals_of locals.now) (plain_expression value.now)) }
{
    let typed = value_in(alloc, globals, locals, value)?;
    let number = check_kind(Kind::Int, place_of(value), typed)?;
    Ok(goes_on(CoreStmt::Print(number)))
}

/// `return` of no value.
#[tactic(auto, using(xanadu_tree::proofs::Equations::plain_trees), unfolding(crate::specs::Statements::return_none))]
fn return_none(given: Kind, at: u32) -> Result<Done, ShapeError>
    ensures { Gives done_of result (spec.return_none given at) }
{
    match given {
        Kind::Unit => Ok(ends(CoreStmt::Return(None, at))),
        Kind::Int | Kind::Bool | Kind::Array(_) | Kind::Named(_) => Err(ShapeError::Fault {
            at,
            kind: ShapeKind::OtherKind,
        }),
    }
}

/// `return` of a value.
#[tactic(auto, using(xanadu_tree::proofs::Equations::plain_trees), unfolding(crate::specs::Statements::return_value))]
fn return_value<'a>(
    alloc: Global,
    globals: &Globals<'a>,
    given: Kind,
    locals: &Locals<'a>,
    value: &Expression,
    at: u32,
) -> Result<Done, ShapeError>
    ensures { Gives done_of result (spec.return_value (globals_of globals.now) given (locals_of locals.now) (plain_expression value.now) at) }
{
    let _kind = check_value(at, given)?;
    let typed = value_in(alloc, globals, locals, value)?;
    let value = check_kind(given, place_of(value), typed)?;
    Ok(ends(CoreStmt::Return(Some(value), at)))
}

/// `return`
#[tactic(auto, unfolding(crate::specs::Statements::returned))]
pub fn returned<'a>(
    alloc: Global,
    globals: &Globals<'a>,
    given: Kind,
    locals: &Locals<'a>,
    value: &Option<Expression>,
    at: u32,
) -> Result<Done, ShapeError>
    ensures { Gives done_of result (spec.returned (globals_of globals.now) given (locals_of locals.now) (option_map plain_expression value.now) at) }
{
    match value {
        None => return_none(given, at),
        Some(e) => return_value(alloc, globals, given, locals, e, at),
    }
}

/// `if`
#[tactic(auto, using(xanadu_tree::proofs::Equations::plain_trees))]
pub fn choice(test: Test, yes: Body, no: Body, join: Option<Clause>, at: u32) -> Done
    ensures { done_of result ≡ spec.choice (plain_test test) (body_of yes) (body_of no) join at }
{
    Done {
        stmt: CoreStmt::If {
            test,
            on_true: yes.stmts,
            on_false: no.stmts,
            join,
            at,
        },
        completes: yes.completes || no.completes,
    }
}

/// `while`
#[tactic(auto, using(xanadu_tree::proofs::Equations::plain_trees))]
pub fn turns(test: Test, head: Option<Clause>, body: Body, at: u32) -> Done
    ensures { done_of result ≡ spec.loop (plain_test test) head (body_of body) at }
{
    goes_on(CoreStmt::While {
        test,
        head,
        body: body.stmts,
        at,
    })
}
