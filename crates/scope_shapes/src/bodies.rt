//! Bodies of functions.

ghost use Rattle.std.specs.Prelude.{◌≡◌, ◌++◌, map, IfOk, OnOk};
ghost use Rattle.xanadu_tree.specs.PlainOf.{plain_fun, plain_stmt};
ghost use Rattle.scope_shapes.specs.BodiesOf.{inner_of};
ghost use Rattle.type_shapes.specs.Code.{Gives, Steps};
ghost use Rattle.type_shapes.specs.HeadersOf.{header_of};
ghost use Rattle.type_shapes.specs.Kinds.{kind_of as kind_of_type};
ghost use Rattle.scope_shapes.specs.Shape as spec;
ghost use Rattle.expression_shapes.specs.SitesOf.{globals_of, locals_of};

use crate::block::block;
use expression_shapes::{Globals, Locals};
use std::alloc::Global;
use type_shapes::{
    Header, Scope, ShapeError, ShapeKind, add_parameter_names, add_quantifier_names, kind_of,
};
use xan_io::Memory;
use xan_seq::Seq;
use xanadu_tree::{CoreFun, CoreStmt, CoreTy, Kind};

/// The kinds of a function's variables, and its statements.
#[derive(Drop)]
pub struct Inner {
    kinds: Vec<Kind>,
    stmts: Vec<CoreStmt>,
}

/// Adds the kinds of types.
fn add_kinds(types: &[CoreTy], kinds: &mut Vec<Kind>) -> Result<(), Memory>
    ensures { OnOk result (kinds.new.items ≡ kinds.old.items ++ map kind_of_type types.now) }
{
    for ty in types {
        kinds.push(kind_of(ty))?;
    }
    Ok(())
}

/// Nothing is visible.
fn no_locals<'a>(alloc: Global) -> Locals<'a>
    ensures { locals_of result ≡ spec.no_locals }
{
    Locals {
        variables: Scope::new(alloc),
        kinds: Vec::new(alloc),
        indices: Scope::new(alloc),
        next: 0,
    }
}

/// Makes visible what the header of a function declares.
#[tactic(auto, unfolding(crate::specs::Shape::entered))]
fn enter<'a>(header: &Header<'a>, locals: &mut Locals<'a>) -> Result<(), Memory>
    ensures { OnOk result (locals_of locals.new ≡ spec.entered (header_of header.now) (locals_of locals.old)) }
{
    add_parameter_names(&header.declaration.parameters, &mut locals.variables)?;
    add_kinds(&header.params, &mut locals.kinds)?;
    add_quantifier_names(&header.declaration.quantifier, &mut locals.indices)?;
    locals.next = header.quant.count;
    Ok(())
}

/// The statements of a function, with what is visible at its end.
#[tactic(auto, unfolding(crate::specs::Shape::inner_in))]
fn inner_in<'a>(
    alloc: Global,
    globals: &Globals<'a>,
    header: &Header<'a>,
    locals: &mut Locals<'a>,
) -> Result<Vec<CoreStmt>, ShapeError>
    ensures { Steps (λ x. map plain_stmt x.items) result (locals_of locals.new) (spec.inner_in (globals_of globals.now) (header_of header.now) (locals_of locals.old)) }
{
    enter(header, locals)?;
    let body = block(
        &header.declaration.body,
        alloc,
        globals,
        header.given.kind,
        locals,
    )?;
    if body.completes {
        return Err(ShapeError::Fault {
            at: header.declaration.at,
            kind: ShapeKind::Completes,
        });
    }
    Ok(body.stmts)
}

/// The body of a function.
#[tactic(auto, unfolding(crate::specs::Shape::inner))]
fn inner_body<'a>(
    alloc: Global,
    globals: &Globals<'a>,
    header: &Header<'a>,
) -> Result<Inner, ShapeError>
    ensures { Gives inner_of result (spec.inner (globals_of globals.now) (header_of header.now)) }
{
    let mut locals = no_locals(alloc);
    let stmts = inner_in(alloc, globals, header, &mut locals)?;
    Ok(Inner {
        kinds: locals.kinds,
        stmts,
    })
}

/// Adds the bodies of functions.
#[tactic(auto, unfolding(crate::specs::Shape::inners))]
pub fn add_inners<'a>(
    alloc: Global,
    globals: &Globals<'a>,
    mut headers: &[Header<'a>],
    made: &mut Vec<Inner>,
) -> Result<(), ShapeError>
    ensures { Gives (λ _. map inner_of made.new.items) result (spec.inners (globals_of globals.now) (map header_of headers.entry.now) (map inner_of made.old.items)) }
{
    while let [header, rest @ ..] = headers {
        made.push(inner_body(alloc, globals, header)?)?;
        headers = rest;
    }
    Ok(())
}

/// A function of its header and its body.
#[tactic(auto, unfolding(crate::specs::Shape::fun))]
fn fun(header: Header<'_>, body: Inner) -> Result<CoreFun, Memory>
    ensures { IfOk result (λ x. plain_fun x ≡ spec.fun (header_of header.entry) (inner_of body)) }
{
    Ok(CoreFun {
        name: header.declaration.name.name.copy()?,
        quant: header.quant,
        params: Seq::from_vec(header.params),
        result_quant: header.given.quant,
        result: header.given.ty,
        kinds: Seq::from_vec(body.kinds),
        body: body.stmts,
        at: header.declaration.at,
    })
}

/// The functions, of as many headers and bodies.
#[tactic(auto, unfolding(crate::specs::Shape::funs))]
pub fn funs(
    alloc: Global,
    headers: Vec<Header<'_>>,
    bodies: Vec<Inner>,
) -> Result<Vec<CoreFun>, Memory>
    ensures { IfOk result (λ x. map plain_fun x.items ≡ spec.funs (map header_of headers.entry.items) (map inner_of bodies.items)) }
{
    let mut made = Vec::new(alloc);
    for (header, body) in headers.into_iter().zip(bodies) {
        made.push(fun(header, body)?)?;
    }
    Ok(made)
}
