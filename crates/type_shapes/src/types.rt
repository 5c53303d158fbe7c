//! Types as they are written, and the names of declared ones.

ghost use Rattle.std.specs.Prelude.{◌≡◌, ◌-◌, ◌+◌, map, IfOk, unwrap_or, slice_get, false};
ghost use Rattle.std.specs.Option.{option_map};
ghost use Rattle.xanadu_tree.specs.PlainTreeOf.{plain_index, plain_type};
ghost use Rattle.xanadu_tree.specs.Written.{type_at, element_at};
ghost use Rattle.type_shapes.specs.Code.{Gives, Steps};
ghost use Rattle.type_shapes.specs.FrameOf.{frame_of};
ghost use Rattle.type_shapes.specs.Names as names;
ghost use Rattle.type_shapes.specs.Quantifiers as spec;
ghost use Rattle.type_shapes.specs.TypesOf.{types_of};

use crate::error::{ShapeError, ShapeKind};
use crate::form::variable_form;
use crate::frame::Frame;
use crate::scope::Scope;
use crate::table::Table;
use std::alloc::Global;
use xan_io::Memory;
use xanadu_tree::{CoreTy, Element, Identifier, IndexExpression, Linear, Sort, Type};

/// The names of the declared types, in order, and whether each is a tuple type.
#[derive(Drop)]
pub struct Types<'a> {
    pub names: Table<'a>,
    pub tuples: Vec<bool>,
}

/// No types.
pub fn no_types<'a>(alloc: Global) -> Types<'a>
    ensures { types_of result ≡ names.no_types }
{
    Types {
        names: Table::new(alloc),
        tuples: Vec::new(alloc),
    }
}

/// A place, counted from a number on.
fn numbered(place: usize, from: u32) -> Result<u32, Memory>
    ensures { IfOk result (λ number. number ≡ place + from) }
{
    let Ok(place) = u32::try_from(place) else {
        return Err(Memory);
    };
    let Some(number) = place.checked_add(from) else {
        return Err(Memory);
    };
    Ok(number)
}

/// A place, where 32 bits hold it.
pub fn narrowed(place: usize) -> Result<u32, Memory>
    ensures { IfOk result (λ number. number ≡ place) }
{
    match u32::try_from(place) {
        Ok(number) => Ok(number),
        Err(_) => Err(Memory),
    }
}

/// The number of the type of this name.
#[tactic(auto, unfolding(crate::specs::Names::type_number))]
fn type_number(types: &Types<'_>, name: &Identifier) -> Result<u32, ShapeError>
    ensures { Gives (λ x. x) result (names.or_unknown name.now.at (names.type_number name.now.name (types_of types.now))) }
{
    match types.names.place(name.name.bytes()) {
        Some(place) => Ok(numbered(place, 2)?),
        None => Err(ShapeError::Fault {
            at: name.at,
            kind: ShapeKind::Unknown,
        }),
    }
}

/// Whether this is the number of a tuple type.
fn is_tuple(types: &Types<'_>, number: u32) -> bool
    ensures { result ≡ unwrap_or (slice_get (types_of types.now).tuples (number - 2)) false }
{
    types
        .tuples
        .get(number.saturating_sub(2) as usize)
        .copied()
        .unwrap_or(false)
}

/// The number of the tuple type of this name.
#[tactic(auto, unfolding(crate::specs::Names::tuple_type))]
pub fn tuple_type(types: &Types<'_>, name: &Identifier) -> Result<u32, ShapeError>
    ensures { Gives (λ x. x) result (names.tuple_type (types_of types.now) name.now) }
{
    let number = type_number(types, name)?;
    if is_tuple(types, number) {
        return Ok(number);
    }
    Err(ShapeError::Fault {
        at: name.at,
        kind: ShapeKind::CellType,
    })
}

/// The number of the type of an array's cells.
#[tactic(auto, unfolding(crate::specs::Quantifiers::element_number))]
pub fn element_number(types: &Types<'_>, element: &Element) -> Result<u32, ShapeError>
    ensures { Gives (λ x. x) result (spec.element_number (types_of types.now) element.now) }
{
    match element {
        Element::Int(_) => Ok(0),
        Element::Bool(_) => Ok(1),
        Element::Named(name) => type_number(types, name),
    }
}

/// Adds a variable, and gives its form.
fn add_fresh(alloc: Global, sort: Sort, frame: &mut Frame) -> Result<Linear, Memory>
    ensures { IfOk result (λ form. spec.fresh sort (frame_of frame.old) ≡ (form, frame_of frame.new)) }
{
    let number = frame.next;
    frame.add_variable(alloc, sort)?;
    variable_form(alloc, number)
}

/// The length of an array: as it is written, or else a new variable that is at least 0.
#[tactic(auto, unfolding(crate::specs::Quantifiers::length_of))]
fn length_of(
    alloc: Global,
    scope: &Scope<'_>,
    length: &Option<IndexExpression>,
    frame: &mut Frame,
) -> Result<Linear, ShapeError>
    ensures { Steps (λ x. x) result (frame_of frame.new) (spec.length_of scope.now (option_map plain_index length.now) (frame_of frame.old)) }
{
    match length {
        Some(index) => frame.index(alloc, scope, index),
        None => Ok(add_fresh(alloc, Sort::Nat, frame)?),
    }
}

/// A type as it is written.
#[tactic(auto, unfolding(crate::specs::Quantifiers::type_in))]
pub fn type_in(
    alloc: Global,
    types: &Types<'_>,
    scope: &Scope<'_>,
    ty: &Type,
    frame: &mut Frame,
) -> Result<CoreTy, ShapeError>
    ensures { Steps (λ x. x) result (frame_of frame.new) (spec.type_in (types_of types.now) scope.now (plain_type ty.now) (frame_of frame.old)) }
{
    match ty {
        Type::Int(_) => Ok(CoreTy::Int(add_fresh(alloc, Sort::Int, frame)?)),
        Type::IntOf(index, _) => Ok(CoreTy::Int(frame.index(alloc, scope, index)?)),
        Type::Bool(_) => Ok(CoreTy::Bool),
        Type::Named(name) => Ok(CoreTy::Named(tuple_type(types, name)?)),
        Type::Array(element, length) => {
            let number = element_number(types, element)?;
            Ok(CoreTy::Array(number, length_of(alloc, scope, length, frame)?))
        }
    }
}

/// Adds types in order.
#[tactic(auto, unfolding(crate::specs::Quantifiers::types_in))]
pub fn add_types(
    alloc: Global,
    types: &Types<'_>,
    scope: &Scope<'_>,
    mut written: &[Type],
    made: &mut Vec<CoreTy>,
    frame: &mut Frame,
) -> Result<(), ShapeError>
    ensures { Gives (λ _. (made.new.items, frame_of frame.new)) result (spec.types_in (types_of types.now) scope.now (map plain_type written.entry.now) made.old.items (frame_of frame.old)) }
{
    while let [ty, rest @ ..] = written {
        made.push(type_in(alloc, types, scope, ty, frame)?)?;
        written = rest;
    }
    Ok(())
}

/// The place of an array's cells.
fn place_of_element(element: &Element) -> u32
    ensures { result ≡ element_at element.now }
{
    match element {
        Element::Int(at) | Element::Bool(at) => *at,
        Element::Named(name) => name.at,
    }
}

/// The place of a type.
pub fn place_of_type(ty: &Type) -> u32
    ensures { result ≡ type_at (plain_type ty.now) }
{
    match ty {
        Type::Int(at) | Type::IntOf(_, at) | Type::Bool(at) => *at,
        Type::Named(name) => name.at,
        Type::Array(element, _) => place_of_element(element),
    }
}
