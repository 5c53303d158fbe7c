//! Names of types and their bodies, and headers of functions.

ghost use Rattle.std.specs.Prelude.{◌≡◌, map, [], OnOk, slice_get};
ghost use Rattle.std.specs.Option.{option_map};
ghost use Rattle.xanadu_tree.specs.PlainTreeOf.{plain_declaration, plain_function, plain_parameter, plain_quantifier, plain_result, plain_type, plain_type_body, plain_type_declaration};
ghost use Rattle.type_shapes.specs.Code.{Gives};
ghost use Rattle.type_shapes.specs.FrameOf.{frame_of};
ghost use Rattle.type_shapes.specs.Headers as spec;
ghost use Rattle.type_shapes.specs.HeadersOf.{given_of, header_of, functions_of};
ghost use Rattle.type_shapes.specs.TypesOf.{types_of};

use crate::error::{ShapeError, ShapeKind};
use crate::frame::{Frame, open};
use crate::kinds::kind_of;
use crate::scope::Scope;
use crate::table::Table;
use crate::types::{Types, add_types, narrowed, type_in};
use std::alloc::Global;
use xan_seq::Seq;
use xanadu_tree::{
    CoreTy, Declaration, FunctionDeclaration, Kind, Linear, Packing, Parameter, Quant, ResultType,
    TypeBody, TypeDeclaration,
};

/// What a function gives: its type in the core, and its kind.
#[derive(Drop)]
pub struct Given {
    pub quant: Quant,
    pub ty: CoreTy,
    pub kind: Kind,
}

/// The header of a function, and its declaration.
#[derive(Drop)]
pub struct Header<'a> {
    pub declaration: &'a FunctionDeclaration,
    pub quant: Quant,
    pub params: Vec<CoreTy>,
    pub given: Given,
}

/// The functions: their names, which have their numbers, and their headers.
#[derive(Drop)]
pub struct Functions<'a> {
    pub names: Table<'a>,
    pub headers: Vec<Header<'a>>,
}

/// No functions.
pub fn no_functions<'a>(alloc: Global) -> Functions<'a>
    ensures { functions_of result ≡ spec.no_functions }
{
    Functions {
        names: Table::new(alloc),
        headers: Vec::new(alloc),
    }
}

/// The header of this number.
pub fn header_at<'g, 'a>(headers: &'g [Header<'a>], place: usize) -> Option<&'g Header<'a>>
    ensures { option_map (λ h. header_of h.now) result ≡ slice_get (map header_of headers.now) place }
{
    headers.get(place)
}

/// Whether the body of a declared type is a tuple.
fn is_tuple(body: &TypeBody) -> bool
    ensures { result ≡ spec.is_tuple (plain_type_body body.now) }
{
    match body {
        TypeBody::Cell(_) => false,
        TypeBody::Tuple(_) => true,
    }
}

/// Adds the names of the declared types.
#[tactic(auto, unfolding(crate::specs::Headers::type_names))]
pub fn add_type_names<'a>(
    mut declarations: &'a [Declaration],
    types: &mut Types<'a>,
) -> Result<(), ShapeError>
    ensures { Gives (λ _. types_of types.new) result (spec.type_names (map plain_declaration declarations.entry.now) (types_of types.old)) }
{
    while let [declaration, rest @ ..] = declarations {
        if let Declaration::Type(d) = declaration {
            types.names.add(&d.name)?;
            types.tuples.push(is_tuple(&d.body))?;
        }
        declarations = rest;
    }
    Ok(())
}

/// Adds the types of the parts of a declared type.
#[tactic(auto, unfolding(crate::specs::Quantifiers::types_in))]
fn add_parts(
    alloc: Global,
    types: &Types<'_>,
    scope: &Scope<'_>,
    body: &TypeBody,
    made: &mut Vec<CoreTy>,
    frame: &mut Frame,
) -> Result<(), ShapeError>
    ensures { Gives (λ _. (made.new.items, frame_of frame.new)) result (spec.parts_in (types_of types.now) scope.now (plain_type_body body.now) made.old.items (frame_of frame.old)) }
{
    match body {
        TypeBody::Cell(ty) => {
            made.push(type_in(alloc, types, scope, ty, frame)?)?;
            Ok(())
        }
        TypeBody::Tuple(written) => add_types(alloc, types, scope, written, made, frame),
    }
}

/// The body of a declared type, in a scope of index names.
#[tactic(auto, unfolding(crate::specs::Headers::packing_in))]
fn packing_in<'a>(
    alloc: Global,
    types: &Types<'_>,
    scope: &mut Scope<'a>,
    d: &'a TypeDeclaration,
) -> Result<Packing, ShapeError>
    ensures { Gives (λ x. x) result (spec.packing_in (types_of types.now) scope.old (plain_type_declaration d.now)) }
{
    let mut frame = open(alloc, scope, 0, &d.quantifier)?;
    let mut parts = Vec::new(alloc);
    add_parts(alloc, types, scope, &d.body, &mut parts, &mut frame)?;
    let quant = frame.close(&d.quantifier)?;
    Ok(Packing {
        quant,
        parts: Seq::from_vec(parts),
        tuple: is_tuple(&d.body),
    })
}

/// The body of a declared type.
#[tactic(auto, unfolding(crate::specs::Headers::packing))]
fn read_packing(
    alloc: Global,
    types: &Types<'_>,
    d: &TypeDeclaration,
) -> Result<Packing, ShapeError>
    ensures { Gives (λ x. x) result (spec.packing (types_of types.now) (plain_type_declaration d.now)) }
{
    let mut scope = Scope::new(alloc);
    packing_in(alloc, types, &mut scope, d)
}

/// Adds the bodies of the declared types.
#[tactic(auto, unfolding(crate::specs::Headers::packings))]
pub fn add_packings(
    alloc: Global,
    types: &Types<'_>,
    mut declarations: &[Declaration],
    made: &mut Vec<Packing>,
) -> Result<(), ShapeError>
    ensures { Gives (λ _. made.new.items) result (spec.packings (types_of types.now) (map plain_declaration declarations.entry.now) made.old.items) }
{
    while let [declaration, rest @ ..] = declarations {
        if let Declaration::Type(d) = declaration {
            made.push(read_packing(alloc, types, d)?)?;
        }
        declarations = rest;
    }
    Ok(())
}

/// Adds the types of the parameters of a function, and their names to those that were read.
#[tactic(auto, unfolding(crate::specs::Headers::parameters_in))]
fn add_named_parameters<'a>(
    alloc: Global,
    types: &Types<'_>,
    scope: &Scope<'_>,
    mut parameters: &'a [Parameter],
    named: &mut Scope<'a>,
    made: &mut Vec<CoreTy>,
    frame: &mut Frame,
) -> Result<(), ShapeError>
    ensures { Gives (λ _. (made.new.items, frame_of frame.new)) result (spec.parameters_in (types_of types.now) scope.now (map plain_parameter parameters.entry.now) named.old made.old.items (frame_of frame.old)) }
{
    while let [parameter, rest @ ..] = parameters {
        if named.meaning(parameter.name.name.bytes()).is_some() {
            return Err(ShapeError::Fault {
                at: parameter.name.at,
                kind: ShapeKind::NamedTwice,
            });
        }
        let number = narrowed(made.len())?;
        made.push(type_in(alloc, types, scope, &parameter.ty, frame)?)?;
        named.declare(parameter.name.name.bytes(), number)?;
        parameters = rest;
    }
    Ok(())
}

/// Adds the types of the parameters of a function.
fn add_parameters<'a>(
    alloc: Global,
    types: &Types<'_>,
    scope: &Scope<'_>,
    parameters: &'a [Parameter],
    made: &mut Vec<CoreTy>,
    frame: &mut Frame,
) -> Result<(), ShapeError>
    ensures { Gives (λ _. (made.new.items, frame_of frame.new)) result (spec.parameters_in (types_of types.now) scope.now (map plain_parameter parameters.now) [] made.old.items (frame_of frame.old)) }
{
    let mut named: Scope<'a> = Scope::new(alloc);
    add_named_parameters(alloc, types, scope, parameters, &mut named, made, frame)
}

/// What a unit function gives.
fn nothing(alloc: Global) -> Given
    ensures { given_of result ≡ spec.nothing }
{
    Given {
        quant: Quant {
            count: 0,
            rows: Seq::from_vec(Vec::new(alloc)),
        },
        ty: CoreTy::Int(Linear {
            terms: Seq::from_vec(Vec::new(alloc)),
            constant: 0,
        }),
        kind: Kind::Unit,
    }
}

/// What a function gives, with its own variables numbered from `first` on.
#[tactic(auto, unfolding(crate::specs::Headers::given_in))]
fn given_in<'a>(
    alloc: Global,
    types: &Types<'_>,
    scope: &mut Scope<'a>,
    first: u32,
    result_type: &'a ResultType,
) -> Result<Given, ShapeError>
    ensures { Gives given_of result (spec.given_in (types_of types.now) scope.old first (plain_result result_type.now)) }
{
    match result_type {
        ResultType::Unit { at: _ } => Ok(nothing(alloc)),
        ResultType::Value {
            quantifier,
            ty,
            at: _,
        } => {
            let mut frame = open(alloc, scope, first, quantifier)?;
            let ty = type_in(alloc, types, scope, ty, &mut frame)?;
            let quant = frame.close(quantifier)?;
            let kind = kind_of(&ty);
            Ok(Given { quant, ty, kind })
        }
    }
}

/// The header of a function, in a scope of index names.
#[tactic(auto, unfolding(crate::specs::Headers::header_in))]
fn header_in<'a>(
    alloc: Global,
    types: &Types<'_>,
    scope: &mut Scope<'a>,
    declaration: &'a FunctionDeclaration,
) -> Result<Header<'a>, ShapeError>
    ensures { Gives header_of result (spec.header_in (types_of types.now) scope.old (plain_function declaration.now)) }
{
    let mut frame = open(alloc, scope, 0, &declaration.quantifier)?;
    let mut params = Vec::new(alloc);
    add_parameters(
        alloc,
        types,
        scope,
        &declaration.parameters,
        &mut params,
        &mut frame,
    )?;
    let quant = frame.close(&declaration.quantifier)?;
    let given = given_in(alloc, types, scope, quant.count, &declaration.result)?;
    Ok(Header {
        declaration,
        quant,
        params,
        given,
    })
}

/// The header of a function.
#[tactic(auto, unfolding(crate::specs::Headers::header))]
fn read_header<'a>(
    alloc: Global,
    types: &Types<'_>,
    declaration: &'a FunctionDeclaration,
) -> Result<Header<'a>, ShapeError>
    ensures { Gives header_of result (spec.header (types_of types.now) (plain_function declaration.now)) }
{
    let mut scope = Scope::new(alloc);
    header_in(alloc, types, &mut scope, declaration)
}

/// Adds the headers of the functions.
#[tactic(auto, unfolding(crate::specs::Headers::headers))]
pub fn add_headers<'a>(
    alloc: Global,
    types: &Types<'_>,
    mut declarations: &'a [Declaration],
    functions: &mut Functions<'a>,
) -> Result<(), ShapeError>
    ensures { Gives (λ _. functions_of functions.new) result (spec.headers (types_of types.now) (map plain_declaration declarations.entry.now) (functions_of functions.old)) }
{
    while let [declaration, rest @ ..] = declarations {
        if let Declaration::Function(d) = declaration {
            functions.names.add(&d.name)?;
            functions.headers.push(read_header(alloc, types, d)?)?;
        }
        declarations = rest;
    }
    Ok(())
}
