//! Clauses of `if` and `while`.

ghost use Rattle.std.specs.Prelude.{◌≡◌, map, []};
ghost use Rattle.std.specs.Option.{option_map};
ghost use Rattle.xanadu_tree.specs.PlainTreeOf.{plain_clause, plain_parameter};
ghost use Rattle.type_shapes.specs.Code.{Gives, Steps};
ghost use Rattle.type_shapes.specs.FrameOf.{frame_of};
ghost use Rattle.type_shapes.specs.Quantifiers.{is_index};
ghost use Rattle.expression_shapes.specs.SitesOf.{locals_of};
ghost use Rattle.scope_shapes.specs.Statements as spec;
ghost use Rattle.type_shapes.specs.TypesOf.{types_of};

use expression_shapes::{Locals, kind_of_variable};
use std::alloc::Global;
use std::collections::BTreeSet;
use type_shapes::{
    Frame, ShapeError, ShapeKind, Types, kind_of, known, open, place_of_type, same_kind, type_in,
};
use xan_seq::Seq;
use xanadu_tree::{Clause, CoreTy, Kind, Parameter, WrittenClause};

/// The type, where it is of the variable's kind.
fn matching(wanted: Kind, at: u32, ty: CoreTy) -> Result<CoreTy, ShapeError>
    ensures { Gives (λ x. x) result (spec.matching wanted at ty) }
{
    if same_kind(kind_of(&ty), wanted) {
        return Ok(ty);
    }
    Err(ShapeError::Fault {
        at,
        kind: ShapeKind::OtherKind,
    })
}

/// Whether the clause named the variable before.
fn is_named(named: &BTreeSet<u32>, number: u32) -> bool
    ensures { result ≡ is_index number named.now.keys }
{
    named.contains(&number)
}

/// One variable of a clause with its type.
#[tactic(auto, unfolding(crate::specs::Statements::clause_variable))]
fn clause_variable(
    alloc: Global,
    types: &Types<'_>,
    locals: &Locals<'_>,
    parameter: &Parameter,
    named: &BTreeSet<u32>,
    frame: &mut Frame,
) -> Result<(u32, CoreTy), ShapeError>
    ensures { Steps (λ x. x) result (frame_of frame.new) (spec.clause_variable (types_of types.now) (locals_of locals.now) (plain_parameter parameter.now) named.now.keys (frame_of frame.old)) }
{
    let number = known(&locals.variables, &parameter.name)?;
    if is_named(named, number) {
        return Err(ShapeError::Fault {
            at: parameter.name.at,
            kind: ShapeKind::NamedTwice,
        });
    }
    let ty = type_in(alloc, types, &locals.indices, &parameter.ty, frame)?;
    let wanted = kind_of_variable(locals, number);
    let ty = matching(wanted, place_of_type(&parameter.ty), ty)?;
    Ok((number, ty))
}

/// Adds the variables of a clause, and their numbers to those that it named before.
#[tactic(auto, unfolding(crate::specs::Statements::clause_variables))]
fn add_different_variables(
    alloc: Global,
    types: &Types<'_>,
    locals: &Locals<'_>,
    mut parameters: &[Parameter],
    named: &mut BTreeSet<u32>,
    vars: &mut Vec<(u32, CoreTy)>,
    frame: &mut Frame,
) -> Result<(), ShapeError>
    ensures { Gives (λ _. (vars.new.items, frame_of frame.new)) result (spec.clause_variables (types_of types.now) (locals_of locals.now) (map plain_parameter parameters.entry.now) named.old.keys vars.old.items (frame_of frame.old)) }
{
    while let [parameter, rest @ ..] = parameters {
        let one = clause_variable(alloc, types, locals, parameter, named, frame)?;
        let number = one.0;
        vars.push(one)?;
        named.insert(number)?;
        parameters = rest;
    }
    Ok(())
}

/// Adds the variables of a clause.
fn add_variables(
    alloc: Global,
    types: &Types<'_>,
    locals: &Locals<'_>,
    parameters: &[Parameter],
    vars: &mut Vec<(u32, CoreTy)>,
    frame: &mut Frame,
) -> Result<(), ShapeError>
    ensures { Gives (λ _. (vars.new.items, frame_of frame.new)) result (spec.clause_variables (types_of types.now) (locals_of locals.now) (map plain_parameter parameters.now) [] vars.old.items (frame_of frame.old)) }
{
    let mut named = BTreeSet::new(alloc);
    add_different_variables(alloc, types, locals, parameters, &mut named, vars, frame)
}

/// A clause, whose names reach what follows it.
#[tactic(auto, unfolding(crate::specs::Statements::clause))]
fn clause<'a>(
    alloc: Global,
    types: &Types<'a>,
    written: &'a WrittenClause,
    locals: &mut Locals<'a>,
) -> Result<Clause, ShapeError>
    ensures { Steps (λ x. x) result (locals_of locals.new) (spec.clause (types_of types.now) (plain_clause written.now) (locals_of locals.old)) }
{
    let first = locals.next;
    let mut frame = open(alloc, &mut locals.indices, first, &written.quantifier)?;
    let mut vars = Vec::new(alloc);
    add_variables(
        alloc,
        types,
        locals,
        &written.variables,
        &mut vars,
        &mut frame,
    )?;
    locals.next = frame.next;
    let quant = frame.close(&written.quantifier)?;
    Ok(Clause {
        first,
        quant,
        vars: Seq::from_vec(vars),
    })
}

/// A clause, where one is written.
#[tactic(auto, unfolding(crate::specs::Statements::clause_or_none))]
pub fn clause_or_none<'a>(
    alloc: Global,
    types: &Types<'a>,
    written: &'a Option<WrittenClause>,
    locals: &mut Locals<'a>,
) -> Result<Option<Clause>, ShapeError>
    ensures { Steps (λ x. x) result (locals_of locals.new) (spec.clause_or_none (types_of types.now) (option_map plain_clause written.now) (locals_of locals.old)) }
{
    match written {
        None => Ok(None),
        Some(it) => Ok(Some(clause(alloc, types, it, locals)?)),
    }
}
