//! What names mean where the body of a function begins.

ghost use Rattle.std.specs.Prelude.{◌≡◌, ◌+◌, map, IfOk, OnOk};
ghost use Rattle.std.specs.Option.{option_map};
ghost use Rattle.xanadu_tree.specs.PlainTreeOf.{plain_parameter, plain_quantifier};
ghost use Rattle.type_shapes.specs.Headers as spec;

use crate::scope::Scope;
use xan_io::Memory;
use xanadu_tree::{Binder, Parameter, Quantifier};

/// The number after this one.
fn next_number(number: u32) -> Result<u32, Memory>
    ensures { IfOk result (λ next. next ≡ number + 1) }
{
    match number.checked_add(1) {
        Some(next) => Ok(next),
        None => Err(Memory),
    }
}

/// Adds the names of parameters, numbered from 0.
#[tactic(auto, unfolding(crate::specs::Headers::parameter_names))]
pub fn add_parameter_names<'a>(
    mut parameters: &'a [Parameter],
    scope: &mut Scope<'a>,
) -> Result<(), Memory>
    ensures { OnOk result (scope.new ≡ spec.parameter_names (map plain_parameter parameters.entry.now) 0 scope.old) }
{
    let mut number = 0;
    while let [parameter, rest @ ..] = parameters {
        scope.declare(parameter.name.name.bytes(), number)?;
        number = next_number(number)?;
        parameters = rest;
    }
    Ok(())
}

/// Adds the names of binders, numbered from 0.
#[tactic(auto, unfolding(crate::specs::Headers::binder_names))]
fn add_binder_names<'a>(mut binders: &'a [Binder], scope: &mut Scope<'a>) -> Result<(), Memory>
    ensures { OnOk result (scope.new ≡ spec.binder_names binders.entry.now 0 scope.old) }
{
    let mut number = 0;
    while let [binder, rest @ ..] = binders {
        scope.declare(binder.name.name.bytes(), number)?;
        number = next_number(number)?;
        binders = rest;
    }
    Ok(())
}

/// Adds the index names that a function's quantifier binds.
#[tactic(auto, unfolding(crate::specs::Headers::quantifier_names))]
pub fn add_quantifier_names<'a>(
    quantifier: &'a Option<Quantifier>,
    scope: &mut Scope<'a>,
) -> Result<(), Memory>
    ensures { OnOk result (scope.new ≡ spec.quantifier_names (option_map plain_quantifier quantifier.now) scope.old) }
{
    match quantifier {
        None => Ok(()),
        Some(written) => add_binder_names(&written.binders, scope),
    }
}
