//! Rules of the operations that need nothing but their operands' types.

ghost use Rattle.std.specs.Prelude.{◌≡◌, [], ◌∷◌, Ok};
ghost use Rattle.operation_rules.specs.Answers.{Gives, and_then};
ghost use Rattle.operation_rules.specs.Forms.{number_of};
ghost use Rattle.operation_rules.specs.Rules as spec;
ghost use Rattle.state_types.specs.declared.types.Ty.TheVariants as ty;
ghost use Rattle.xan_lin.specs.Linear.{sized, sum_of, difference_of};

use crate::error::RuleError;
use crate::forms::literal_form;
use crate::numbers::product;
use crate::operands::{as_number, as_truth, no_types, one_type, two_numbers};
use crate::rule::{Rule, gives_nothing, gives_number, gives_type};
use state_types::Ty;
use std::alloc::Global;

/// A number that is written.
pub(crate) fn literal(
    alloc: Global,
    number: &i64,
    types: &[Ty],
    first: u32,
) -> Result<Rule, RuleError>
    ensures { Gives (λ rule. rule) result (and_then (spec.no_types types.now) (λ _. Ok (spec.gives_number first (sized [] number.now)))) }
{
    no_types(types)?;
    Ok(gives_number(alloc, first, literal_form(number))?)
}

/// A truth value that is written.
pub(crate) fn truth(alloc: Global, types: &[Ty]) -> Result<Rule, RuleError>
    ensures { Gives (λ rule. rule) result (and_then (spec.no_types types.now) (λ _. Ok (spec.gives [] (ty.Bool ∷ [])))) }
{
    no_types(types)?;
    Ok(gives_type(alloc, Vec::new(alloc), Ty::Bool)?)
}

/// The same word.
pub(crate) fn moved(alloc: Global, types: &[Ty]) -> Result<Rule, RuleError>
    ensures { Gives (λ rule. rule) result (and_then (spec.one_type types.now) (λ t. Ok (spec.gives [] (t ∷ [])))) }
{
    let ty = one_type(types)?;
    Ok(gives_type(alloc, Vec::new(alloc), ty)?)
}

/// A sum.
pub(crate) fn sum(alloc: Global, types: &[Ty], first: u32) -> Result<Rule, RuleError>
    ensures { Gives (λ rule. rule) result (and_then (spec.two_numbers types.now) (λ both. Ok (spec.gives_number first (sum_of both.0 both.1)))) }
{
    let (f, g) = two_numbers(types)?;
    Ok(gives_number(alloc, first, f.add(&g))?)
}

/// A difference.
pub(crate) fn difference(alloc: Global, types: &[Ty], first: u32) -> Result<Rule, RuleError>
    ensures { Gives (λ rule. rule) result (and_then (spec.two_numbers types.now) (λ both. Ok (spec.gives_number first (difference_of both.0 both.1)))) }
{
    let (f, g) = two_numbers(types)?;
    Ok(gives_number(alloc, first, f.sub(&g))?)
}

/// A product.
pub(crate) fn multiplied(alloc: Global, types: &[Ty], first: u32) -> Result<Rule, RuleError>
    ensures { Gives (λ rule. rule) result (and_then (spec.two_numbers types.now) (λ both. Ok (spec.product first both.0 (number_of both.0) both.1 (number_of both.1)))) }
{
    let (f, g) = two_numbers(types)?;
    Ok(product(alloc, first, &f, &g)?)
}

/// A comparison.
pub(crate) fn compared(alloc: Global, types: &[Ty]) -> Result<Rule, RuleError>
    ensures { Gives (λ rule. rule) result (and_then (spec.two_numbers types.now) (λ _. Ok (spec.gives [] (ty.Bool ∷ [])))) }
{
    let _both = two_numbers(types)?;
    Ok(gives_type(alloc, Vec::new(alloc), Ty::Bool)?)
}

/// A branch by a comparison.
pub(crate) fn branched(alloc: Global, types: &[Ty]) -> Result<Rule, RuleError>
    ensures { Gives (λ rule. rule) result (and_then (spec.two_numbers types.now) (λ _. Ok (spec.gives [] []))) }
{
    let _both = two_numbers(types)?;
    Ok(gives_nothing(alloc, Vec::new(alloc)))
}

/// A branch by a truth value.
pub(crate) fn branched_truth(alloc: Global, types: &[Ty]) -> Result<Rule, RuleError>
    ensures { Gives (λ rule. rule) result (and_then (spec.one_type types.now) (λ t. and_then (spec.as_truth t) (λ _. Ok (spec.gives [] [])))) }
{
    let ty = one_type(types)?;
    as_truth(&ty)?;
    Ok(gives_nothing(alloc, Vec::new(alloc)))
}

/// A jump.
pub(crate) fn jumped(alloc: Global, types: &[Ty]) -> Result<Rule, RuleError>
    ensures { Gives (λ rule. rule) result (and_then (spec.no_types types.now) (λ _. Ok (spec.gives [] []))) }
{
    no_types(types)?;
    Ok(gives_nothing(alloc, Vec::new(alloc)))
}

/// A number that is printed.
pub(crate) fn printed(alloc: Global, types: &[Ty]) -> Result<Rule, RuleError>
    ensures { Gives (λ rule. rule) result (and_then (spec.one_type types.now) (λ t. and_then (spec.as_number t) (λ _. Ok (spec.gives [] [])))) }
{
    let ty = one_type(types)?;
    let _number = as_number(ty)?;
    Ok(gives_nothing(alloc, Vec::new(alloc)))
}
