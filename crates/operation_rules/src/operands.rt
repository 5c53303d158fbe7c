//! The types that an operation reads: how many there are, and of which kinds.

ghost use Rattle.std.specs.Prelude.{◌≡◌};
ghost use Rattle.operation_rules.specs.Answers.{Gives};
ghost use Rattle.operation_rules.specs.Rules as spec;

use crate::error::{Fault, RuleError};
use state_types::{Ty, TypeId};
use xan_lin::Form;

/// There are none.
pub(crate) fn no_types(types: &[Ty]) -> Result<(), RuleError>
    ensures { Gives (λ _. tt) result (spec.no_types types.now) }
{
    let [] = types else {
        return Err(RuleError::Fault(Fault::WrongCount));
    };
    Ok(())
}

/// The only one.
pub(crate) fn one_type(types: &[Ty]) -> Result<Ty, RuleError>
    ensures { Gives (λ ty. ty) result (spec.one_type types.now) }
{
    let [ty] = types else {
        return Err(RuleError::Fault(Fault::WrongCount));
    };
    Ok(ty.copy())
}

/// The only two.
pub(crate) fn two_types(types: &[Ty]) -> Result<(Ty, Ty), RuleError>
    ensures { Gives (λ both. both) result (spec.two_types types.now) }
{
    let [first, second] = types else {
        return Err(RuleError::Fault(Fault::WrongCount));
    };
    Ok((first.copy(), second.copy()))
}

/// The only three.
pub(crate) fn three_types(types: &[Ty]) -> Result<(Ty, Ty, Ty), RuleError>
    ensures { Gives (λ all. all) result (spec.three_types types.now) }
{
    let [first, second, third] = types else {
        return Err(RuleError::Fault(Fault::WrongCount));
    };
    Ok((first.copy(), second.copy(), third.copy()))
}

/// The value of a number.
pub(crate) fn as_number(ty: Ty) -> Result<Form, RuleError>
    ensures { Gives (λ form. form) result (spec.as_number ty) }
{
    match ty {
        Ty::Int(form) => Ok(form),
        Ty::Bool | Ty::Array(_, _) | Ty::Named(_) => Err(RuleError::Fault(Fault::WrongKind)),
    }
}

/// A truth value is one.
pub(crate) fn as_truth(ty: &Ty) -> Result<(), RuleError>
    ensures { Gives (λ _. tt) result (spec.as_truth ty.now) }
{
    match ty {
        Ty::Bool => Ok(()),
        Ty::Int(_) | Ty::Array(_, _) | Ty::Named(_) => Err(RuleError::Fault(Fault::WrongKind)),
    }
}

/// The type of an array's cells, and its length.
pub(crate) fn as_array(ty: Ty) -> Result<(TypeId, Form), RuleError>
    ensures { Gives (λ array. array) result (spec.as_array ty) }
{
    match ty {
        Ty::Array(element, len) => Ok((element, len)),
        Ty::Int(_) | Ty::Bool | Ty::Named(_) => Err(RuleError::Fault(Fault::WrongKind)),
    }
}

/// A tuple of the type of this number is one.
pub(crate) fn as_tuple(number: TypeId, ty: &Ty) -> Result<(), RuleError>
    ensures { Gives (λ _. tt) result (spec.as_tuple number ty.now) }
{
    let Ty::Named(other) = ty else {
        return Err(RuleError::Fault(Fault::WrongKind));
    };
    if number == *other {
        Ok(())
    } else {
        Err(RuleError::Fault(Fault::WrongKind))
    }
}

/// The values of the only two, which are numbers.
#[tactic(auto, unfolding(crate::specs::Rules::two_numbers))]
pub(crate) fn two_numbers(types: &[Ty]) -> Result<(Form, Form), RuleError>
    ensures { Gives (λ both. both) result (spec.two_numbers types.now) }
{
    let (first, second) = two_types(types)?;
    let left = as_number(first)?;
    let right = as_number(second)?;
    Ok((left, right))
}
