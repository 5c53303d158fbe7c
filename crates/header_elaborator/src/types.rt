//! Types: their kinds, their indices, and what is asked of them.

ghost use Rattle.std.specs.Prelude.{◌≡◌, option_map};
ghost use Rattle.header_elaborator.specs.Code.{Gives};
ghost use Rattle.state_types.specs.Types.{index_of, same_kind};
ghost use Rattle.typed_core.specs.Joins as joins;
ghost use Rattle.typed_core.specs.States as spec;

use crate::error::Stop;
use state_types::{Ty, TypeId};
use xan_lin::Form;

/// Whether the types differ in their indices at most.
pub fn is_like(left: &Ty, right: &Ty) -> bool
    ensures { result ≡ same_kind left.now right.now }
{
    match (left, right) {
        (Ty::Int(_), Ty::Int(_)) | (Ty::Bool, Ty::Bool) => true,
        (Ty::Array(one, _), Ty::Array(other, _)) | (Ty::Named(one), Ty::Named(other)) => {
            one == other
        }
        _ => false,
    }
}

/// The value of a number, or the length of an array.
pub fn index_of(ty: &Ty) -> Option<&Form>
    ensures { option_map (λ form. form.now) result ≡ index_of ty.now }
{
    match ty {
        Ty::Int(index) | Ty::Array(_, index) => Some(index),
        Ty::Bool | Ty::Named(_) => None,
    }
}

/// Whether the type has an index.
pub fn has_index(ty: &Ty) -> bool
    ensures { result ≡ joins.has_index ty.now }
{
    match ty {
        Ty::Int(_) | Ty::Array(_, _) => true,
        Ty::Bool | Ty::Named(_) => false,
    }
}

/// The type with this index, where it has one.
pub fn with_index(ty: &Ty, index: Form) -> Ty
    ensures { result ≡ joins.with_index ty.now index }
{
    match ty {
        Ty::Int(_) => Ty::Int(index),
        Ty::Bool => Ty::Bool,
        Ty::Array(element, _) => Ty::Array(*element, index),
        Ty::Named(number) => Ty::Named(*number),
    }
}

/// The number of a tuple's type.
pub fn as_tuple(ty: &Ty) -> Result<TypeId, Stop>
    ensures { Gives (λ number. number) result (spec.as_tuple ty.now) }
{
    match ty {
        Ty::Named(number) => Ok(*number),
        Ty::Int(_) | Ty::Bool | Ty::Array(_, _) => Err(Stop::Misfit),
    }
}
