//! Simple kinds.

ghost use Rattle.std.specs.Prelude.{◌≡◌};
ghost use Rattle.type_shapes.specs.Kinds as spec;

use xanadu_tree::{CoreTy, Kind, Packing};

/// The kind of a type.
pub fn kind_of(ty: &CoreTy) -> Kind
    ensures { result ≡ spec.kind_of ty.now }
{
    match ty {
        CoreTy::Int(_) => Kind::Int,
        CoreTy::Bool => Kind::Bool,
        CoreTy::Array(element, _) => Kind::Array(*element),
        CoreTy::Named(number) => Kind::Named(*number),
    }
}

/// Whether two kinds are the same.
pub fn same_kind(a: Kind, b: Kind) -> bool
    ensures { result ≡ spec.same_kind a b }
{
    match (a, b) {
        (Kind::Int, Kind::Int) | (Kind::Bool, Kind::Bool) | (Kind::Unit, Kind::Unit) => true,
        (Kind::Array(x), Kind::Array(y)) => x == y,
        (Kind::Named(x), Kind::Named(y)) => x == y,
        _ => false,
    }
}

/// The kind of the type at a place of a list.
#[tactic(auto, unfolding(crate::specs::Kinds::kind_at))]
pub fn kind_at(types: &[CoreTy], place: usize) -> Kind
    ensures { result ≡ spec.kind_at types.now place }
{
    match types.get(place) {
        Some(ty) => kind_of(ty),
        None => Kind::Unit,
    }
}

/// The kind of a cell of this type.
#[tactic(auto, unfolding(crate::specs::Kinds::element_kind))]
pub fn element_kind(packings: &[Packing], number: u32) -> Kind
    ensures { result ≡ spec.element_kind packings.now number }
{
    if number == 0 {
        return Kind::Int;
    }
    if number == 1 {
        return Kind::Bool;
    }
    let Some(packing) = packings.get(number.saturating_sub(2) as usize) else {
        return Kind::Unit;
    };
    if packing.tuple {
        return Kind::Named(number);
    }
    kind_at(packing.parts.as_slice(), 0)
}

/// The types of the parts of a declared type.
#[tactic(auto, unfolding(crate::specs::Kinds::parts_of))]
pub fn parts_of(packings: &[Packing], number: u32) -> &[CoreTy]
    ensures { result.now ≡ spec.parts_of packings.now number }
{
    match packings.get(number.saturating_sub(2) as usize) {
        Some(packing) => packing.parts.as_slice(),
        None => &[],
    }
}
