//! Kinds of values, as what makes them has them.

ghost use Rattle.std.specs.Prelude.{◌≡◌, slice_get};
ghost use Rattle.std.specs.Option.{option_and_then};
ghost use Rattle.value_lowering.specs.Frames as frames;
ghost use Rattle.xanadu_tree.specs.KindRules as rules;
ghost use Rattle.xanadu_tree.specs.PlainOf.{plain_expr};

use xanadu_tree::{CoreExpr, CoreTy, Kind, Packing};

/// A type without its index.
pub fn kind_of(ty: &CoreTy) -> Kind
    ensures { result ≡ rules.kind_of ty.now }
{
    match ty {
        CoreTy::Int(_) => Kind::Int,
        CoreTy::Bool => Kind::Bool,
        CoreTy::Array(element, _) => Kind::Array(*element),
        CoreTy::Named(number) => Kind::Named(*number),
    }
}

// What a cell of a declared type holds.
fn held_kind(number: u32, packing: &Packing) -> Option<Kind>
    ensures { result ≡ rules.held_kind number packing.now }
{
    if packing.tuple {
        return Some(Kind::Named(number));
    }
    match packing.parts.as_slice() {
        [part, ..] => Some(kind_of(part)),
        [] => None,
    }
}

// What a cell of a type holds.
fn cell_kind(types: &[Packing], number: u32) -> Option<Kind>
    ensures { result ≡ rules.cell_kind types.now number }
{
    match number {
        0 => Some(Kind::Int),
        1 => Some(Kind::Bool),
        _ => match types.get(number as usize - 2) {
            Some(packing) => held_kind(number, packing),
            None => None,
        },
    }
}

// What a cell of an array of this kind holds.
fn cell_of(types: &[Packing], array: Option<Kind>) -> Option<Kind>
    ensures { result ≡ option_and_then (frames.cell_of types.now) array }
{
    match array {
        Some(Kind::Array(element)) => cell_kind(types, element),
        Some(Kind::Int | Kind::Bool | Kind::Named(_) | Kind::Unit) | None => None,
    }
}

// The kind of this number.
fn kind_at(kinds: &[Kind], number: u32) -> Option<Kind>
    ensures { result ≡ slice_get kinds.now number }
{
    kinds.get(number as usize).copied()
}

// The kind of a value. No operand is looked at but the array of an index.
#[cycle(kinds)]
#[tactic(auto, using(xanadu_tree::proofs::Equations::plain_trees), unfolding(crate::specs::Frames::kind_found))]
fn kind_found(e: &CoreExpr, types: &[Packing], results: &[Kind], kinds: &[Kind]) -> Option<Kind>
    ensures { result ≡ frames.kind_found (record { types = types.now; results = results.now; kinds = kinds.now }) (plain_expr e.now) }
{
    match e {
        CoreExpr::Int(_) | CoreExpr::Neg(_) | CoreExpr::Chain { .. } | CoreExpr::Len(_) => {
            Some(Kind::Int)
        }
        CoreExpr::Bool(_) | CoreExpr::Compare(_, _, _) => Some(Kind::Bool),
        CoreExpr::Var(x) => kind_at(kinds, *x),
        CoreExpr::Index(array, _, _) => cell_of(types, kind_found(array, types, results, kinds)),
        CoreExpr::Call { fun, .. } => kind_at(results, *fun),
        CoreExpr::Make { ty, .. } => Some(Kind::Named(*ty)),
        CoreExpr::New { ty, .. } => Some(Kind::Array(*ty)),
    }
}

/// The number of the tuple type of which the expression is a value; 0 where it is none.
pub fn tuple_number(e: &CoreExpr, types: &[Packing], results: &[Kind], kinds: &[Kind]) -> u32
    ensures { result ≡ frames.tuple_number (record { types = types.now; results = results.now; kinds = kinds.now }) (plain_expr e.now) }
{
    match kind_found(e, types, results, kinds) {
        Some(Kind::Named(number)) => number,
        Some(Kind::Int | Kind::Bool | Kind::Array(_) | Kind::Unit) | None => 0,
    }
}
