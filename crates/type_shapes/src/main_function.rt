//! Which functions may be `main`.

ghost use Rattle.std.specs.Prelude.{◌≡◌, map};
ghost use Rattle.xanadu_tree.specs.PlainTreeOf.{plain_parameter, plain_result};
ghost use Rattle.xanadu_tree.specs.Written.{result_at};
ghost use Rattle.type_shapes.specs.Code.{Gives};
ghost use Rattle.type_shapes.specs.Headers as spec;
ghost use Rattle.type_shapes.specs.HeadersOf.{header_of, functions_of};

use crate::error::{ShapeError, ShapeKind};
use crate::headers::{Functions, Header, header_at};
use crate::kinds::kind_of;
use crate::types::narrowed;
use xanadu_tree::{CoreTy, Kind, Parameter, ResultType};

/// Whether a run can give a parameter of this kind.
fn is_entry(kind: Kind) -> bool
    ensures { result ≡ spec.is_entry kind }
{
    match kind {
        Kind::Int | Kind::Bool => true,
        Kind::Array(element) => element == 0,
        Kind::Named(_) | Kind::Unit => false,
    }
}

/// The place of the first parameter that no run can give.
#[tactic(auto, unfolding(crate::specs::Headers::odd_parameter))]
fn odd_parameter(mut parameters: &[Parameter], mut types: &[CoreTy]) -> Option<u32>
    ensures { result ≡ spec.odd_parameter (map plain_parameter parameters.entry.now) types.entry.now }
{
    while let [parameter, later @ ..] = parameters {
        let [ty, others @ ..] = types else {
            return None;
        };
        if !is_entry(kind_of(ty)) {
            return Some(parameter.name.at);
        }
        parameters = later;
        types = others;
    }
    None
}

/// Whether a kind is that of numbers.
fn is_int(kind: Kind) -> bool
    ensures { result ≡ spec.is_int kind }
{
    match kind {
        Kind::Int => true,
        Kind::Bool | Kind::Array(_) | Kind::Named(_) | Kind::Unit => false,
    }
}

/// The place of what a function gives.
fn place_of_result(written: &ResultType) -> u32
    ensures { result ≡ result_at (plain_result written.now) }
{
    match written {
        ResultType::Unit { at } | ResultType::Value { at, .. } => *at,
    }
}

/// The place of the first part of main's header that no run can give or take.
#[tactic(auto, unfolding(crate::specs::Headers::odd_main))]
fn odd_main(main: &Header<'_>) -> Option<u32>
    ensures { result ≡ spec.odd_main (header_of main.now) }
{
    if let Some(at) = odd_parameter(&main.declaration.parameters, &main.params) {
        return Some(at);
    }
    if is_int(main.given.kind) {
        return None;
    }
    Some(place_of_result(&main.declaration.result))
}

/// The number of `main`, or the fault that there is none, at `end`, or that none can run.
#[tactic(auto, unfolding(crate::specs::Headers::main_number))]
pub fn main_number(functions: &Functions<'_>, end: u32) -> Result<u32, ShapeError>
    ensures { Gives (λ x. x) result (spec.main_number (functions_of functions.now) end) }
{
    let Some(place) = functions.names.place(b"main") else {
        return Err(ShapeError::Fault {
            at: end,
            kind: ShapeKind::NoMain,
        });
    };
    let Some(main) = header_at(&functions.headers, place) else {
        return Err(ShapeError::Fault {
            at: end,
            kind: ShapeKind::NoMain,
        });
    };
    if let Some(at) = odd_main(main) {
        return Err(ShapeError::Fault {
            at,
            kind: ShapeKind::MainKind,
        });
    }
    Ok(narrowed(place)?)
}
