//! The parts of closed types, whose variables are fresh.

ghost use Rattle.std.specs.Prelude.{◌≡◌, ◌≤◌, ◌+◌, Ok, All, IfOk, map};
ghost use Rattle.operation_rules.specs.Rules as spec;
ghost use Rattle.state_types.specs.Tables.{IsClosed};
ghost use Rattle.state_types.specs.Types.{TypeBelow};
ghost use Rattle.state_types.specs.Unpacking as unpacking;
ghost use Rattle.xan_lin.specs.Linear.{NamesBelow};

use crate::rule::Rule;
use arrayvec::ArrayVec;
use state_types::{Packed, Ty};
use std::alloc::Global;
use xan_lin::{Form, Memory, Term, TooLarge};
use xan_seq::Seq;

// The form in which variable 0 is `first`, and so on.
fn shifted(form: &Form, first: u32, vars: u32) -> Form
    requires named { NamesBelow vars form.now }
    requires room { first + vars ≤ 2048 }
    ensures { result ≡ unpacking.shifted first form.now }
{
    let mut terms = ArrayVec::<Term, 16>::new();
    for term in form.terms() {
        terms.push(Term {
            var: first + term.var,
            coef: term.coef,
        });
    }
    let Ok(made) = Form::from_terms(terms.as_slice(), form.constant_part()) else {
        unreachable!()
    };
    made
}

// The same of a type.
fn shifted_type(ty: &Ty, first: u32, vars: u32) -> Ty
    requires named { TypeBelow vars ty.now }
    requires room { first + vars ≤ 2048 }
    ensures { result ≡ unpacking.shifted_type first ty.now }
{
    match ty {
        Ty::Int(index) => Ty::Int(shifted(index, first, vars)),
        Ty::Bool => Ty::Bool,
        Ty::Array(id, index) => Ty::Array(*id, shifted(index, first, vars)),
        Ty::Named(id) => Ty::Named(*id),
    }
}

// The rows of the type.
fn shifted_rows(
    alloc: Global,
    rows: &[Form],
    first: u32,
    vars: u32,
) -> Result<Vec<Result<Form, TooLarge>>, Memory>
    requires named { All (NamesBelow vars) rows.now }
    requires room { first + vars ≤ 2048 }
    ensures { IfOk result (λ made. made.items ≡ map (λ row. Ok (unpacking.shifted first row)) rows.now) }
{
    let mut made = Vec::new(alloc);
    for row in rows {
        let Ok(()) = made.push(Ok(shifted(row, first, vars))) else {
            return Err(Memory);
        };
    }
    Ok(made)
}

// The parts of the type.
fn shifted_parts(
    alloc: Global,
    parts: &[Ty],
    first: u32,
    vars: u32,
) -> Result<Vec<Result<Ty, TooLarge>>, Memory>
    requires named { All (TypeBelow vars) parts.now }
    requires room { first + vars ≤ 2048 }
    ensures { IfOk result (λ made. made.items ≡ map (λ part. Ok (unpacking.shifted_type first part)) parts.now) }
{
    let mut made = Vec::new(alloc);
    for part in parts {
        let Ok(()) = made.push(Ok(shifted_type(part, first, vars))) else {
            return Err(Memory);
        };
    }
    Ok(made)
}

/// The parts of a closed type, whose variables are fresh.
pub(crate) fn opens(
    alloc: Global,
    first: u32,
    demands: Vec<Form>,
    packed: &Packed,
) -> Result<Rule, Memory>
    requires closed { IsClosed packed.now }
    requires room { first + packed.now.vars ≤ 2048 }
    ensures { IfOk result (λ rule. rule ≡ spec.opens first demands.items packed.now) }
{
    let vars = packed.vars;
    let assumed = shifted_rows(alloc, packed.rows.as_slice(), first, vars)?;
    let given = shifted_parts(alloc, packed.parts.as_slice(), first, vars)?;
    Ok(Rule {
        demands: Seq::from_vec(demands),
        fresh: vars,
        assumed: Seq::from_vec(assumed),
        given: Seq::from_vec(given),
    })
}
