//! Unpacking of closed types.

ghost use Rattle.std.specs.Prelude.{◌≡◌, ◌+◌, ◌<◌, ◌≤◌, ◌⊎◌, Ok, Err, map, length, All, OnOk, OnErr, IfOk, IfErr, IsErrOf};
ghost use Rattle.xan_lin.specs.Linear.{NamesBelow};
ghost use Rattle.state_types.specs.Tables.{closed_at};
ghost use Rattle.state_types.specs.Types.{TypeBelow};
ghost use Rattle.state_types.specs.Unpacking as spec;

use crate::table::TypeTable;
use crate::types::{Ty, TypeId};
use arrayvec::ArrayVec;
use index_sorts::{Context, ContextError};
use std::alloc::Global;
use xan_lin::{Form, Term};

// The form in which variable 0 is `first`, and so on.
fn shifted(form: &Form, first: u32, vars: u32) -> Form
    requires named { NamesBelow vars form.now }
    requires room { first + vars ≤ 1024 }
    ensures { result ≡ spec.shifted first form.now }
{
    let mut terms = ArrayVec::<Term, 16>::new();
    for term in form.terms() {
        terms.push(Term {
            var: first + term.var,
            coef: term.coef,
        });
    }
    let Ok(made) = Form::from_terms(terms.as_slice(), form.constant_part()) else {
        unreachable!()
    };
    made
}

// The same of a type.
fn shifted_type(ty: &Ty, first: u32, vars: u32) -> Ty
    requires named { TypeBelow vars ty.now }
    requires room { first + vars ≤ 1024 }
    ensures { result ≡ spec.shifted_type first ty.now }
{
    match ty {
        Ty::Int(index) => Ty::Int(shifted(index, first, vars)),
        Ty::Bool => Ty::Bool,
        Ty::Array(id, index) => Ty::Array(*id, shifted(index, first, vars)),
        Ty::Named(id) => Ty::Named(*id),
    }
}

// The parts of the type.
fn shifted_parts(
    alloc: Global,
    parts: &[Ty],
    first: u32,
    vars: u32,
) -> Result<Vec<Ty>, ContextError>
    requires named { All (TypeBelow vars) parts.now }
    requires room { first + vars ≤ 1024 }
    ensures made { IfOk result (λ made. made.items ≡ map (spec.shifted_type first) parts.now) }
    ensures memory { IfErr result (λ error. error ≡ ContextError.Memory) }
{
    let mut made = Vec::new(alloc);
    for part in parts {
        let Ok(()) = made.push(shifted_type(part, first, vars)) else {
            return Err(ContextError::Memory);
        };
    }
    Ok(made)
}

// Adds the rows of the type.
fn add_rows(ctx: &mut Context, rows: &[Form], first: u32, vars: u32) -> Result<(), ContextError>
    requires named { All (NamesBelow vars) rows.now }
    requires room { first + vars ≤ 1024 }
    requires fresh { ctx.old.vars ≡ first + vars }
    ensures added { OnOk result (spec.with_rows ctx.old (map (spec.shifted first) rows.now) ≡ Ok ctx.new) }
    ensures refused { IfErr result (λ error. (error ≡ ContextError.Memory) ⊎ (spec.with_rows ctx.old (map (spec.shifted first) rows.now) ≡ Err error)) }
    ensures left { OnErr result (spec.HasSome ctx.old (map (spec.shifted first) rows.now) ctx.new) }
    ensures never { IsErrOf result ContextError.Variables → ⊥ }
{
    for row in rows {
        ctx.add(shifted(row, first, vars))?;
    }
    Ok(())
}

/// Makes the variables of a closed type fresh variables of the context, adds its rows to the context, and answers the types of its parts.
/// The type is in the table. `Variables` comes exactly where the context would have more than 1,024 variables, and then it is as before.
/// `Rows` comes exactly where it would not, and it would list more than 512 rows. After `Rows` and after `Memory` it is as before, or has
/// the variables and some first rows.
#[tactic(auto, unfolding(crate::specs::Unpacking::unpacked))]
pub fn unpack(
    alloc: Global,
    table: &TypeTable,
    ctx: &mut Context,
    id: TypeId,
) -> Result<Vec<Ty>, ContextError>
    requires { id < length table.now }
    ensures unpacked { IfOk result (λ parts. spec.unpacked ctx.old (closed_at table.now id) ≡ Ok (ctx.new, parts.items)) }
    ensures refused { IfErr result (λ error. (error ≡ ContextError.Memory) ⊎ (spec.unpacked ctx.old (closed_at table.now id) ≡ Err error)) }
    ensures variables { IsErrOf result ContextError.Variables → ctx.new ≡ ctx.old }
    ensures left { OnErr result (spec.IsLeft ctx.old (closed_at table.now id) ctx.new) }
{
    let packed = table.at(id);
    let first = ctx.fresh(packed.vars)?;
    add_rows(ctx, packed.rows.as_slice(), first, packed.vars)?;
    shifted_parts(alloc, packed.parts.as_slice(), first, packed.vars)
}
