//! The closed types and the signatures of a program, and the limits of its declarations.

ghost use Rattle.std.specs.Prelude.{◌≡◌, ◌+◌, ◌≤◌, [], ◌∷◌, map, length, IfOk};
ghost use Rattle.header_elaborator.specs.Code.{Gives};
ghost use Rattle.state_types.specs.Tables.{IsClosed, int_cell, bool_cell};
ghost use Rattle.typed_core.specs.Headers as spec;
ghost use Rattle.typed_core.specs.Limits.{within};
ghost use Rattle.xan_lin.specs.declared.term.LimitKind.TheVariants as limit;
ghost use Rattle.xanadu_tree.specs.PlainOf.{plain_core, plain_fun};

use crate::error::Stop;
use crate::forms::{forms_from, needed_type, types_from};
use crate::limits::{within, within_length};
use crate::strays::{hold, is_closed, type_rises};
use state_types::{Packed, Signature, TypeTable};
use std::alloc::Global;
use xan_lin::LimitKind;
use xan_seq::Seq;
use xanadu_tree::{Core, CoreFun, Packing};

/// The parts of each type are few.
#[tactic(auto, unfolding(typed_core::specs::Headers::few_parts))]
fn few_parts(mut packings: &[Packing]) -> Result<(), Stop>
    ensures { Gives (λ _. tt) result (spec.few_parts packings.entry.now) }
{
    while let [packing, later @ ..] = packings {
        within_length(LimitKind::Parameters, packing.parts.as_slice().len())?;
        packings = later;
    }
    Ok(())
}

/// The parameters of each function are few.
#[tactic(auto, unfolding(typed_core::specs::Headers::few_parameters))]
fn few_parameters(mut funs: &[CoreFun]) -> Result<(), Stop>
    ensures { Gives (λ _. tt) result (spec.few_parameters (map plain_fun funs.entry.now)) }
{
    while let [fun, later @ ..] = funs {
        within_length(LimitKind::Parameters, fun.params.as_slice().len())?;
        funs = later;
    }
    Ok(())
}

/// So many declarations are within the limits: functions, types, parts, parameters.
#[tactic(auto, unfolding(typed_core::specs::Headers::few_declarations))]
pub fn few_declarations(core: &Core) -> Result<(), Stop>
    ensures few { Gives (λ _. tt) result (spec.few_declarations (plain_core core.now)) }
    ensures types { IfOk result (λ _. length core.now.types ≤ 1024) }
{
    within_length(LimitKind::Functions, core.funs().len())?;
    within_length(LimitKind::Types, core.types().len())?;
    few_parts(core.types())?;
    few_parameters(core.funs())
}

/// A closed type.
#[tactic(auto, using(crate::proofs::StrayTests::closed_of), unfolding(typed_core::specs::Headers::closed_type))]
fn closed_type(alloc: Global, packing: &Packing) -> Result<Packed, Stop>
    ensures made { Gives (λ packed. packed) result (spec.closed_type packing.now) }
    ensures closed { IfOk result (λ packed. IsClosed packed) }
{
    let rows = forms_from(alloc, packing.quant.rows.as_slice())?;
    let parts = types_from(alloc, packing.parts.as_slice())?;
    within(LimitKind::Variables, u64::from(packing.quant.count))?;
    within_length(LimitKind::Rows, packing.quant.rows.as_slice().len())?;
    let packed = Packed {
        vars: packing.quant.count,
        rows: Seq::from_vec(rows),
        parts: Seq::from_vec(parts),
        tuple: packing.tuple,
    };
    hold(is_closed(&packed))?;
    Ok(packed)
}

/// The closed types: types 0 and 1, and then the declared ones.
#[tactic(auto, unfolding(typed_core::specs::Headers::closed_types))]
pub fn table_of(alloc: Global, mut packings: &[Packing]) -> Result<TypeTable, Stop>
    requires { length packings.now ≤ 1024 }
    ensures { Gives (λ table. table) result (spec.closed_types packings.entry.now (int_cell ∷ bool_cell ∷ [])) }
{
    let mut table = TypeTable::new(alloc)?;
    while let [packing, later @ ..] = packings {
        let _id = table.add(closed_type(alloc, packing)?)?;
        packings = later;
    }
    Ok(table)
}

/// The variables of a function and of its result are few.
fn few_variables(fun: &CoreFun) -> Result<(), Stop>
    ensures { Gives (λ _. tt) result (within limit.Variables (fun.now.quant.count + fun.now.result_quant.count)) }
{
    let own = u64::from(fun.quant.count);
    within(
        LimitKind::Variables,
        own + u64::from(fun.result_quant.count),
    )
}

/// The signature of a function.
#[tactic(auto, unfolding(typed_core::specs::Headers::signature))]
fn signature(alloc: Global, fun: &CoreFun) -> Result<Signature, Stop>
    ensures { Gives (λ sig. sig) result (spec.signature (plain_fun fun.now)) }
{
    let rows = forms_from(alloc, fun.quant.rows.as_slice())?;
    let params = types_from(alloc, fun.params.as_slice())?;
    let result_rows = forms_from(alloc, fun.result_quant.rows.as_slice())?;
    hold(type_rises(&fun.result))?;
    let result = needed_type(&fun.result)?;
    few_variables(fun)?;
    within_length(LimitKind::Rows, fun.quant.rows.as_slice().len())?;
    within_length(LimitKind::Rows, fun.result_quant.rows.as_slice().len())?;
    Ok(Signature {
        vars: fun.quant.count,
        rows: Seq::from_vec(rows),
        params: Seq::from_vec(params),
        result_vars: fun.result_quant.count,
        result_rows: Seq::from_vec(result_rows),
        result,
    })
}

/// The signatures of functions in order.
#[tactic(auto, unfolding(typed_core::specs::Headers::signatures))]
pub fn signatures(alloc: Global, mut funs: &[CoreFun]) -> Result<Vec<Signature>, Stop>
    ensures { Gives (λ sigs. sigs.items) result (spec.signatures (map plain_fun funs.entry.now) []) }
{
    let mut made = Vec::new(alloc);
    while let [fun, later @ ..] = funs {
        made.push(signature(alloc, fun)?)?;
        funs = later;
    }
    Ok(made)
}
