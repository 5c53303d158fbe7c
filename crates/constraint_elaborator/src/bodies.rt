//! Functions: where each body begins, and the walk through all of them.

ghost use Rattle.std.specs.Prelude.{◌≡◌, ◌≤◌, suc, [], map, length, slice_get, true, All, IfOk};
ghost use Rattle.std.specs.List.{enumerate_from, list_all};
ghost use Rattle.header_elaborator.specs.Code.{Gives};
ghost use Rattle.constraint_elaborator.specs.Top.{lists_behind, lists_of};
ghost use Rattle.expression_elaborator.specs.Views.{state_of};
ghost use Rattle.index_sorts.specs.Context.{NamesBelow};
ghost use Rattle.index_sorts.specs.Known.{with_row};
ghost use Rattle.operation_rules.specs.Settings.{IsFew};
ghost use Rattle.operation_rules.specs.Sound.{IsHeader};
ghost use Rattle.state_types.specs.Unpacking.{with_rows};
ghost use Rattle.typed_core.specs.Goals as spec;
ghost use Rattle.typed_core.specs.Headers.{AreDeclared};
ghost use Rattle.typed_core.specs.Limits.{in_context};
ghost use Rattle.typed_core.specs.States.{there};
ghost use Rattle.typed_core.specs.Strays.{form_below};
ghost use Rattle.xanadu_tree.specs.PlainOf.{plain_fun};

use crate::blocks::block;
use expression_elaborator::{Site, State};
use header_elaborator::{Failure, Stop, forms_below, hold, places_of, within, within_length};
use index_sorts::Context;
use operation_rules::Setting;
use state_types::{Places, Signature, Ty, TypeTable};
use std::alloc::Global;
use typed_core::{GoalAt, Note};
use xan_lin::{Form, LimitKind};
use xanadu_tree::CoreFun;

/// What elaboration makes of functions.
#[derive(Drop)]
pub(crate) struct Made {
    pub(crate) notes: Vec<Note>,
    pub(crate) goals: Vec<GoalAt>,
}

/// The context with one more row.
fn add_row(ctx: &mut Context, row: &Form) -> Result<(), Stop>
    requires { NamesBelow ctx.old.vars row.now }
    ensures added { Gives (λ _. ctx.new) result (in_context (with_row ctx.old row.now)) }
    ensures kept { ctx.new.vars ≡ ctx.old.vars }
{
    ctx.add(row.copy())?;
    Ok(())
}

/// The context with these rows.
#[tactic(auto, using(crate::proofs::Contexts::in_context_then, crate::proofs::Contexts::in_context_stops), unfolding(state_types::specs::Unpacking::with_rows))]
fn add_rows(ctx: &mut Context, mut rows: &[Form]) -> Result<(), Stop>
    requires { All (NamesBelow ctx.old.vars) rows.now }
    ensures { Gives (λ _. ctx.new) result (in_context (with_rows ctx.old rows.entry.now)) }
{
    while let [row, later @ ..] = rows {
        add_row(ctx, row)?;
        rows = later;
    }
    Ok(())
}

/// The context of so many variables, with these rows.
#[tactic(auto, using(header_elaborator::proofs::StrayTests::forms_named))]
fn begin_context(alloc: Global, vars: u32, rows: &[Form]) -> Result<Context, Stop>
    requires few { vars ≤ 1024 }
    requires below { list_all (form_below vars) rows.now ≡ true }
    ensures { Gives (λ ctx. ctx) result (in_context (with_rows (record { vars = vars; rows = [] }) rows.now)) }
{
    let Ok(mut ctx) = Context::new(alloc, vars) else {
        unreachable!()
    };
    add_rows(&mut ctx, rows)?;
    Ok(ctx)
}

/// The parameters have these types.
fn parameters(alloc: Global, mut types: &[Ty]) -> Result<Vec<(u16, Ty)>, Failure>
    requires { length types.now ≤ 8 }
    ensures { IfOk result (λ made. made.items ≡ enumerate_from 0 types.entry.now) }
{
    let mut made = Vec::new(alloc);
    let mut place = 0;
    while let [ty, later @ ..] = types {
        made.push((place, ty.copy()))?;
        place += 1;
        types = later;
    }
    Ok(made)
}

/// Where a body begins.
#[tactic(auto, unfolding(typed_core::specs::Goals::body_start))]
fn body_start(alloc: Global, sig: &Signature, made: Made) -> Result<State, Stop>
    requires { sig.now.vars ≤ 1024 }
    ensures { Gives state_of result (spec.body_start sig.now made.goals.items made.notes.items) }
{
    within_length(LimitKind::Parameters, sig.params.as_slice().len())?;
    hold(forms_below(sig.rows.as_slice(), sig.vars))?;
    let ctx = begin_context(alloc, sig.vars, sig.rows.as_slice())?;
    let types = parameters(alloc, sig.params.as_slice())?;
    Ok(State {
        ctx,
        places: Places::from_vec(types),
        naming: Vec::new(alloc),
        goals: made.goals,
        notes: made.notes,
    })
}

/// The signature of a function.
#[tactic(auto, using(crate::proofs::Declared::own_few, crate::proofs::Declared::own_header))]
fn own_signature(sigs: &[Signature], number: u32) -> Result<&Signature, Stop>
    requires signed { All IsFew sigs.now }
    requires headers { All IsHeader sigs.now }
    ensures found { Gives (λ sig. sig.now) result (there (slice_get sigs.now number)) }
    ensures few { IfOk result (λ sig. IsFew sig.now) }
    ensures header { IfOk result (λ sig. IsHeader sig.now) }
{
    match sigs.get(number as usize) {
        Some(own) => Ok(own),
        None => Err(Stop::Misfit),
    }
}

/// A function.
#[tactic(auto, unfolding(typed_core::specs::Goals::function))]
fn function(
    alloc: Global,
    table: &TypeTable,
    sigs: &[Signature],
    number: u32,
    fun: &CoreFun,
    made: Made,
) -> Result<Made, Stop>
    requires { AreDeclared table.now sigs.now }
    ensures { Gives lists_of result
        (lists_behind (spec.function table.now sigs.now number (plain_fun fun.now) made.goals.items made.notes.items)) }
{
    let own = own_signature(sigs, number)?;
    within(
        LimitKind::Places,
        places_of(fun.kinds.as_slice().len(), fun.body.as_slice())?,
    )?;
    let mut st = body_start(alloc, own, made)?;
    let site = Site {
        alloc,
        setting: Setting { table, sigs, own },
        fun: number,
    };
    block(fun.body.as_slice(), &site, &mut st)?;
    Ok(Made {
        notes: st.notes,
        goals: st.goals,
    })
}

/// The number of the next function. A number past 32 bits is as want of memory.
fn next_function(number: u32) -> Result<u32, Failure>
    ensures { IfOk result (λ next. next ≡ suc number) }
{
    match number.checked_add(1) {
        Some(next) => Ok(next),
        None => Err(Failure),
    }
}

/// All functions, in order.
#[tactic(auto, unfolding(typed_core::specs::Goals::functions))]
pub(crate) fn functions(
    alloc: Global,
    table: &TypeTable,
    sigs: &[Signature],
    mut funs: &[CoreFun],
) -> Result<Made, Stop>
    requires { AreDeclared table.now sigs.now }
    ensures { Gives (λ made. record { table = table.now; sigs = sigs.now; notes = made.notes.items; goals = made.goals.items }) result
        (spec.functions table.now sigs.now 0 (map plain_fun funs.entry.now) [] []) }
{
    let mut made = Made {
        notes: Vec::new(alloc),
        goals: Vec::new(alloc),
    };
    let mut number = 0;
    while let [fun, later @ ..] = funs {
        made = function(alloc, table, sigs, number, fun, made)?;
        number = next_function(number)?;
        funs = later;
    }
    Ok(made)
}
