//! The state types that a program writes: those of signatures and labels.

ghost use Rattle.std.specs.Prelude.{◌≡◌, ◌≤◌, ◌&&◌, All, IfOk, Ok, length, map};
ghost use Rattle.dtal_code.specs.Declarations as spec;
ghost use Rattle.dtal_code.specs.Verdicts.{at_place};
ghost use Rattle.dtal_code.specs.declared.refusal.Where.TheVariants as where_is;
ghost use Rattle.dtal_verifier.specs.Code.{Passes};
ghost use Rattle.dtal_verifier.specs.Views.{table_with};
ghost use Rattle.instruction_checks.specs.Code.{Gives};
ghost use Rattle.instruction_checks.specs.Views.{IsStanding};
ghost use Rattle.operation_rules.specs.Answers as rules;
ghost use Rattle.operation_rules.specs.Applied.{all_assuming};
ghost use Rattle.operation_rules.specs.Faults.{filled};
ghost use Rattle.operation_rules.specs.Sound.{IsHeader};
ghost use Rattle.xan_lin.specs.Linear.{NamesBelow};
ghost use Rattle.index_sorts.specs.Known.{with_row};

use crate::error::{VerifyError, locate};
use crate::presence::entries_exist;
use crate::types::are_few;
use dtal_code::{Block, LabelState, Rule, Where};
use instruction_checks::{Broken, asks, entries_below, rows_below};
use operation_rules::RuleError;
use state_types::{Context, Packed, Places, Signature, StateType, Ty};
use std::alloc::Global;
use xan_lin::{Form, Memory};

// The context with this row.
fn add_row(ctx: &mut Context, row: &Form) -> Result<(), RuleError>
    requires { NamesBelow ctx.old.vars row.now }
    ensures added { rules.Gives (λ _. ctx.new) result (filled (with_row ctx.old row.now)) }
    ensures variables { ctx.new.vars ≡ ctx.old.vars }
{
    ctx.add(row.copy())?;
    Ok(())
}

// The context with these rows, in order.
#[tactic(auto, unfolding(operation_rules::specs::Applied::all_assuming))]
fn add_rows(ctx: &mut Context, mut rows: &[Form]) -> Result<(), RuleError>
    requires { All (NamesBelow ctx.old.vars) rows.now }
    ensures added { rules.Gives (λ _. ctx.new) result (filled (all_assuming (map Ok rows.entry.now) ctx.old)) }
    ensures variables { IfOk result (λ _. ctx.new.vars ≡ ctx.old.vars) }
{
    while let [row, later @ ..] = rows {
        add_row(ctx, row)?;
        rows = later;
    }
    Ok(())
}

// The context of so many variables in which these rows hold.
#[tactic(auto, unfolding(dtal_code::specs::Declarations::stated))]
fn stated(alloc: Global, vars: u32, rows: &[Form]) -> Result<Context, RuleError>
    requires { All (NamesBelow vars) rows.now }
    ensures stated { rules.Gives (λ ctx. ctx) result (filled (spec.stated vars rows.now)) }
    ensures variables { IfOk result (λ ctx. ctx.vars ≡ vars) }
{
    let mut ctx = Context::new(alloc, vars)?;
    add_rows(&mut ctx, rows)?;
    Ok(ctx)
}

// The state type in which these rows hold and places have these types.
#[tactic(auto, using(instruction_checks::proofs::VerdictParts::ruled_fails), unfolding(dtal_code::specs::Declarations::state_with))]
fn state_with(alloc: Global, vars: u32, rows: &[Form], places: Places) -> Result<StateType, Broken>
    requires { All (NamesBelow vars) rows.now }
    ensures stated { Gives (λ state. state) result (spec.state_with vars rows.now places) }
    ensures variables { IfOk result (λ state. (state.ctx.vars ≡ vars) × (state.places ≡ places)) }
{
    let ctx = stated(alloc, vars, rows)?;
    Ok(StateType { ctx, places })
}

// The types of places from 0 on.
#[tactic(auto, unfolding(dtal_code::specs::Declarations::numbered))]
fn numbered(alloc: Global, mut types: &[Ty]) -> Result<Vec<(u16, Ty)>, Memory>
    requires { length types.now ≤ 8 }
    ensures { IfOk result (λ made. made.items ≡ spec.numbered 0 types.entry.now) }
{
    let mut made = Vec::new(alloc);
    let mut place = 0u16;
    while let [ty, later @ ..] = types {
        let Ok(()) = made.push((place, ty.copy())) else {
            return Err(Memory);
        };
        place += 1;
        types = later;
    }
    Ok(made)
}

// How a function begins.
#[tactic(auto, unfolding(dtal_code::specs::Declarations::state_with))]
fn first_state(alloc: Global, sig: &Signature) -> Result<StateType, Broken>
    requires few { length sig.now.params ≤ 8 }
    requires named { All (NamesBelow sig.now.vars) sig.now.rows }
    ensures first { Gives (λ state. state) result (spec.first_state sig.now) }
    ensures variables { IfOk result (λ state. (state.ctx.vars ≡ sig.now.vars) × (state.places ≡ spec.numbered 0 sig.now.params)) }
{
    let places = Places::from_vec(numbered(alloc, sig.params.as_slice())?);
    state_with(alloc, sig.vars, sig.rows.as_slice(), places)
}

/// The same, told with the function's number.
#[tactic(auto, using(crate::proofs::RefusedPlaces::place_fails))]
pub(crate) fn begin_function(
    alloc: Global,
    sig: &Signature,
    number: u32,
) -> Result<StateType, VerifyError>
    requires few { length sig.now.params ≤ 8 }
    requires header { IsHeader sig.now }
    ensures first { Passes (λ state. state) result (at_place (where_is.Signature number) (spec.first_state sig.now)) }
    ensures standing { IfOk result (λ state. IsStanding sig.now.vars state) }
{
    match first_state(alloc, sig) {
        Ok(state) => Ok(state),
        Err(broken) => Err(locate(broken, Where::Signature(number))),
    }
}

// Whether a label's rows and types name only its variables.
fn names_own(state: &LabelState) -> bool
    ensures { result ≡ (spec.rows_are_below state.now.vars state.now.rows && spec.types_are_below state.now.vars (spec.typed_types state.now.places)) }
{
    let vars = u64::from(state.vars);
    rows_below(state.rows.as_slice(), vars) && entries_below(state.places.entries(), vars)
}

// What is asked of a label, and its state type.
#[tactic(auto, unfolding(dtal_code::specs::Declarations::state_verdict))]
fn written_state(
    alloc: Global,
    types: &[Packed],
    sig: &Signature,
    state: &LabelState,
) -> Result<StateType, Broken>
    ensures standing { IfOk result (λ state. IsStanding sig.now.vars state) }
    ensures written { Gives (λ state. state) result (spec.state_verdict (table_with types.now) sig.now state.now) }
{
    asks(entries_exist(types, state.places.entries()), Rule::NoType)?;
    asks(sig.vars <= state.vars, Rule::Edge)?;
    asks(names_own(state), Rule::Form)?;
    asks(are_few(state.vars, state.rows.as_slice()), Rule::Size)?;
    state_with(
        alloc,
        state.vars,
        state.rows.as_slice(),
        state.places.copy()?,
    )
}

// The same of a block, which must have a label.
fn label_state(
    alloc: Global,
    types: &[Packed],
    sig: &Signature,
    block: &Block,
) -> Result<StateType, Broken>
    ensures standing { IfOk result (λ state. IsStanding sig.now.vars state) }
    ensures written { Gives (λ state. state) result (spec.label_verdict (table_with types.now) sig.now block.now.state) }
{
    match &block.state {
        Some(state) => written_state(alloc, types, sig, state),
        None => Err(Broken::Rule(Rule::Target)),
    }
}

/// The same, told with the function's number and the label's.
#[tactic(auto, using(crate::proofs::RefusedPlaces::place_fails))]
pub(crate) fn begin_block(
    alloc: Global,
    types: &[Packed],
    sig: &Signature,
    block: &Block,
    fun: u32,
    label: u32,
) -> Result<StateType, VerifyError>
    ensures standing { IfOk result (λ state. IsStanding sig.now.vars state) }
    ensures written { Passes (λ state. state) result (at_place (where_is.Label fun label) (spec.label_verdict (table_with types.now) sig.now block.now.state)) }
{
    match label_state(alloc, types, sig, block) {
        Ok(state) => Ok(state),
        Err(broken) => Err(locate(broken, Where::Label(fun, label))),
    }
}
