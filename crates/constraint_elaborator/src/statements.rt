//! Statements without blocks.

ghost use Rattle.std.specs.Prelude.{◌≡◌, ◌≤◌, length, IfOk};
ghost use Rattle.std.specs.Option.{option_map};
ghost use Rattle.header_elaborator.specs.Code.{Gives};
ghost use Rattle.expression_elaborator.specs.Views.{IsSite, site_of, state_of};
ghost use Rattle.typed_core.specs.Statements as spec;
ghost use Rattle.xanadu_tree.specs.PlainOf.{plain_expr};

use expression_elaborator::{Site, State, operand, state_by, types_by, zero};
use header_elaborator::{Failure, Stop, as_tuple};
use operation_rules::Operation;
use state_types::Ty;
use xanadu_tree::CoreExpr;

/// A declaration or an assignment.
#[tactic(auto, unfolding(typed_core::specs::Statements::assigned))]
pub(crate) fn assign(x: u32, e: &CoreExpr, site: &Site<'_>, st: &mut State) -> Result<(), Stop>
    requires { IsSite site.now }
    ensures moved { Gives (λ _. state_of st.new) result (spec.assigned (site_of site.now) x (plain_expr e.now) (state_of st.old)) }
    ensures grown { IfOk result (λ _. st.old.ctx.vars ≤ st.new.ctx.vars) }
{
    let ty = operand(e, site, st)?;
    st.give(x, ty)
}

/// As many variables as types.
#[tactic(auto, unfolding(typed_core::specs::Statements::all_given))]
fn give_all(mut xs: &[u32], mut types: &[Ty], st: &mut State) -> Result<(), Stop>
    ensures moved { Gives (λ _. state_of st.new) result (spec.all_given xs.entry.now types.entry.now (state_of st.old)) }
    ensures kept { st.new.ctx ≡ st.old.ctx }
{
    while let [x, later @ ..] = xs {
        let [ty, others @ ..] = types else {
            return Err(Stop::Misfit);
        };
        st.give(*x, ty.copy())?;
        xs = later;
        types = others;
    }
    if types.is_empty() {
        Ok(())
    } else {
        Err(Stop::Misfit)
    }
}

/// How many variables there are. A number past 32 bits is as want of memory.
fn count_of(xs: &[u32]) -> Result<u32, Failure>
    ensures { IfOk result (λ count. count ≡ length xs.now) }
{
    match u32::try_from(xs.len()) {
        Ok(count) => Ok(count),
        Err(_) => Err(Failure),
    }
}

/// The parts of a tuple, each to a variable.
#[tactic(auto, unfolding(typed_core::specs::Statements::split))]
pub(crate) fn split(xs: &[u32], e: &CoreExpr, site: &Site<'_>, st: &mut State) -> Result<(), Stop>
    requires { IsSite site.now }
    ensures moved { Gives (λ _. state_of st.new) result (spec.split (site_of site.now) xs.now (plain_expr e.now) (state_of st.old)) }
    ensures grown { IfOk result (λ _. st.old.ctx.vars ≤ st.new.ctx.vars) }
{
    let ty = operand(e, site, st)?;
    let operation = Operation::Untuple(as_tuple(&ty)?, count_of(xs)?);
    let parts = types_by(site, None, &operation, &[ty], st)?;
    give_all(xs, parts.as_slice(), st)
}

/// A value is written to a cell.
#[tactic(auto, unfolding(typed_core::specs::Statements::store))]
pub(crate) fn store(
    array: &CoreExpr,
    index: &CoreExpr,
    value: &CoreExpr,
    at: u32,
    site: &Site<'_>,
    st: &mut State,
) -> Result<(), Stop>
    requires { IsSite site.now }
    ensures moved { Gives (λ _. state_of st.new) result (spec.store (site_of site.now) (plain_expr array.now) (plain_expr index.now) (plain_expr value.now) at (state_of st.old)) }
    ensures grown { IfOk result (λ _. st.old.ctx.vars ≤ st.new.ctx.vars) }
{
    let array = operand(array, site, st)?;
    let index = operand(index, site, st)?;
    let value = operand(value, site, st)?;
    state_by(
        site,
        Some(at),
        &Operation::Store,
        &[array, index, value],
        st,
    )
}

/// A call whose value is not used.
#[tactic(auto, unfolding(typed_core::specs::Statements::done))]
pub(crate) fn call(e: &CoreExpr, site: &Site<'_>, st: &mut State) -> Result<(), Stop>
    requires { IsSite site.now }
    ensures moved { Gives (λ _. state_of st.new) result (spec.done (site_of site.now) (plain_expr e.now) (state_of st.old)) }
    ensures grown { IfOk result (λ _. st.old.ctx.vars ≤ st.new.ctx.vars) }
{
    let _ty = operand(e, site, st)?;
    Ok(())
}

/// A number is printed.
#[tactic(auto, unfolding(typed_core::specs::Statements::printed))]
pub(crate) fn print(e: &CoreExpr, site: &Site<'_>, st: &mut State) -> Result<(), Stop>
    requires { IsSite site.now }
    ensures moved { Gives (λ _. state_of st.new) result (spec.printed (site_of site.now) (plain_expr e.now) (state_of st.old)) }
    ensures grown { IfOk result (λ _. st.old.ctx.vars ≤ st.new.ctx.vars) }
{
    let ty = operand(e, site, st)?;
    state_by(site, None, &Operation::Print, &[ty], st)
}

/// What is returned; the number 0 where nothing is said.
#[tactic(auto, unfolding(typed_core::specs::Statements::returning))]
pub(crate) fn give_back(
    value: &Option<CoreExpr>,
    at: u32,
    site: &Site<'_>,
    st: &mut State,
) -> Result<(), Stop>
    requires { IsSite site.now }
    ensures moved { Gives (λ _. state_of st.new) result (spec.returning (site_of site.now) (option_map plain_expr value.now) at (state_of st.old)) }
    ensures grown { IfOk result (λ _. st.old.ctx.vars ≤ st.new.ctx.vars) }
{
    let ty = match value {
        None => Ty::Int(zero()),
        Some(e) => operand(e, site, st)?,
    };
    state_by(site, Some(at), &Operation::Return, &[ty], st)
}
