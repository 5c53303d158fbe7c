//! Clauses: what they state, over the variables of a state.

ghost use Rattle.std.specs.Prelude.{◌≡◌, ◌<◌, [], true, All, IfOk, map};
ghost use Rattle.std.specs.List.{list_all};
ghost use Rattle.header_elaborator.specs.Code.{Gives};
ghost use Rattle.typed_core.specs.Forms as forms;
ghost use Rattle.typed_core.specs.Joins as spec;
ghost use Rattle.typed_core.specs.Limits.{needed};
ghost use Rattle.typed_core.specs.Strays.{form_rises, type_rises, values_rise};

use expression_elaborator::place_of;
use header_elaborator::{Exact, Failure, Stop, renamed, renamed_type};
use state_types::{Places, Ty};
use std::alloc::Global;
use xan_lin::{Form, TooLarge};
use xanadu_tree::{Clause, CoreTy, Linear};

/// The number of the clause's first index variable.
pub(crate) fn first_of(clause: &Option<Clause>) -> u32
    ensures { result ≡ (spec.stated clause.now).first }
{
    match clause {
        Some(clause) => clause.first,
        None => 0,
    }
}

/// How many index variables the clause has.
pub(crate) fn count_of(clause: &Option<Clause>) -> u32
    ensures { result ≡ (spec.stated clause.now).quant.count }
{
    match clause {
        Some(clause) => clause.quant.count,
        None => 0,
    }
}

/// Its rows.
pub(crate) fn rows_of(clause: &Option<Clause>) -> &[Linear]
    ensures { result.now ≡ (spec.stated clause.now).quant.rows }
{
    match clause {
        Some(clause) => clause.quant.rows.as_slice(),
        None => &[],
    }
}

/// The types that it states.
pub(crate) fn stated_of(clause: &Option<Clause>) -> &[(u32, CoreTy)]
    ensures { result.now ≡ (spec.stated clause.now).vars }
{
    match clause {
        Some(clause) => clause.vars.as_slice(),
        None => &[],
    }
}

/// Rows over the variables of the state.
#[tactic(auto, using(header_elaborator::proofs::Lists::head_true, header_elaborator::proofs::Lists::tail_true))]
pub(crate) fn renamed_rows(
    alloc: Global,
    naming: &[(u32, Form)],
    own: u32,
    mut rows: &[Linear],
) -> Result<Vec<Exact<Form>>, Failure>
    requires naming { values_rise 0 naming.now ≡ true }
    requires rows { list_all form_rises rows.now ≡ true }
    ensures { IfOk result (λ made. made.items ≡ map (forms.renamed naming.now own) rows.entry.now) }
{
    let mut made = Vec::new(alloc);
    while let [row, later @ ..] = rows {
        made.push(renamed(naming, own, row))?;
        rows = later;
    }
    Ok(made)
}

/// A type over the variables of the state, which is needed.
fn needed_type(naming: &[(u32, Form)], own: u32, ty: &CoreTy) -> Result<Ty, Stop>
    requires naming { values_rise 0 naming.now ≡ true }
    requires ty { type_rises ty.now ≡ true }
    ensures { Gives (λ ty. ty) result (needed (forms.renamed_type naming.now own ty.now)) }
{
    Ok(renamed_type(naming, own, ty)?)
}

/// The types that a clause states, of variables that have places.
#[tactic(auto, using(header_elaborator::proofs::Lists::head_true, header_elaborator::proofs::Lists::tail_true), unfolding(typed_core::specs::Joins::stated_types))]
pub(crate) fn stated_types(
    alloc: Global,
    naming: &[(u32, Form)],
    own: u32,
    mut stated: &[(u32, CoreTy)],
) -> Result<Vec<(u16, Ty)>, Stop>
    requires naming { values_rise 0 naming.now ≡ true }
    requires stated { list_all (λ s. type_rises s.1) stated.now ≡ true }
    ensures { Gives (λ made. made.items) result (spec.stated_types naming.now own stated.entry.now []) }
{
    let mut made = Vec::new(alloc);
    while let [one, later @ ..] = stated {
        let place = place_of(one.0)?;
        let ty = needed_type(naming, own, &one.1)?;
        made.push((place, ty))?;
        stated = later;
    }
    Ok(made)
}

/// Gives the places these types.
#[tactic(auto, unfolding(typed_core::specs::Joins::with_types))]
pub(crate) fn set_types(places: &mut Places, mut wanted: &[(u16, Ty)]) -> Result<(), Failure>
    ensures { IfOk result (λ _. places.new ≡ spec.with_types wanted.entry.now places.old) }
{
    while let [one, later @ ..] = wanted {
        places.set(one.0, one.1.copy())?;
        wanted = later;
    }
    Ok(())
}

/// The rows before the first that is past the bounds.
#[tactic(auto, unfolding(typed_core::specs::Joins::leading))]
pub(crate) fn leading(alloc: Global, mut rows: &[Exact<Form>]) -> Result<Vec<Form>, Failure>
    ensures { IfOk result (λ made. made.items ≡ spec.leading rows.entry.now) }
{
    let mut made = Vec::new(alloc);
    while let [row, later @ ..] = rows {
        let Ok(form) = row else {
            return Ok(made);
        };
        made.push(form.copy())?;
        rows = later;
    }
    Ok(made)
}

/// Why the first row past the bounds is.
#[tactic(auto, unfolding(typed_core::specs::Joins::first_past))]
pub(crate) fn first_past(mut rows: &[Exact<Form>]) -> Option<TooLarge>
    ensures { result ≡ spec.first_past rows.entry.now }
{
    while let [row, later @ ..] = rows {
        if let Err(why) = row {
            return Some(*why);
        }
        rows = later;
    }
    None
}
