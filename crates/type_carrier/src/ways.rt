//! What stands with a jump where branches meet or a loop begins.

ghost use Rattle.std.specs.Prelude.{◌≡◌, ◌++◌, [], IfOk, Some, true};
ghost use Rattle.std.specs.Option.{option_map};
ghost use Rattle.typed_core.specs.Strays as strays;
ghost use Rattle.type_carrier.specs.ProvedRows as rows;
ghost use Rattle.type_carrier.specs.Views.{proofs_of};
ghost use Rattle.type_carrier.specs.Ways as spec;
ghost use Rattle.xan_lin.specs.Subst.{VariablesRise, subst_of};

use crate::copies::copied_values;
use crate::rows::{plain_edge, push_all_among, push_among};
use crate::site::Site;
use state_types::{StateType, Ty};
use std::alloc::Global;
use three_address::{Edge, ProvedRow};
use xan_io::Memory;
use xan_lin::Form;
use xan_seq::Seq;
use xanadu_tree::CoreTy;

// The present type of a variable that the clause names.
#[tactic(auto, unfolding(crate::specs::Ways::present_at))]
fn present_at<'a>(vars: &[(u32, CoreTy)], present: &'a [Ty], place: u16) -> Option<&'a Ty>
    ensures { option_map (λ t. t.now) result ≡ spec.present_at vars.now present.now place }
{
    let mut named = vars;
    let mut types = present;
    'vars: while let [var, others @ ..] = named {
        let [ty, later @ ..] = types else {
            return None;
        };
        if var.0 == u32::from(place) {
            return Some(ty);
        }
        named = others;
        types = later;
    }
    None
}

// What a wanted type demands of the present one, whose index it is to have.
#[tactic(auto, unfolding(state_types::specs::Matching::index_rows, state_types::specs::Matching::differences))]
fn index_rows(
    alloc: Global,
    values: &[(u32, Form)],
    below: u32,
    wanted: &Ty,
    present: &Ty,
) -> Result<Vec<Form>, Memory>
    requires { VariablesRise 0 values.now }
    ensures { IfOk result (λ made. made.items ≡ spec.place_rows values.now below wanted.now (Some present.now)) }
{
    let mut made = Vec::new(alloc);
    let Some(index) = wanted.index() else {
        return Ok(made);
    };
    let Some(here) = present.index() else {
        return Ok(made);
    };
    let Ok(given) = index.subst(values, below) else {
        return Ok(made);
    };
    if given.is_same(here) {
        return Ok(made);
    }
    let Ok(more) = given.sub(here) else {
        return Ok(made);
    };
    let Ok(less) = here.sub(&given) else {
        return Ok(made);
    };
    made.push(more)?;
    made.push(less)?;
    Ok(made)
}

// The proofs of what a place demands, behind the others.
#[tactic(auto, unfolding(crate::specs::ProvedRows::rows_among))]
fn push_place(
    site: &Site<'_>,
    numbers: &[u32],
    values: &[(u32, Form)],
    below: u32,
    entry: &(u16, Ty),
    present: Option<&Ty>,
    made: &mut Vec<ProvedRow>,
) -> Result<(), Memory>
    requires { VariablesRise 0 values.now }
    ensures { IfOk result (λ _. made.new.items ≡ rows.rows_among (proofs_of site.now) numbers.now (Some entry.now.0)
        (spec.place_rows values.now below entry.now.1 (option_map (λ t. t.now) present.entry)) made.old.items) }
{
    let Some(here) = present else {
        return Ok(());
    };
    let demanded = index_rows(site.alloc, values, below, &entry.1, here)?;
    push_all_among(site, numbers, Some(entry.0), demanded.as_slice(), made)
}

// The proofs of what the places of a label demand.
#[tactic(auto, unfolding(crate::specs::Ways::places_by))]
fn places_by(
    site: &Site<'_>,
    numbers: &[u32],
    values: &[(u32, Form)],
    below: u32,
    vars: &[(u32, CoreTy)],
    present: &[Ty],
    entries: &[(u16, Ty)],
) -> Result<Vec<ProvedRow>, Memory>
    requires { VariablesRise 0 values.now }
    ensures { IfOk result (λ made. made.items ≡ spec.places_by (proofs_of site.now) vars.now (rows.way values.now present.now numbers.now) below entries.now []) }
{
    let mut made = Vec::new(site.alloc);
    let mut rest = entries;
    'places: while let [entry, later @ ..] = rest {
        let here = present_at(vars, present, entry.0);
        push_place(site, numbers, values, below, entry, here, &mut made)?;
        rest = later;
    }
    Ok(made)
}

// The proof of a row of the label, behind the others.
fn push_own(
    site: &Site<'_>,
    numbers: &[u32],
    values: &[(u32, Form)],
    below: u32,
    row: &Form,
    made: &mut Vec<ProvedRow>,
) -> Result<(), Memory>
    requires { VariablesRise 0 values.now }
    ensures { IfOk result (λ _. made.new.items ≡ made.old.items ++ spec.row_by (proofs_of site.now) numbers.now (subst_of values.now below row.now)) }
{
    let Ok(given) = row.subst(values, below) else {
        return Ok(());
    };
    push_among(site, numbers, None, &given, made)
}

// The same of all rows of the label.
#[tactic(auto, unfolding(crate::specs::Ways::rows_by))]
fn push_rows(
    site: &Site<'_>,
    numbers: &[u32],
    values: &[(u32, Form)],
    below: u32,
    present: &[Ty],
    own: &[Form],
    made: &mut Vec<ProvedRow>,
) -> Result<(), Memory>
    requires { VariablesRise 0 values.now }
    ensures { IfOk result (λ _. made.new.items ≡ spec.rows_by (proofs_of site.now) (rows.way values.now present.now numbers.now) below own.now made.old.items) }
{
    let mut rest = own;
    'rows: while let [row, later @ ..] = rest {
        push_own(site, numbers, values, below, row, made)?;
        rest = later;
    }
    Ok(())
}

// Whether the variables rise.
#[tactic(auto, unfolding(typed_core::specs::Strays::values_rise))]
fn values_rise(values: &[(u32, Form)]) -> bool
    ensures { result ≡ strays.values_rise 0 values.now }
{
    let mut low = 0u64;
    let mut rest = values;
    'values: while let [value, later @ ..] = rest {
        if u64::from(value.0) < low {
            return false;
        }
        low = u64::from(value.0) + 1;
        rest = later;
    }
    true
}

// The same, with what it means.
fn do_rise(values: &[(u32, Form)]) -> bool
    ensures test { result ≡ strays.values_rise 0 values.now }
    ensures rise { result ≡ true → VariablesRise 0 values.now }
{
    values_rise(values)
}

// The number of the first of the state's own variables.
fn first_own(values: &[(u32, Form)], vars: u32) -> u32
    ensures { result ≡ spec.first_own values.now vars }
{
    match values {
        [value, ..] => value.0,
        [] => vars,
    }
}

/// What stands with a jump to a label, on a way with these values, present types and goals.
pub(crate) fn way_edge(
    site: &Site<'_>,
    vars: &[(u32, CoreTy)],
    target: &StateType,
    values: &[(u32, Form)],
    present: &[Ty],
    numbers: &[u32],
) -> Result<Edge, Memory>
    ensures { IfOk result (λ edge. edge ≡ spec.way_edge (proofs_of site.now) vars.now (Some target.now) (rows.way values.now present.now numbers.now)) }
{
    if !do_rise(values) {
        return Ok(plain_edge(site.alloc));
    }
    let below = first_own(values, target.ctx.vars());
    let mut by = places_by(
        site,
        numbers,
        values,
        below,
        vars,
        present,
        target.places.entries(),
    )?;
    push_rows(
        site,
        numbers,
        values,
        below,
        present,
        target.ctx.rows(),
        &mut by,
    )?;
    Ok(Edge {
        values: copied_values(site.alloc, values)?,
        by: Seq::from_vec(by),
    })
}
