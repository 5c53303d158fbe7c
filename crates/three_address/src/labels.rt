//! Live places at labels.

ghost use Rattle.std.specs.Prelude.{◌≡◌, [], IfOk};
ghost use Rattle.three_address.specs.LiveLabels as spec;
ghost use Rattle.three_address.specs.LiveLabels.{AreAllColumns, IsColumn, marks_onto};

use crate::function::LowFun;
use crate::marks::{is_marked, live_positions};
use std::alloc::Global;
use xan_io::Memory;
use xan_seq::Seq;

// The marks at these positions.
#[tactic(auto, unfolding(crate::specs::LiveLabels::marks_onto))]
fn marks_at(alloc: Global, marks: &[bool], positions: &[u32]) -> Result<Vec<bool>, Memory>
    ensures { IfOk result (λ found. found.items ≡ marks_onto marks.now positions.now []) }
{
    let mut found = Vec::new(alloc);
    let mut rest = positions;
    'positions: while let [at, later @ ..] = rest {
        found.push(is_marked(marks, *at as usize))?;
        rest = later;
    }
    Ok(found)
}

// The column of a place.
fn column_of(alloc: Global, fun: &LowFun, place: u16) -> Result<Seq<bool>, Memory>
    ensures { IfOk result (λ column. IsColumn fun.now place column) }
{
    let marks = live_positions(alloc, fun, place)?;
    let found = marks_at(alloc, marks.as_slice(), fun.labels.as_slice())?;
    Ok(Seq::from_vec(found))
}

/// For each place of a function a column, in which a label has a mark where the place is live at its position.
pub fn live_at_labels(alloc: Global, fun: &LowFun) -> Result<Vec<Seq<bool>>, Memory>
    ensures { IfOk result (λ columns. AreAllColumns fun.now columns.items) }
{
    let mut columns = Vec::new(alloc);
    'places: for place in 0..fun.places {
        columns.push(column_of(alloc, fun, place)?)?;
    }
    Ok(columns)
}

// The mark of a label, which are numbered from 1.
fn label_mark(column: &[bool], label: u32) -> bool
    ensures { result ≡ spec.label_mark column.now label }
{
    match label.checked_sub(1) {
        Some(before) => is_marked(column, before as usize),
        None => false,
    }
}

/// Whether a place is live at a label, by the columns of its function.
pub fn is_live_at(columns: &[Seq<bool>], label: u32, place: u16) -> bool
    ensures { result ≡ spec.live_mark columns.now label place }
{
    match columns.get(place as usize) {
        Some(column) => label_mark(column.as_slice(), label),
        None => false,
    }
}
