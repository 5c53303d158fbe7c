//! Rows of goals with the lines that prove them.

ghost use Rattle.std.specs.Prelude.{◌≡◌, ◌++◌, [], IfOk, Some, None, slice_get};
ghost use Rattle.std.specs.Option.{option_map};
ghost use Rattle.type_carrier.specs.ProvedRows as spec;
ghost use Rattle.type_carrier.specs.Views.{proofs_of};

use crate::copies::copied_lines;
use crate::site::Site;
use proof_lines::Line;
use std::alloc::Global;
use three_address::{Edge, ProvedRow};
use typed_core::GoalAt;
use xan_io::Memory;
use xan_lin::Form;
use xan_seq::Seq;

// The goal of a number.
fn goal_at<'a>(goals: &'a [GoalAt], number: u32) -> Option<&'a GoalAt>
    ensures { option_map (λ g. g.now) result ≡ slice_get goals.now number }
{
    goals.get(number as usize)
}

// Its lines.
fn lines_at<'a>(lines: &'a [Seq<Line>], number: u32) -> Option<&'a [Line]>
    ensures { option_map (λ l. l.now) result ≡ slice_get lines.now number }
{
    match lines.get(number as usize) {
        Some(proof) => Some(proof.as_slice()),
        None => None,
    }
}

// The row of the goal of a number, with its lines, behind the others.
#[tactic(auto, using(crate::proofs::RowsPushed::rows_pushed))]
fn push_row(
    site: &Site<'_>,
    place: Option<u16>,
    number: u32,
    made: &mut Vec<ProvedRow>,
) -> Result<(), Memory>
    ensures { IfOk result (λ _. made.new.items ≡ made.old.items ++ spec.row_at (proofs_of site.now) place number) }
{
    let Some(goal) = goal_at(site.goals, number) else {
        return Ok(());
    };
    let Some(proof) = lines_at(site.lines, number) else {
        return Ok(());
    };
    let lines = copied_lines(site.alloc, proof)?;
    made.push(ProvedRow {
        place,
        row: goal.row.copy(),
        lines,
    })?;
    Ok(())
}

// The rows of goals, in order.
#[tactic(auto, unfolding(crate::specs::ProvedRows::rows_onto))]
fn rows_of(site: &Site<'_>, numbers: &[u32]) -> Result<Vec<ProvedRow>, Memory>
    ensures { IfOk result (λ made. made.items ≡ spec.rows_onto (proofs_of site.now) numbers.now []) }
{
    let mut made = Vec::new(site.alloc);
    let mut rest = numbers;
    'numbers: while let [number, later @ ..] = rest {
        push_row(site, None, *number, &mut made)?;
        rest = later;
    }
    Ok(made)
}

/// What stands with an instruction that demands the rows of these goals.
pub(crate) fn demand_edge(site: &Site<'_>, numbers: &[u32]) -> Result<Edge, Memory>
    ensures { IfOk result (λ edge. edge ≡ spec.demand_edge (proofs_of site.now) numbers.now) }
{
    let by = rows_of(site, numbers)?;
    Ok(Edge {
        values: Seq::from_vec(Vec::new(site.alloc)),
        by: Seq::from_vec(by),
    })
}

/// What stands with an instruction that demands nothing.
pub(crate) fn plain_edge(alloc: Global) -> Edge
    ensures { result ≡ spec.plain }
{
    Edge {
        values: Seq::from_vec(Vec::new(alloc)),
        by: Seq::from_vec(Vec::new(alloc)),
    }
}

// Whether it is the row of this goal.
fn is_row(row: &Form, goal: Option<&GoalAt>) -> bool
    ensures { result ≡ spec.is_row row.now (option_map (λ g. g.now) goal.entry) }
{
    match goal {
        Some(goal) => goal.row.is_same(row),
        None => false,
    }
}

/// A demanded row of a place behind the others, where it is that of one of these goals.
#[tactic(auto, unfolding(crate::specs::ProvedRows::row_among))]
pub(crate) fn push_among(
    site: &Site<'_>,
    numbers: &[u32],
    place: Option<u16>,
    row: &Form,
    made: &mut Vec<ProvedRow>,
) -> Result<(), Memory>
    ensures { IfOk result (λ _. made.new.items ≡ made.old.items ++ spec.row_among (proofs_of site.now) numbers.now place row.now) }
{
    let mut rest = numbers;
    'numbers: while let [number, later @ ..] = rest {
        if is_row(row, goal_at(site.goals, *number)) {
            push_row(site, place, *number, made)?;
            return Ok(());
        }
        rest = later;
    }
    Ok(())
}

/// The same of several rows.
#[tactic(auto, unfolding(crate::specs::ProvedRows::rows_among))]
pub(crate) fn push_all_among(
    site: &Site<'_>,
    numbers: &[u32],
    place: Option<u16>,
    rows: &[Form],
    made: &mut Vec<ProvedRow>,
) -> Result<(), Memory>
    ensures { IfOk result (λ _. made.new.items ≡ spec.rows_among (proofs_of site.now) numbers.now place rows.now made.old.items) }
{
    let mut rest = rows;
    'rows: while let [row, later @ ..] = rest {
        push_among(site, numbers, place, row, made)?;
        rest = later;
    }
    Ok(())
}
