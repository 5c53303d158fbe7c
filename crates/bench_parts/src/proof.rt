//! Long proofs.

use crate::systems::difference;
use proof_lines::Line;
use std::alloc::Global;

/// Two hypotheses, then sums of the line before with one of them in turn, and last the goal, whose opposite is false.
pub fn combs(alloc: Global, lines: u32) -> Option<Vec<Line>> {
    let mut proof = Vec::new(alloc);
    proof.push(Line::Hyp(difference(0, 1)?)).ok()?;
    proof.push(Line::Hyp(difference(1, 0)?)).ok()?;
    for line in 2..lines.saturating_sub(1) {
        proof.push(comb(line)).ok()?;
    }
    proof.push(Line::Goal).ok()?;
    Some(proof)
}

/// The sum of the line before this one and of a hypothesis.
fn comb(line: u32) -> Line {
    Line::Comb {
        left_by: 1,
        left: line.saturating_sub(1),
        right_by: 1,
        right: line % 2,
    }
}

/// A hypothesis, then cuts of the line before by 1, and last the goal.
pub fn cuts(alloc: Global, lines: u32) -> Option<Vec<Line>> {
    let mut proof = Vec::new(alloc);
    proof.push(Line::Hyp(difference(0, 1)?)).ok()?;
    for line in 1..lines.saturating_sub(1) {
        let row = line.saturating_sub(1);
        proof.push(Line::Cut { row, by: 1 }).ok()?;
    }
    proof.push(Line::Goal).ok()?;
    Some(proof)
}
