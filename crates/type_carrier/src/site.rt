//! What stands around the body of a function.

use proof_lines::Line;
use std::alloc::Global;
use typed_core::GoalAt;
use xan_seq::Seq;

/// What stands throughout a body.
#[derive(Clone, Copy, Drop)]
pub(crate) struct Site<'a> {
    /// Where memory comes from.
    pub alloc: Global,
    /// The goals of the program.
    pub goals: &'a [GoalAt],
    /// The lines of each goal.
    pub lines: &'a [Seq<Line>],
    /// For each place of the function the labels at which it is live.
    pub columns: &'a [Seq<bool>],
}
