//! Typed code.

use crate::function::Lowered;
use proof_lines::Line;
use state_types::StateType;
use xan_lin::Form;
use xan_seq::Seq;

/// A demanded row with the lines that prove it.
#[derive(Drop)]
pub struct ProvedRow {
    /// The place whose index demands it, at a way to a label; none for a row of the label, and at an operation that goes on.
    pub place: Option<u16>,
    /// The row.
    pub row: Form,
    /// The lines.
    pub lines: Seq<Line>,
}

/// What stands with an instruction.
#[derive(Drop)]
pub struct Edge {
    /// Where it goes to a label: the values of variables of that label's state, by rising variable.
    pub values: Seq<(u32, Form)>,
    /// The demanded rows that are not known, in the order in which they are demanded.
    pub by: Seq<ProvedRow>,
}

/// A program with the state type of each label of each function, and what stands with each instruction.
#[derive(Drop)]
pub struct Typed {
    /// The program.
    pub low: Lowered,
    /// For each function, what is known at each of its labels.
    pub states: Seq<Seq<StateType>>,
    /// For each function, what stands with each of its instructions.
    pub edges: Seq<Seq<Edge>>,
}
