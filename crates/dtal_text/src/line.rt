//! The lines of a function, and which of them may come where.

use dtal_code::LabelState;
use dtal_code::instruction::Op;
use proof_lines::Line;
use xan_lin::Form;
use xan_seq::Seq;

/// A line of a function.
#[derive(Drop)]
pub enum BodyLine {
    /// An instruction, with the values that it lists where it goes to a label.
    Instr(Op, Seq<(u32, Form)>),
    /// Lines that prove a row which the instruction before them demands.
    By(Seq<Line>),
    /// A label.
    Label(LabelState),
}

/// Where a line stands in its block.
#[derive(Clone, Copy, Drop)]
pub enum Stand {
    /// First in the block.
    First,
    /// Behind an instruction that is no jump and no return.
    Within,
    /// Behind a jump or a return.
    Last,
}

/// What was read of a function.
#[derive(Clone, Copy, Drop)]
pub struct Lines {
    /// How many labels.
    pub labels: u64,
    /// How many instructions.
    pub instrs: u64,
    /// Where the next line stands.
    pub stand: Stand,
}

/// Which instructions may come next.
#[derive(Clone, Copy, Drop)]
pub enum Which {
    /// Any.
    Any,
    /// A jump or a return, since no other one may come behind it.
    Last,
    /// None.
    Nothing,
}
