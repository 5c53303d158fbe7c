//! Functions and programs.

use crate::instruction::Instr;
use state_types::{Packed, Places, Signature};
use xan_io::Name;
use xan_lin::Form;
use xan_seq::Seq;

/// What is known at a label, as it is written: whatever its numbers and its rows are.
#[derive(Drop)]
pub struct LabelState {
    /// How many variables there are.
    pub vars: u32,
    /// The rows that hold of them.
    pub rows: Seq<Form>,
    /// The types of places.
    pub places: Places,
}

/// Instructions that are reached at the first of them alone.
#[derive(Drop)]
pub struct Block {
    /// What is known at its label. Only the first block of a function has no label.
    pub state: Option<LabelState>,
    /// Its instructions.
    pub code: Seq<Instr>,
}

/// A function.
#[derive(Drop)]
pub struct Function {
    /// Its name.
    pub name: Name,
    /// Its type.
    pub sig: Signature,
    /// Its blocks. The number of a block is that of its label, and 0 for the first.
    pub blocks: Seq<Block>,
}

/// A program of the assembly language. Nothing is asked of the fields here: the calls that want a program which some text spells
/// say so.
#[derive(Drop)]
pub struct DtalProgram {
    /// The types that the text writes, which are numbered from 2.
    pub types: Seq<Packed>,
    /// Its functions, which are numbered from 0.
    pub funs: Seq<Function>,
}
