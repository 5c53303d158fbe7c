//! The assembly language: its instructions, its text, what it is for a program to be accepted, its object code and its machine.
//!
//! This crate owns the definitions: which bytes spell a program, which programs are accepted, what a machine makes of their object code
//! step by step, where a run begins, and what it is for a run to be safe. It promises that what the walk over a program's places does not
//! refuse is accepted, and that a run is steady: an end stays, and what was printed stays printed. [`print`] writes the one spelling of a
//! program. It stands on `operation_rules` and `proof_lines`, with what these stand on.
#![tactic(auto)]

mod coding;
mod decoding;
pub mod instruction;
mod instruction_text;
mod laws;
pub mod limits;
mod lists;
mod object;
mod pieces;
mod program;
mod program_text;
mod refusal;
mod type_text;

pub use coding::encode;
pub use decoding::decode;
pub use instruction::{Cmp, Instr};
pub use laws::{
    accepted_programs_are_verified, object_runs_are_steady, pairs_code_one_instruction,
    what_is_not_refused_is_accepted,
};
pub use object::{Object, RunOp};
pub use program::{Block, DtalProgram, Function, LabelState};
pub use program_text::print;
pub use refusal::{Refusal, Rule, Where};
