//! What is asked of one instruction of the assembly language, and at one edge to a label.
//!
//! What it is for an instruction to pass in a state type, and the state type behind it, is defined in `dtal_code`; [`check_instruction`]
//! gives it, or the first rule that is broken, or that memory ran out. It stands on `operation_rules` for what operations demand and give,
//! on `state_types` for edges, and on `proof_lines` for the lines of a program. It never looks for a proof. `dtal_verifier` walks with it
//! through a program.
#![tactic(auto)]

mod action;
mod asking;
mod edges;
mod error;
mod going;
mod instruction;
mod lines;
mod names;
mod reading;
mod site;

pub use crate::asking::asks;
pub use crate::error::Broken;
pub use crate::instruction::check_instruction;
pub use crate::lines::{Checker, first_checker};
pub use crate::names::{entries_below, rows_below, type_below, types_below};
pub use crate::site::Site;
