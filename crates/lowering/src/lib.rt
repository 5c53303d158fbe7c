//! Lowering: the code over places of a core.
//!
//! `specs/` says which code a core has. What holds of it are laws: its places are those that the limits count, its conditional branches are
//! the leaves of tests, it is in blocks whose labels rise, and each label has a jump. It stands on `typed_core` for cores with their closed
//! types and signatures, on `three_address` for the code, and on `value_lowering` for that of expressions.
#![tactic(auto)]

mod blocks;
mod laws;
mod numbering;
mod programs;
mod reaches;
mod sizes;
mod statements;
mod tests;

pub use crate::blocks::completes_all;
pub use crate::laws::{
    branches_are_leaves, code_is_in_blocks, functions_are_found, kinds_are_found,
    labels_have_jumps, numbers_name_their_positions, places_are_those_counted,
};
pub use crate::programs::{MOST_INSTRUCTIONS, lower};
