//! What emission makes does what it is made from.
//!
//! Laws and no code: where homes keep places apart, each run of the program that typed code over places becomes follows the run of that code.
//! The crate stands on `dtal_emit` for the program, and on `three_address` and `dtal_code` for the two machines.
#![tactic(auto)]

mod laws;

pub use crate::laws::{emitted_programs_follow, emitted_programs_have_texts, slots_keep_apart};
