//! Verification of programs of the assembly language.
//!
//! What it is for a program to be accepted is defined in `dtal_code`; [`verify`] decides it: it answers the program, or the first place
//! that is refused with the first rule that fails there, or that memory ran out. It walks through types, signatures, functions and labels,
//! and stands on `dtal_code`, and on `instruction_checks` for each instruction. It never looks for a proof.
#![tactic(auto)]

mod alone;
mod error;
mod function_names;
mod functions;
mod presence;
mod signatures;
mod states;
mod types;
mod whole;

pub use crate::error::VerifyError;
pub use crate::whole::{Verified, verify};
