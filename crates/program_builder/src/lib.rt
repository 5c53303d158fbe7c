//! From a program whose goals are proved to its program of the assembly language, with all that the compiler promises of that program.
#![tactic(auto)]

mod build;
mod promises;
mod slots;
mod small;
mod written;

pub use crate::build::build_program;
pub use crate::small::small_programs_end;
