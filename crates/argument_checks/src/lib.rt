//! The first fault of the arguments of a run, for a source and for a machine alike.
//!
//! What is wrong with arguments is one definition, in `operation_rules`, over variables, rows and types; here is the code that finds it, over a
//! signature.
#![tactic(auto)]

mod error;
mod faults;

pub use error::ArgumentError;
pub use faults::check_arguments;
