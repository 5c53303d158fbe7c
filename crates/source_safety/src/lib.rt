//! A proved source is never stuck.
//!
//! Laws, and no code that computes: what stands where a run of a source comes to a statement fits the state that is elaborated there.
//! [`proved_programs_are_never_stuck`] says what comes of them, of a program with the lines of its goals. The crate stands on `typed_core`
//! for elaboration and for the meaning of a core, and on `operation_rules` for the law of operations.
#![tactic(auto)]

mod laws;
mod proved_runs;
mod run_laws;

pub use crate::laws::{
    expressions_fare, joins_fare, operands_fare, simple_statements_fare, tests_fare,
};
pub use crate::proved_runs::proved_programs_are_never_stuck;
pub use crate::run_laws::{
    arguments_fit, calls_fare, proved_sources_are_never_stuck, reached_statements_stand, runs_fare,
};
