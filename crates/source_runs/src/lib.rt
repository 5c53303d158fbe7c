//! A run of a proved source, and what is said of it.
//!
//! [`run_source`] evaluates a program whose goals are proved, puts a line for each number that it prints and then the line of its end, and
//! answers the status to end with. What is said is exactly what the source means. It stands on `source_evaluator` for the run and on
//! `command_reports` for the lines.
#![tactic(auto)]

mod end;
mod run;

pub use crate::run::run_source;
