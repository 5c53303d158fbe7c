//! The goals of a program, one after another, through the solver.
//!
//! [`prove_all`] gives an elaborated program the lines that prove its goals, or the first goal that the elimination does not prove, with its
//! number, its place, its row and the answer. [`answer`] tells what the elimination answers to one goal. Both say exactly what the definition of
//! the elimination says of each goal. The crate stands on `linear_solver` for answers and lines, and on `typed_core` for goals.
#![tactic(auto)]

mod error;
mod table;

pub use crate::error::GoalError;
pub use crate::table::{answer, prove_all};
