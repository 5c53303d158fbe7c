//! Elaboration of expressions and tests: their types, what they demand, and what is known on either side of a test.
//!
//! What elaboration makes is defined in `typed_core`; here is the code for all that stands within a statement, and that it is exact: the
//! [`State`] that a walk changes in place, demands, constructs by the rules of their operations, expressions and tests. It stands on
//! `header_elaborator` for limits, forms and types, on `operation_rules` for what operations demand and give, and on `xanadu_tree` for
//! cores; `join_elaborator` and `constraint_elaborator` stand on it.
#![tactic(auto)]

mod constructs;
mod demands;
mod operands;
mod state;
mod tests;

pub use crate::constructs::{state_by, types_by};
pub use crate::demands::{ask_all, note_here, note_state};
pub use crate::operands::{operand, zero};
pub use crate::state::{Site, State, place_of, type_of};
pub use crate::tests::{Sides, tested};
