//! Elaboration: from a core to its goals, with the types, signatures and notes that go with them, or the first limit that it passes.
//!
//! [`elaborate`] walks a core once and changes one context in place. What it makes is defined in `typed_core`; here is the code, and that it
//! is exact. It stands on `header_elaborator` for types and signatures, on `expression_elaborator` for all within a statement, on
//! `join_elaborator` for joined states, on `state_types` for matches, and on `xanadu_tree` for cores.
#![tactic(auto)]

mod blocks;
mod bodies;
mod entering;
mod error;
mod statements;
mod walk;

pub use crate::error::ElabError;
pub use crate::walk::elaborate;
