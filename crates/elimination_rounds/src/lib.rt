//! The bound on the rounds of the elimination changes no answer.
//!
//! A law and no code: what `linear_solver` defines with at most 64 rounds is what a definition without a bound on them says.
#![tactic(auto)]

mod laws;

pub use crate::laws::bound_changes_nothing;
