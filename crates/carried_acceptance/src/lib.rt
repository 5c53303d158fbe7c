//! Of carried code nothing is left to ask.
//!
//! Laws and no code: the typed code that the passes make of a core is what emission asks for, so that the program that it becomes is accepted, has
//! a text, and does what the code does. It joins `type_carrier` to `lowered_acceptance` and `emission_acceptance`, and stands on these.
#![tactic(auto)]

mod laws;

pub use crate::laws::{carried_programs_are_accepted, carried_programs_are_ready};
