//! Why what carrying types gives is typed.
//!
//! A law and no code: the code over places that a core is lowered to, with the states of labels and the proofs that carrying takes from the notes
//! of elaboration, meets the rules of typed code. The crate stands on `type_carrier` for what is carried, and on `three_address` for the rules.
#![tactic(auto)]

mod laws;

pub use crate::laws::carried_code_is_typed;
