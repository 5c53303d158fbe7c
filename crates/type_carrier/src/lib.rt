//! Carrying of types: the code over places with a state type at each label, and the proofs of what instructions demand.
//!
//! It goes by the constructs of a core in the order of elaboration, and takes elaboration's notes from the front. A note of a demand gives
//! what stands with one instruction, a note of a state gives the state type of a label, cut to the places that are live there, and a note of
//! a way gives the values of the label's own variables on a jump. The code stays as it is, and no context is made. It stands on `lowering`
//! for the code of a core, on `typed_core` for the notes, and on `three_address` for typed code and live places.
#![tactic(auto)]

mod carrying;
mod copies;
mod labels;
mod rows;
mod site;
mod statements;
mod tests;
mod values;
mod ways;

pub use crate::carrying::carry;
