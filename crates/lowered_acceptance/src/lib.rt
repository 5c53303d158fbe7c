//! What lowering makes is what emission asks for.
//!
//! Laws and no code: the types, signatures, blocks and labels of lowered code are as the assembly language wants them, typed code is taken
//! whole by emission, and with each place in a slot of its own the emitted program is accepted. It joins `lowering` and `typed_core` to
//! `emission_acceptance`, and stands on these.
#![tactic(auto)]

mod laws;

pub use crate::laws::{
    lowered_blocks_end, lowered_code_is_short, lowered_headers_are_well_made,
    lowered_headers_have_texts, lowered_programs_are_accepted, slotted_programs_are_accepted,
};
