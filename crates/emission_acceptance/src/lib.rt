//! What emission makes of typed code is accepted.
//!
//! Laws and no code: where code over places is typed and homes keep the types of its places apart, no rule of the verifier fails at any place of
//! the program that it becomes. The crate stands on `dtal_emit` for the program, and on `three_address` and `dtal_code` for the two typings.
#![tactic(auto)]

mod laws;

pub use crate::laws::{
    emitted_programs_are_accepted, slots_keep_labels_apart, slots_keep_types_apart,
    typed_code_is_ready,
};
