//! The code of a core does what the core does.
//!
//! Laws and no code: a run of the code over places that a core is lowered to follows the run of the core, and where all goals of the core are
//! proved the two agree, both ways. The crate stands on `lowering` for the code, on `typed_core` and `three_address` for the two meanings,
//! and on `source_safety`, by which a proved core is never stuck.
#![tactic(auto)]

mod laws;
mod proved_code;

pub use crate::laws::{lowered_code_agrees, lowered_code_follows};
pub use crate::proved_code::proved_code_agrees;
