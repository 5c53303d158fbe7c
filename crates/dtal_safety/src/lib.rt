//! Whatever program of the assembly language is accepted runs safely.
//!
//! Laws and no code: for every accepted program, all arguments and every size of the store and of the stack, a run is never stuck, each
//! instruction that it comes to exists, and each address that it touches is allocated. The crate stands on `dtal_code` for acceptance, the
//! machine and what it is to be safe, on `operation_rules` for the law of operations, and on no crate of a compiler.
#![tactic(auto)]

mod laws;

pub use crate::laws::{
    accepted_programs_run_safely, first_states_fit, fitting_states_are_safe, reached_states_fit,
    steps_keep_fitting, touched_addresses_are_allocated,
};
