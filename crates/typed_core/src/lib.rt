//! What elaboration makes of a core: closed types, signatures, the goals that have to be proved, and notes of each state and demand; and
//! the core of which all goals are proved.
//!
//! The definition of the goals of a core stands in `specs/`. [`Elaborated`] keeps that its parts are those of the definition, and
//! [`Proved`] that each of its lists of lines proves the goal of its place. The meaning of a core stands there too, on `operation_rules`.
//! The crate stands on `xanadu_tree` for cores, on `state_types` for types and what matches demand, and on `proof_lines` for lines.
#![tactic(auto)]

mod elaborated;
mod goal;
mod growth_laws;
mod laws;
mod note;
mod proved;
mod run_laws;

pub use crate::elaborated::Elaborated;
pub use crate::goal::GoalAt;
pub use crate::growth_laws::{
    blocks_grow, elaborated_functions_are_segments, expressions_grow,
    reached_statements_are_segments, rows_name_variables_so_far, tests_grow,
};
pub use crate::laws::{
    followed_rules_are_applied, shaped_cores_fit, shaped_cores_never_stray,
    shaped_declarations_are_closed,
};
pub use crate::note::Note;
pub use crate::proved::Proved;
pub use crate::run_laws::{
    meaning_needs_no_bound, more_bound_changes_nothing, output_only_grows,
    separate_blocks_are_stores,
};
