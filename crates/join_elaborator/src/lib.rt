//! Joined states: what is known where control flow meets, by a clause and by what the blocks in front change.
//!
//! What a joined state is is defined in `typed_core` (`joined`); here is the code, and that it is exact: which variables blocks change, the
//! types that were known before with fresh indices for those, and what the clause states. It stands on `expression_elaborator` for the state
//! that a walk changes in place, on `header_elaborator` for forms and types, and on `xanadu_tree` for cores; `constraint_elaborator` has the
//! ways into a joined state.
#![tactic(auto)]

mod changes;
mod clauses;
mod joint;
mod renewing;

pub use crate::changes::Blocks;
pub use crate::joint::{Joint, joined};
