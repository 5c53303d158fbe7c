//! What the forms and rows of a core mean: the index expressions and relations of its source.
//!
//! Laws and worked examples, and no code: forms and rows that `type_shapes` reads are worth what was written, and worked sources have the
//! cores that `typed_core` speaks of.
#![tactic(auto)]

mod laws;

pub use laws::{forms_mean_indices, rows_mean_relations};
