//! What operations do to words, and what they demand and give in types.
//!
//! A source's constructs, the code over places and the text's instructions are the same operations. `specs/` says once what each does to
//! words and a store, and what it demands of the types that it reads and gives to those that it writes. The laws join the two. [`rule_of`]
//! and [`ruled`] compute the latter, and give the demanded rows to the caller. It stands on
//! `state_types`, `index_sorts` and `xan_lin` for types, and on `xan_io` for ends and arguments.
#![tactic(auto)]

mod applying;
mod arrays;
mod calls;
mod closed_types;
mod error;
mod forms;
mod laws;
mod numbers;
mod opening;
mod operands;
mod operation;
mod placed;
mod plain;
mod rule;
mod rules;
mod setting;
mod sides;
mod tuples;

pub use crate::applying::{Outcome, apply, assume, assume_all, types_given, widen};
pub use crate::error::{Fault, RuleError};
pub use crate::laws::{
    assumed_rows_are_named, flat_words_are_stores, operations_are_sound,
    ruled_rows_and_types_are_named, sides_are_named,
};
pub use crate::operation::{Needs, Operation, needs_of};
pub use crate::placed::ruled;
pub use crate::rule::Rule;
pub use crate::rules::rule_of;
pub use crate::setting::Setting;
pub use crate::sides::{side_of, side_rows};
