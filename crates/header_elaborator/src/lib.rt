//! Elaboration of what stands around bodies: closed types, signatures, the limits of declarations, and how many places a function has.
//!
//! What elaboration makes is defined in `typed_core`; here is the code for all that knows no state of a walk, and that it is exact: why a
//! walk stops ([`Stop`]), how much of each there may be, tests of what no core has, forms and types within the bounds, what is asked of
//! types, and the headers of a program. It stands on `state_types` for types, on `xan_lin` for forms, and on `xanadu_tree` for cores;
//! `expression_elaborator`, `join_elaborator` and `constraint_elaborator` stand on it.
#![tactic(auto)]

mod error;
mod forms;
mod headers;
mod limits;
mod places;
mod strays;
mod types;

pub use crate::error::{Failure, Stop};
pub use crate::forms::{Exact, push_variables, renamed, renamed_type};
pub use crate::headers::{few_declarations, signatures, table_of};
pub use crate::limits::{most, within, within_length};
pub use crate::places::places_of;
pub use crate::strays::{clause_rises, forms_below, hold, rows_below, types_below, values_rise};
pub use crate::types::{as_tuple, has_index, index_of, is_like, with_index};
