//! Contexts of index variables: how many there are, and the rows that are taken to hold of them.
//!
//! A [`Context`] lists forms over its variables, each of which states that its value is at least 0. The crate promises that a context
//! changes as its calls say, that a call is refused exactly at the bounds of 1,024 variables and 512 rows, and that what it knows is
//! entailed by its rows. It stands on `xan_lin`.
#![tactic(auto)]

mod compare;
mod context;
mod error;
mod laws;

pub use crate::context::Context;
pub use crate::error::ContextError;
pub use crate::laws::known_rows_are_entailed;
pub use xan_lin::Memory;
