//! Rows of numbers in one region that is taken once.
//!
//! Work that makes and gives up many rows of one width takes a [`RowPool`] at its start and no memory after that. The crate promises
//! that a pool behaves as a list of rows, that a row is refused exactly where the pool is full, and that only `new` takes memory. It
//! stands on nothing.
#![tactic(auto)]

mod region;

pub use crate::region::{Full, Mark, Memory, RowId, RowPool};
