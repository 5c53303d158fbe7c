//! Goals.

use index_sorts::Context;
use xan_lin::Form;

/// A row that has to be proved: where it arises, and what is known there.
#[derive(Drop)]
pub struct GoalAt {
    /// The number of the function.
    pub fun: u32,
    /// The offset in the source at which it is reported.
    pub at: u32,
    /// The index variables of the function so far, and the rows that hold of them.
    pub ctx: Context,
    /// The row, which states that its value is at least 0.
    pub row: Form,
}
