//! Why a program is not proved.

use linear_solver::Answer;
use xan_lin::Form;

/// Why a program is not proved.
#[derive(Drop)]
pub enum GoalError {
    /// The first goal that the elimination does not prove.
    Goal {
        /// How many goals stand before it.
        number: u32,
        /// The offset in the source at which it is reported.
        at: u32,
        /// The row that was to be proved.
        row: Form,
        /// `Unproved`, or the limit that was met.
        answer: Answer,
    },
    /// Memory ran out.
    Memory,
}
