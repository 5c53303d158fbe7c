//! A line of a proof.
use xan_lin::Form;

/// A line of a proof that rows have no assignment under which a goal fails. It gives one row from the rows of the lines before it, which
/// are counted from 0.
#[derive(Drop)]
pub enum Line {
    /// A row that is listed as a hypothesis.
    Hyp(Form),
    /// The row `-q - 1` for the goal `q`.
    Goal,
    /// The sum of two earlier rows, each times a multiplier of at least 1.
    Comb {
        /// What the left row is multiplied by.
        left_by: i64,
        /// The number of the left row.
        left: u32,
        /// What the right row is multiplied by.
        right_by: i64,
        /// The number of the right row.
        right: u32,
    },
    /// An earlier row with its coefficients over a divisor of at least 1 that divides them all, and the floor of its constant over it.
    Cut {
        /// The number of the row.
        row: u32,
        /// The divisor.
        by: i64,
    },
}
