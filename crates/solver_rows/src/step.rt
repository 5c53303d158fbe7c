//! A step of a refutation.

/// A step of a refutation: a line of a proof in which a hypothesis is named by its number. It gives one row from the rows of the steps
/// before it, which are counted from 0.
#[derive(Clone, Copy, Drop)]
pub enum Step {
    /// The hypothesis of this number.
    Hyp(u32),
    /// The row `-q - 1` for the goal `q`.
    Goal,
    /// The sum of two earlier rows, each times a multiplier of at least 1.
    Comb {
        /// What the left row is multiplied by.
        left_by: i64,
        /// The number of the left row.
        left: u32,
        /// What the right row is multiplied by.
        right_by: i64,
        /// The number of the right row.
        right: u32,
    },
    /// An earlier row with its coefficients over a divisor of at least 1 that divides them all, and the floor of its constant over it.
    Cut {
        /// The number of the row.
        row: u32,
        /// The divisor.
        by: i64,
    },
}
