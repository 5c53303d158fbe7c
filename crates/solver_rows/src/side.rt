//! What is kept beside the coefficients of a row.
use crate::signs::Signs;
use crate::source::Source;

/// What is kept beside the cells of a row: where it comes from, what it was divided by since then, which is 1 where it was not, and the signs
/// of its coefficients.
#[derive(Clone, Copy, Drop)]
pub struct Side {
    /// Where the row comes from.
    pub source: Source,
    /// What it was divided by since then.
    pub by: i64,
    /// The signs of its coefficients.
    pub signs: Signs,
}
