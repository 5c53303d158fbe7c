//! What comes of an elimination.
use xan_lin::LimitKind;

/// How many rows of its pool must be free for a call of the solver.
pub const SOLVER_ROWS: u64 = 4001;

/// What comes of an elimination.
#[derive(Clone, Copy, Drop, PartialEq)]
pub enum Answer {
    /// The goal follows from the hypotheses, and there are steps that show it.
    Proved,
    /// The elimination ends without a contradiction. The goal may follow all the same.
    Unproved,
    /// A limit is met before the elimination ends: `Magnitude`, `Cone` or `System`.
    Limit(LimitKind),
}
