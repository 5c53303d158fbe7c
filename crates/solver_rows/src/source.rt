//! Where a row of a system comes from, and the sign of a coefficient.
use crate::step::Step;

/// Where a row of a system comes from.
#[derive(Clone, Copy, Drop)]
pub enum Source {
    /// The step of this number gave it.
    Line(u32),
    /// This step gives it, and is not among the steps yet.
    New(Step),
}

/// Rows by the coefficient of a variable.
#[derive(Clone, Copy, Drop)]
pub enum Sign {
    /// It is above 0.
    Positive,
    /// It is below 0.
    Negative,
    /// It is 0.
    Zero,
}
