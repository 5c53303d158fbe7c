//! Why lines prove nothing.

/// The first line that is bad, counted from 0, and the first reason that it has.
#[derive(Clone, Copy, Drop, Debug, PartialEq)]
pub struct BadLine {
    /// The number of the line; at `NotRefuted` how many lines there are.
    pub at: u32,
    /// Why it is bad.
    pub why: Why,
}

/// Why a line is bad. Where several reasons hold, the first of these is given.
#[derive(Clone, Copy, Drop, Debug, PartialEq)]
pub enum Why {
    /// It takes a row as a hypothesis that is none of the listed ones.
    NotInContext,
    /// It names a row that no line before it gives.
    NoSuchRow,
    /// A multiplier or a divisor is below 1.
    Multiplier,
    /// The divisor does not divide all coefficients.
    NotDivisible,
    /// A number of its row is past the bound of forms.
    TooLarge,
    /// With its row the rows have more than 64 different variables.
    Variables,
    /// There is no last row, or it has a variable, or its constant is not negative.
    NotRefuted,
}
