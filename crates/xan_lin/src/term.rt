//! Terms, and what can be too large.

/// The greatest magnitude of a number in a form.
pub const BOUND: i64 = 4611686018427387903;

/// The most terms that a form has.
pub(crate) const MOST_TERMS: usize = 16;

/// Memory ran out.
#[derive(Clone, Copy, Drop, Debug)]
pub struct Memory;

/// A multiple of a variable.
#[derive(Clone, Copy, Drop, Default, PartialEq, Debug)]
pub struct Term {
    /// The number of the variable.
    pub var: u32,
    /// What it is multiplied by.
    pub coef: i64,
}

/// Why there is no form: what would be exact is past a bound.
#[derive(Clone, Copy, Drop, Debug)]
pub enum TooLarge {
    /// It has more than 16 terms.
    Terms,
    /// It has at most 16 terms, and one of its numbers is past `BOUND`.
    Magnitude,
}

/// What a source or a proof can have too many of, or too large.
#[derive(Clone, Copy, Drop, PartialEq)]
pub enum LimitKind {
    /// The bytes of a source.
    Length,
    /// Marks that are open at once.
    Nesting,
    /// Functions.
    Functions,
    /// Types.
    Types,
    /// Parameters of a function.
    Parameters,
    /// Index variables.
    Variables,
    /// Rows of a context.
    Rows,
    /// Terms of a form.
    Terms,
    /// The magnitude of a number of a form.
    Magnitude,
    /// Places of a function.
    Places,
    /// Index variables that bear on a goal.
    Cone,
    /// Rows of a round of elimination.
    System,
}
