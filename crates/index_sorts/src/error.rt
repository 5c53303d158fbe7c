//! Why a call on a context is refused.

/// Why a context is not made or not changed.
#[derive(Clone, Copy, Drop, Debug, PartialEq)]
pub enum ContextError {
    /// It would have more than 1,024 variables.
    Variables,
    /// It would have more than 512 rows.
    Rows,
    /// Memory ran out.
    Memory,
}
