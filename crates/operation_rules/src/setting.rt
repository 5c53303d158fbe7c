//! What stands around an operation.

use state_types::{Signature, TypeTable};

/// The closed types, the signatures, and the signature of the function in which an operation stands.
#[derive(Clone, Copy, Drop)]
pub struct Setting<'a> {
    /// The closed types.
    pub table: &'a TypeTable,
    /// The signatures of all functions.
    pub sigs: &'a [Signature],
    /// The signature of the function in which the operation stands.
    pub own: &'a Signature,
}
