//! The memory of a run.

use crate::store::Store;

/// A call that waits for its result.
#[derive(Clone, Copy)]
pub(crate) struct Caller {
    /// The number of the call at which it stands.
    pub(crate) at: u64,
    /// The place of its own caller that takes its result; the first activation has none.
    pub(crate) result_to: Option<u8>,
}

/// A run: the uppermost activation, its callers, the places of them all, and the store.
#[derive(Drop)]
pub(crate) struct Run {
    /// The number of the next instruction.
    pub(crate) at: u64,
    /// The place of the caller that takes the result; the first activation has none.
    pub(crate) result_to: Option<u8>,
    /// The places of all activations, one after the other, those of the first activation first.
    pub(crate) places: Vec<i64>,
    /// The callers, the first activation first.
    pub(crate) callers: Vec<Caller>,
    /// The store.
    pub(crate) store: Store,
    /// How many activations there may be at once.
    pub(crate) depth: u64,
}
