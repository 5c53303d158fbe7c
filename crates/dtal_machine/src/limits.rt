//! The limits of a run.

/// The most words that a store may have.
pub const MOST_HEAP: u64 = 67_108_864;

/// The most activations that there may be at once.
pub const MOST_DEPTH: u64 = 65_536;
