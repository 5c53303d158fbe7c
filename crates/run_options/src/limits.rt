//! What a run may have where its words do not say, and the longest that it may be told to go on.

/// The words that the store of a run may have.
pub const HEAP: u64 = 1_048_576;

/// The activations that a run may have at once.
pub const DEPTH: u64 = 4096;

/// The units that a run may take: steps, or fuel.
pub const UNITS: u64 = 1_000_000_000;

/// The most units that a run may be given.
pub const MOST_UNITS: u64 = 9_223_372_036_854_775_807;
