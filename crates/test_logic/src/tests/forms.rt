//! The bounds of forms, and each call once.
mod replaced;
mod sums;
mod values;
