//! The typed code of sources, worked out by hand.
//!
//! There is nothing here but tests, which go through all passes from bytes to typed code: the crates that they test need not be proved a
//! second time for them.
#![tactic(auto)]

#[cfg(test)]
mod tests;
