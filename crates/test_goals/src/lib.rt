//! The goals of sources, and what their eliminations answer.
//!
//! There is nothing here but tests, which go through all passes from bytes to goals as a program does: the crates that they test need not be
//! proved a second time for them.
#![tactic(auto)]

#[cfg(test)]
mod tests;
