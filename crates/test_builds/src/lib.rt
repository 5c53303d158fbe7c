//! What `xanadu build` and `xanadu goals` answer to sources, words, failing calls and sinks of every room.
//!
//! There is nothing here but tests, which go through `xanadu_top` as a program does: the crates that they test need not be proved a second
//! time for them.
#![tactic(auto)]

#[cfg(test)]
mod tests;
