//! What evaluated sources come to.
//!
//! There is nothing here but tests, which go through all passes from bytes to an end as a program does: the crates that they test need not be
//! proved a second time for them.
#![tactic(auto)]

#[cfg(test)]
mod commands;
#[cfg(test)]
mod tests;
