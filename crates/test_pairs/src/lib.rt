//! Tests of the two programs and of what they stand on, by public calls alone.
//!
//! There is nothing here but tests: the outside in memory and on the host, and both programs after one another over one set of files in
//! memory.
#![tactic(auto)]

#[cfg(test)]
mod outside;
#[cfg(test)]
mod pairs;
