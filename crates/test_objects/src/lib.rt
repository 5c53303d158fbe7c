//! The words that instructions are coded in, and a whole program printed, verified and assembled, by hand.
//!
//! There is nothing here but tests, which use public calls alone: the crates that they test need not be proved a second time for them.
#![tactic(auto)]

#[cfg(test)]
mod array_sum;
#[cfg(test)]
mod tests;
