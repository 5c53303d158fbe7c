//! Forms, contexts, pools, lines, the solver, readers and the types of states, by example.
//!
//! There is nothing here but tests, which use public calls alone: the crates that they test need not be proved a second time for them.
#![tactic(auto)]

#[cfg(test)]
mod reader_sample;
#[cfg(test)]
mod readers;
#[cfg(test)]
mod tests;
