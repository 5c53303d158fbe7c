//! Tests of whole texts: where a text stops to begin a program, what is read and printed again, and what is said of programs.
//!
//! There is nothing here but tests, which use public calls alone.
#![tactic(auto)]

#[cfg(test)]
mod bounds;
#[cfg(test)]
mod faults;
#[cfg(test)]
mod printed;
#[cfg(test)]
mod reading;
#[cfg(test)]
mod verdicts;
