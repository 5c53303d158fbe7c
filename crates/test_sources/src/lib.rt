//! What a source is read as, and what its tree is printed as.
//!
//! There is nothing here but tests, which go through the lexer, the parser and the printer as a program does: the crates that they test
//! need not be proved a second time for them.
#![tactic(auto)]

#[cfg(test)]
mod tests;
