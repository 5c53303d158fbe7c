//! Tests of `dtal_top` over texts that are run: what comes of each instruction at its edges, of the words, and of calls of the outside that fail.
//!
//! There is nothing here but tests, which use public calls alone.
#![tactic(auto)]

#[cfg(test)]
mod arithmetic;
#[cfg(test)]
mod blocks;
#[cfg(test)]
mod calls;
#[cfg(test)]
mod comparisons;
#[cfg(test)]
mod outside;
#[cfg(test)]
mod prefixes;
#[cfg(test)]
mod running;
#[cfg(test)]
mod straight;
#[cfg(test)]
mod words;
