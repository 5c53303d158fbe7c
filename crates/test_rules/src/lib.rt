//! What operations demand and give in types, and which places are live, by examples that are worked out by hand.
//!
//! There is nothing here but tests, which use public calls alone: the crates that they test need not be proved a second time for them.
#![tactic(auto)]

#[cfg(test)]
mod live_places;
#[cfg(test)]
mod tests;
