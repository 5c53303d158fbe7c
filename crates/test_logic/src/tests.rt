//! A module for each crate that is tested. The answers are worked out by hand.
mod contexts;
mod forms;
mod lines;
mod pools;
mod solver;
mod systems;
mod types;
