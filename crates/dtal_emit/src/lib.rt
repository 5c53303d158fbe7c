//! Emission: typed code over places becomes a program of the assembly language, where each place has a home.
//!
//! An instruction over words in slots is written with the moves that bring them into scratch registers, and its result to a slot with the
//! move behind it. The code from one label to the next is a block. It promises exactly the program that `specs/` defines, unless memory runs
//! out. It stands on `three_address` and `dtal_code`.
#![tactic(auto)]

mod acting;
mod blocks;
mod edges;
mod emitting;
mod homes;
mod instructions;
mod labels;
mod out;

pub use emitting::emit;
