//! The assembler: the object of an accepted program, that is its instructions as words, with labels resolved.
//!
//! It promises exactly the object that `dtal_code` defines, unless memory runs out. It stands on `dtal_code`.
#![tactic(auto)]

mod assembling;
mod counting;
mod labels;
mod main_function;
mod resolving;

pub use assembling::assemble;
