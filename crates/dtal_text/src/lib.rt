//! The reader of the assembly language's text.
//!
//! The reading of programs is a function here, and its law joins it to the text of `dtal_code`: what is read is spelled so, what is
//! spelled so is read, and where reading fails the place is told by the language alone. [`read`] answers the one program that the bytes
//! spell, or where they stop to begin one. Each production is a reader of `xan_read`, and a function that gives what the reader gives.
//! [`read_chain`] reads lists in which what an item may be hangs on those before it.
#![tactic(auto)]

mod body;
mod bounded;
mod building;
mod chain;
mod edges;
mod items;
mod labels;
mod laws;
mod line;
mod listed;
mod names;
mod operands;
mod places;
mod signatures;
mod tables;
mod text_error;
mod types;
mod unbounded;
mod whole;
mod word;
mod words;

pub use bounded::Bounded;
pub use chain::{Chained, read_chain};
pub use laws::program_texts_are_read;
pub use line::{BodyLine, Lines, Stand, Which};
pub use text_error::TextError;
pub use unbounded::Unbounded;
pub use whole::read;
pub use word::{LineWord, OpWord, TyWord};
