//! Exact readers over bytes, and the printing of numbers.
//!
//! Each reader of bytes stands on this crate. It promises that a production made of its parts is read exactly: what is
//! read is spelled so, what is spelled so is read, at a fault the good part begins some text and one byte more begins
//! none, and a text spells at most one value. The laws are the contracts of [`laws`]; the functions give what the readers
//! of `specs/` give, in time linear in the bytes. It stands on `itoa`.
#![tactic(auto)]

pub mod family_laws;
mod fault;
mod integers;
pub mod laws;
mod lists;
mod literals;
mod names;
mod numbers;
mod printing;
mod words;

pub use fault::{Fault, ReadError};
pub use integers::{integer, signed};
pub use lists::{Production, closed, repeated, separated};
pub use literals::{after, literal, nothing_left};
pub use names::name;
pub use numbers::number;
pub use printing::{push_integer, push_number, push_signed};
pub use words::word;
