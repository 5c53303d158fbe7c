//! The lower half of the parser of the source language: a cursor over tokens, lists with commas, index expressions, types and expressions.
//!
//! Each function gives what the reader of its production gives, which `specs/` defines one by one: its value and the tokens behind it, or how many
//! tokens are left at the fault. It stands on `xanadu_lexer` for the tokens, on `xanadu_tree` for the tree and what spells it, on `xan_read` for
//! readers and their laws, and on `xan_io` for names. `xanadu_parser` reads statements, declarations and whole programs over it.
#![tactic(auto)]

mod expressions;
mod index;
mod lists;
mod operators;
mod room;
mod stop;
mod tokens;
mod written_types;

pub use expressions::{arguments, expression, indices};
pub use index::{quantified, quantifier};
pub use lists::{Item, separated};
pub use room::push_read;
pub use stop::Stop;
pub use tokens::Tokens;
pub use written_types::{clause_behind, parameters, type_at, types, written_type};
