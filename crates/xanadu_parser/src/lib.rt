//! The parser of the source language: from the tokens of a source to its tree.
//!
//! [`parse`] answers the one tree that spells the tokens, or the first token that no program has there. It stands on `expression_parser` for
//! what stands in statements and declarations, on `xanadu_lexer` for the tokens, on `xanadu_tree` for the tree and what spells it, and on `xan_io`
//! for running out of memory.
#![tactic(auto)]

mod declarations;
mod error;
mod laws;
mod nesting;
mod parser;
mod statements;

pub use error::ParseError;
pub use laws::tokens_spell_one_tree;
pub use parser::parse;
