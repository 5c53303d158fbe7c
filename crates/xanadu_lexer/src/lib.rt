//! The lexer of the source language: from the bytes of a source to its tokens.
//!
//! [`lex`] answers exactly what the rules of `specs/` give for these bytes: the tokens with their places, or the first fault. It stands on
//! `xan_io` for names and for running out of memory, and on `xan_seq` for the list that it answers.
#![tactic(auto)]

mod error;
mod keyword;
mod laws;
mod lexer;
mod number;
mod piece;
mod symbol;
mod token;

pub use error::{LexError, LexKind};
pub use keyword::Keyword;
pub use laws::{lexed_by_the_rules, only_one_answer_by_the_rules, tokens_are_spelled};
pub use lexer::lex;
pub use symbol::Symbol;
pub use token::{Token, TokenKind};
