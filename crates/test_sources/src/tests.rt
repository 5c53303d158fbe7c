//! Sources as rows of tables.

mod lexing;
mod long;
mod parsing;
mod printing;

use std::alloc::Global;
use xanadu_lexer::lex;
use xanadu_parser::{ParseError, parse};
use xanadu_tree::Tree;

/// What `parse` answers for the tokens of a source. `None` where the source has no tokens.
fn answer(alloc: Global, source: &[u8]) -> Option<Result<Tree, ParseError>> {
    if source.len() > 0xffff_ffff {
        return None;
    }
    let tokens = lex(alloc, source).ok()?;
    Some(parse(alloc, tokens.as_slice(), source.len() as u32))
}
