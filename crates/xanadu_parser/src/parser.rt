ghost use Rattle.std.specs.Prelude.{◌≡◌};
ghost use Rattle.xanadu_tree.specs.PlainTreeOf.{plain_tree};
ghost use Rattle.xanadu_parser.specs.Parsing as spec;
ghost use Rattle.xanadu_parser.specs.Parsing.{Answers};
ghost use Rattle.xanadu_parser.specs.Faults.{IsAnswer};

use crate::declarations::declarations;
use crate::error::ParseError;
use crate::nesting::is_too_nested;
use expression_parser::{Stop, Tokens};
use std::alloc::Global;
use xan_io::Memory;
use xanadu_lexer::Token;
use xanadu_tree::Tree;

/// The offset of the first of these tokens, or the end of the source where there is none.
fn first_at(tokens: &[Token], end: u32) -> u32
    ensures { result ≡ spec.first_at tokens.now end }
{
    match tokens {
        [token, ..] => token.at,
        [] => end,
    }
}

/// The offset of the token at which so many are left, or the end of the source where none is.
fn fault_at(tokens: &[Token], end: u32, left: usize) -> u32
    ensures { result ≡ spec.fault_at tokens.now end left }
{
    let good = tokens.len().saturating_sub(left);
    first_at(tokens.split_at(good).1, end)
}

/// The tree of tokens whose brackets do not nest too deep.
fn program(alloc: Global, tokens: &[Token], end: u32) -> Result<Tree, ParseError>
    ensures { Answers plain_tree result (spec.program tokens.now end) }
{
    let mut cursor = Tokens::new(tokens);
    match declarations(alloc, &mut cursor, tokens.len()) {
        Ok(declarations) => Ok(Tree {
            declarations,
            at: first_at(tokens, end),
        }),
        Err(Stop::Fault(left)) => Err(ParseError::Fault {
            at: fault_at(tokens, end, left),
        }),
        Err(Stop::Memory) => Err(ParseError::Memory),
    }
}

#[tactic(auto, unfolding(crate::specs::Parsing::parsed))]
fn answer(alloc: Global, tokens: &[Token], end: u32) -> Result<Tree, ParseError>
    ensures { Answers plain_tree result (spec.parsed tokens.now end) }
{
    match is_too_nested(alloc, tokens) {
        Ok(false) => program(alloc, tokens, end),
        Ok(true) => Err(ParseError::Nesting),
        Err(Memory) => Err(ParseError::Memory),
    }
}

/// The tree of a source's tokens, where `end` is the length of the source in bytes.
///
/// `ParseError::Nesting` exactly where more than 64 brackets are open at some token, which is looked at first. Else a tree exactly where the grammar
/// has one that spells the tokens; there is at most one. Else `ParseError::Fault` at the first token behind the longest part that begins a program,
/// or at the end of the source. Want of memory is `ParseError::Memory`.
pub fn parse(alloc: Global, tokens: &[Token], end: u32) -> Result<Tree, ParseError>
    ensures { IsAnswer plain_tree tokens.now end result }
{
    answer(alloc, tokens, end)
}
