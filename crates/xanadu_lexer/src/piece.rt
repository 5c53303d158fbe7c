//! What stands at the front of a text.

ghost use Rattle.std.specs.Prelude.{◌≡◌, ◌<◌, ◌≤◌, ◌^◌, ◌∷◌, length, IfOk};
ghost use Rattle.std.specs.List.{prefix_len};
ghost use Rattle.std.specs.Char.{is_ascii_digit};
ghost use Rattle.xanadu_lexer.specs.Lexing as spec;
ghost use Rattle.xanadu_lexer.specs.Rules.{is_blank, is_word, is_no_newline};

use crate::error::LexKind;
use crate::keyword::keyword_of;
use crate::number::number;
use crate::symbol::{long_symbol, short_symbol};
use crate::token::TokenKind;
use std::alloc::Global;
use xan_io::{Memory, Name};

/// What stands at the front of a text, and how many bytes of it follow the first.
#[derive(Drop)]
pub enum Piece {
    /// A blank or a comment.
    Gap(usize),
    /// A token.
    Whole(TokenKind, usize),
    /// Nothing that may stand there.
    Bad(LexKind),
}

fn is_blank(byte: u8) -> bool
    ensures { result ≡ is_blank byte }
{
    byte == b' ' || byte == b'\t' || byte == b'\n' || byte == b'\r'
}

fn is_word(byte: u8) -> bool
    ensures { result ≡ is_word byte }
{
    byte.is_ascii_alphanumeric() || byte == b'_'
}

fn word_len(text: &[u8]) -> usize
    ensures value { result ≡ prefix_len is_word text.now }
    ensures within { result ≤ length text.now }
{
    text.iter().take_while(|byte| is_word(**byte)).count()
}

fn digits_len(text: &[u8]) -> usize
    ensures value { result ≡ prefix_len is_ascii_digit text.now }
    ensures within { result ≤ length text.now }
{
    text.iter().take_while(|byte| byte.is_ascii_digit()).count()
}

fn line_len(text: &[u8]) -> usize
    ensures value { result ≡ prefix_len is_no_newline text.now }
    ensures within { result ≤ length text.now }
{
    text.iter().take_while(|byte| **byte != b'\n').count()
}

fn begins_comment(first: u8, rest: &[u8]) -> bool
    ensures { result ≡ spec.begins_comment first rest.now }
{
    match rest {
        [second, ..] => first == b'/' && *second == b'/',
        [] => false,
    }
}

fn word_kind(alloc: Global, text: &[u8], first: u8) -> Result<TokenKind, Memory>
    ensures { IfOk result (λ kind. kind ≡ spec.word_from (spec.keyword_of text.now) first text.now) }
{
    if let Some(keyword) = keyword_of(text) {
        return Ok(TokenKind::Keyword(keyword));
    }
    let name = Name::from_bytes(alloc, text)?;
    if first.is_ascii_lowercase() {
        Ok(TokenKind::Lower(name))
    } else {
        Ok(TokenKind::Upper(name))
    }
}

#[tactic(auto, unfolding(crate::specs::Lexing::word))]
fn word(alloc: Global, text: &[u8], first: u8, rest: &[u8]) -> Result<Piece, Memory>
    requires parts { text.now ≡ first ∷ rest.now }
    requires room { length text.now < 2 ^ 32 }
    ensures value { IfOk result (λ found. found ≡ spec.word first rest.now) }
    ensures within { IfOk result (λ found. spec.more_of found ≤ length rest.now) }
{
    let more = word_len(rest);
    let kind = word_kind(alloc, &text[..more + 1], first)?;
    Ok(Piece::Whole(kind, more))
}

fn short_mark(first: u8) -> Piece
    ensures value { result ≡ spec.short_mark (spec.short_symbol first) }
    ensures within { spec.more_of result ≡ 0 }
{
    match short_symbol(first) {
        Some(symbol) => Piece::Whole(TokenKind::Symbol(symbol), 0),
        None => Piece::Bad(LexKind::Byte),
    }
}

fn mark(first: u8, rest: &[u8]) -> Piece
    ensures value { result ≡ spec.mark first rest.now }
    ensures within { spec.more_of result ≤ length rest.now }
{
    if let [second, ..] = rest
        && let Some(symbol) = long_symbol(first, *second)
    {
        return Piece::Whole(TokenKind::Symbol(symbol), 1);
    }
    short_mark(first)
}

/// What stands at the front of a text whose first byte is `first`.
#[tactic(auto, unfolding(crate::specs::Lexing::front))]
pub fn front(alloc: Global, text: &[u8], first: u8, rest: &[u8]) -> Result<Piece, Memory>
    requires parts { text.now ≡ first ∷ rest.now }
    requires room { length text.now < 2 ^ 32 }
    ensures value { IfOk result (λ found. found ≡ spec.front first rest.now) }
    ensures within { IfOk result (λ found. spec.more_of found ≤ length rest.now) }
{
    if is_blank(first) {
        Ok(Piece::Gap(0))
    } else if begins_comment(first, rest) {
        Ok(Piece::Gap(line_len(rest)))
    } else if first.is_ascii_alphabetic() {
        word(alloc, text, first, rest)
    } else if first.is_ascii_digit() {
        Ok(number(first, &rest[..digits_len(rest)]))
    } else {
        Ok(mark(first, rest))
    }
}
