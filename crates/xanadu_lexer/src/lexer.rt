ghost use Rattle.std.specs.Prelude.{◌≡◌, ◌<◌, ◌^◌, [], ◌∷◌, ◌++◌, length, OnOk, IfErr};
ghost use Rattle.xanadu_lexer.specs.Lexing as spec;

use crate::error::LexError;
use crate::piece::{Piece, front};
use crate::token::{Token, TokenKind};
use std::alloc::Global;
use xan_seq::Seq;

fn add(tokens: &mut Vec<Token>, at: u32, kind: TokenKind) -> Result<(), LexError>
    ensures added { OnOk result (tokens.new.items ≡ tokens.old.items ++ record { at = at; kind = kind } ∷ []) }
    ensures full { IfErr result (λ error. error ≡ LexError.Memory) }
{
    match tokens.push(Token { at, kind }) {
        Ok(()) => Ok(()),
        Err(_) => Err(LexError::Memory),
    }
}

/// The tokens of a source, in order.
///
/// A fault is at the first byte that begins no blank, comment or token, or at the first of a run of digits that is no number.
/// Want of memory is `LexError::Memory`.
#[tactic(auto, unfolding(crate::specs::Lexing::lexed))]
pub fn lex(alloc: Global, bytes: &[u8]) -> Result<Seq<Token>, LexError>
    requires { length bytes.now < 2 ^ 32 }
    ensures { spec.Gives result (spec.lexed bytes.now) }
{
    let mut tokens = Vec::new(alloc);
    let mut text = bytes;
    let mut at: u32 = 0;
    while let [first, rest @ ..] = text {
        let more = match front(alloc, text, *first, rest)? {
            Piece::Gap(more) => more,
            Piece::Whole(kind, more) => {
                add(&mut tokens, at, kind)?;
                more
            }
            Piece::Bad(kind) => return Err(LexError::Fault { at, kind }),
        };
        at += 1 + more as u32;
        text = rest.split_at(more).1;
    }
    Ok(Seq::from_vec(tokens))
}
