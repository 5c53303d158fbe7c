//! The number that a run of digits is.

ghost use Rattle.std.specs.Prelude.{◌≡◌, ◌<◌, ◌≤◌, ◌+◌, ◌*◌, ◌-◌, ◌^◌, length, SomeIff};
ghost use Rattle.xanadu_lexer.specs.Lexing as spec;
ghost use Rattle.xanadu_lexer.specs.Spelling.{value_from};

use crate::error::LexKind;
use crate::piece::Piece;
use crate::token::TokenKind;

/// The greatest number of a source.
const GREATEST: u64 = 0x7fff_ffff_ffff_ffff;

/// The number whose digits are those of `number` and then this one, if it is not too great.
fn with_digit(number: u64, digit: u8) -> Option<u64>
    requires { number < 2 ^ 63 }
    ensures { SomeIff result (10 * number + (digit - 48) < 2 ^ 63) (10 * number + (digit - 48)) }
{
    let units = digit.saturating_sub(b'0') as u64;
    let sum = 10 * number as u128 + units as u128;
    if sum <= GREATEST as u128 {
        Some(sum as u64)
    } else {
        None
    }
}

/// The number that these digits are, after `number`, if it is not too great.
fn value_from(start: u64, digits: &[u8]) -> Option<u64>
    requires { start < 2 ^ 63 }
    ensures { SomeIff result (value_from start digits.now < 2 ^ 63) (value_from start digits.now) }
{
    let mut number = start;
    for digit in digits {
        match with_digit(number, *digit) {
            Some(next) => number = next,
            None => return None,
        }
    }
    Some(number)
}

/// The piece that a run of digits is.
#[tactic(auto, unfolding(crate::specs::Lexing::number))]
pub fn number(first: u8, digits: &[u8]) -> Piece
    ensures value { result ≡ spec.number first digits.now }
    ensures within { spec.more_of result ≤ length digits.now }
{
    if first == b'0' && !digits.is_empty() {
        return Piece::Bad(LexKind::Number);
    }
    match value_from(first.saturating_sub(b'0') as u64, digits) {
        Some(value) => Piece::Whole(TokenKind::Num(value as i64), digits.len()),
        None => Piece::Bad(LexKind::Number),
    }
}
