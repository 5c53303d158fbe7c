use crate::keyword::Keyword;
use crate::symbol::Symbol;
use xan_io::Name;

/// A token and where it stands.
#[derive(Drop)]
pub struct Token {
    /// The offset in bytes of its first byte, from the start of the source.
    pub at: u32,
    pub kind: TokenKind,
}

/// What a token is.
#[derive(Drop)]
pub enum TokenKind {
    /// A name that begins with a small letter, and is no keyword.
    Lower(Name),
    /// A name that begins with a capital letter.
    Upper(Name),
    /// A number, from 0 to 9223372036854775807.
    Num(i64),
    Keyword(Keyword),
    Symbol(Symbol),
}
