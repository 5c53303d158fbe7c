//! The marks: their texts, and the mark that one byte or two are.

ghost use Rattle.std.specs.Prelude.{◌≡◌};
ghost use Rattle.xanadu_lexer.specs.Lexing as spec;
ghost use Rattle.xanadu_lexer.specs.Spelling.{symbol_text};

/// A mark.
#[derive(Clone, Copy)]
pub enum Symbol {
    /// `(`
    LeftParen,
    /// `)`
    RightParen,
    /// `{`
    LeftBrace,
    /// `}`
    RightBrace,
    /// `[`
    LeftBracket,
    /// `]`
    RightBracket,
    /// `,`
    Comma,
    /// `;`
    Semicolon,
    /// `:`
    Colon,
    /// `|`
    Bar,
    /// `=`
    Equal,
    /// `+`
    Plus,
    /// `-`
    Minus,
    /// `*`
    Star,
    /// `/`
    Slash,
    /// `%`
    Percent,
    /// `<`
    Less,
    /// `<=`
    LessEqual,
    /// `>`
    Greater,
    /// `>=`
    GreaterEqual,
    /// `==`
    EqualEqual,
    /// `!=`
    NotEqual,
    /// `!`
    Not,
    /// `&&`
    And,
    /// `||`
    Or,
}

impl Symbol {
    /// How it is written.
    pub fn text(self) -> &'static [u8]
        ensures { result.now ≡ symbol_text self }
    {
        match self {
            Symbol::LeftParen => b"(",
            Symbol::RightParen => b")",
            Symbol::LeftBrace => b"{",
            Symbol::RightBrace => b"}",
            Symbol::LeftBracket => b"[",
            Symbol::RightBracket => b"]",
            Symbol::Comma => b",",
            Symbol::Semicolon => b";",
            Symbol::Colon => b":",
            Symbol::Bar => b"|",
            Symbol::Equal => b"=",
            Symbol::Plus => b"+",
            Symbol::Minus => b"-",
            Symbol::Star => b"*",
            Symbol::Slash => b"/",
            Symbol::Percent => b"%",
            Symbol::Less => b"<",
            Symbol::LessEqual => b"<=",
            Symbol::Greater => b">",
            Symbol::GreaterEqual => b">=",
            Symbol::EqualEqual => b"==",
            Symbol::NotEqual => b"!=",
            Symbol::Not => b"!",
            Symbol::And => b"&&",
            Symbol::Or => b"||",
        }
    }
}

/// The mark that two bytes are, if they are one.
#[tactic(auto, unfolding(crate::specs::Lexing::long_symbol))]
pub fn long_symbol(first: u8, second: u8) -> Option<Symbol>
    ensures { result ≡ spec.long_symbol first second }
{
    match (first, second) {
        (b'<', b'=') => Some(Symbol::LessEqual),
        (b'>', b'=') => Some(Symbol::GreaterEqual),
        (b'=', b'=') => Some(Symbol::EqualEqual),
        (b'!', b'=') => Some(Symbol::NotEqual),
        (b'&', b'&') => Some(Symbol::And),
        (b'|', b'|') => Some(Symbol::Or),
        _ => None,
    }
}

/// The mark that one byte is, if it is one.
#[tactic(auto, unfolding(crate::specs::Lexing::short_symbol))]
pub fn short_symbol(first: u8) -> Option<Symbol>
    ensures { result ≡ spec.short_symbol first }
{
    match first {
        b'(' => Some(Symbol::LeftParen),
        b')' => Some(Symbol::RightParen),
        b'{' => Some(Symbol::LeftBrace),
        b'}' => Some(Symbol::RightBrace),
        b'[' => Some(Symbol::LeftBracket),
        b']' => Some(Symbol::RightBracket),
        b',' => Some(Symbol::Comma),
        b';' => Some(Symbol::Semicolon),
        b':' => Some(Symbol::Colon),
        b'|' => Some(Symbol::Bar),
        b'=' => Some(Symbol::Equal),
        b'+' => Some(Symbol::Plus),
        b'-' => Some(Symbol::Minus),
        b'*' => Some(Symbol::Star),
        b'/' => Some(Symbol::Slash),
        b'%' => Some(Symbol::Percent),
        b'<' => Some(Symbol::Less),
        b'>' => Some(Symbol::Greater),
        b'!' => Some(Symbol::Not),
        _ => None,
    }
}
