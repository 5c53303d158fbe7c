//! The keywords: their texts, and the keyword that a word is.

ghost use Rattle.std.specs.Prelude.{◌≡◌};
ghost use Rattle.xanadu_lexer.specs.Lexing as spec;
ghost use Rattle.xanadu_lexer.specs.Spelling.{keyword_text};

/// A word that is no name. Each is named for its text.
#[derive(Clone, Copy)]
pub enum Keyword {
    Fun,
    Type,
    Var,
    Let,
    If,
    Else,
    Join,
    While,
    With,
    Return,
    Print,
    New,
    Len,
    True,
    False,
    Int,
    Nat,
    Bool,
    Unit,
}

/// All keywords.
const KEYWORDS: [Keyword; 19] = [
    Keyword::Fun,
    Keyword::Type,
    Keyword::Var,
    Keyword::Let,
    Keyword::If,
    Keyword::Else,
    Keyword::Join,
    Keyword::While,
    Keyword::With,
    Keyword::Return,
    Keyword::Print,
    Keyword::New,
    Keyword::Len,
    Keyword::True,
    Keyword::False,
    Keyword::Int,
    Keyword::Nat,
    Keyword::Bool,
    Keyword::Unit,
];

impl Keyword {
    /// How it is written.
    pub fn text(self) -> &'static [u8]
        ensures { result.now ≡ keyword_text self }
    {
        match self {
            Keyword::Fun => b"fun",
            Keyword::Type => b"type",
            Keyword::Var => b"var",
            Keyword::Let => b"let",
            Keyword::If => b"if",
            Keyword::Else => b"else",
            Keyword::Join => b"join",
            Keyword::While => b"while",
            Keyword::With => b"with",
            Keyword::Return => b"return",
            Keyword::Print => b"print",
            Keyword::New => b"new",
            Keyword::Len => b"len",
            Keyword::True => b"true",
            Keyword::False => b"false",
            Keyword::Int => b"int",
            Keyword::Nat => b"nat",
            Keyword::Bool => b"bool",
            Keyword::Unit => b"unit",
        }
    }
}

fn keyword_among(mut keywords: &[Keyword], word: &[u8]) -> Option<Keyword>
    ensures { result ≡ spec.keyword_among keywords.entry.now word.now }
{
    while let [keyword, rest @ ..] = keywords {
        if keyword.text() == word {
            return Some(*keyword);
        }
        keywords = rest;
    }
    None
}

/// The keyword that this word is, if it is one.
#[tactic(auto, unfolding(crate::specs::Lexing::keyword_of))]
pub fn keyword_of(word: &[u8]) -> Option<Keyword>
    ensures { result ≡ spec.keyword_of word.now }
{
    keyword_among(&KEYWORDS, word)
}
