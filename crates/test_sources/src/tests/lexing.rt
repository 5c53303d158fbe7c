//! Which tokens a source has, and where it has its fault.

use std::alloc::Global;
use xan_seq::Seq;
use xanadu_lexer::{LexError, LexKind, Token, TokenKind, lex};

/// A token that is wanted, by its text; a number by its value.
#[derive(Clone, Copy)]
enum Want {
    Lower(&'static [u8]),
    Upper(&'static [u8]),
    Num(i64),
    Word(&'static [u8]),
    Mark(&'static [u8]),
}

const KEYWORDS: &[&[u8]] = &[
    b"fun", b"type", b"var", b"let", b"if", b"else", b"join", b"while", b"with", b"return",
    b"print", b"new", b"len", b"true", b"false", b"int", b"nat", b"bool", b"unit",
];

const MARKS: &[&[u8]] = &[
    b"(", b")", b"{", b"}", b"[", b"]", b",", b";", b":", b"|", b"=", b"+", b"-", b"*", b"/", b"%",
    b"<", b"<=", b">", b">=", b"==", b"!=", b"!", b"&&", b"||",
];

/// Sources, and their tokens with the offset of each.
const TOKENS: &[(&[u8], &[(u32, Want)])] = &[
    (b"", &[]),
    (
        b"(fun/",
        &[
            (0, Want::Mark(b"(")),
            (1, Want::Word(b"fun")),
            (4, Want::Mark(b"/")),
        ],
    ),
    (
        b"a<=1",
        &[
            (0, Want::Lower(b"a")),
            (1, Want::Mark(b"<=")),
            (3, Want::Num(1)),
        ],
    ),
    (b"<==", &[(0, Want::Mark(b"<=")), (2, Want::Mark(b"="))]),
    (b"= =", &[(0, Want::Mark(b"=")), (2, Want::Mark(b"="))]),
    (b"===", &[(0, Want::Mark(b"==")), (2, Want::Mark(b"="))]),
    (b"!!=", &[(0, Want::Mark(b"!")), (1, Want::Mark(b"!="))]),
    (b"|||", &[(0, Want::Mark(b"||")), (2, Want::Mark(b"|"))]),
    (b"&&&&", &[(0, Want::Mark(b"&&")), (2, Want::Mark(b"&&"))]),
    (b"123abc", &[(0, Want::Num(123)), (3, Want::Lower(b"abc"))]),
    (
        b"funs While_1",
        &[(0, Want::Lower(b"funs")), (5, Want::Upper(b"While_1"))],
    ),
    (
        b"9223372036854775807",
        &[(0, Want::Num(9223372036854775807))],
    ),
    (
        b"a/b//c\n\t/d\r// e",
        &[
            (0, Want::Lower(b"a")),
            (1, Want::Mark(b"/")),
            (2, Want::Lower(b"b")),
            (8, Want::Mark(b"/")),
            (9, Want::Lower(b"d")),
        ],
    ),
    (b"//\xff\n0", &[(4, Want::Num(0))]),
];

/// Sources, the offset of the first fault, and whether a number is at fault there.
const FAULTS: &[(&[u8], u32, bool)] = &[
    (b"1 & 2", 2, false),
    (b"a &", 2, false),
    (b"&&&", 2, false),
    (b"a\x0b", 1, false),
    (b"\x0c", 0, false),
    (b"// a\n \xc3\xa9", 6, false),
    (b"if2 If _len", 7, false),
    (b"\"", 0, false),
    (b"x = 007;", 4, true),
    (b"0 00x", 2, true),
    (b"- 9223372036854775808", 2, true),
    (b"a 18446744073709551617 &", 2, true),
];

/// What `lex` gives for a source of a test, none of which is long.
fn lexed(alloc: Global, source: &[u8]) -> Result<Seq<Token>, LexError> {
    if source.len() > 0xffff_ffff {
        return Err(LexError::Memory);
    }
    lex(alloc, source)
}

fn is_wanted(token: &Token, at: u32, want: Want) -> bool {
    token.at == at
        && match (&token.kind, want) {
            (TokenKind::Lower(name), Want::Lower(text)) => name.bytes() == text,
            (TokenKind::Upper(name), Want::Upper(text)) => name.bytes() == text,
            (TokenKind::Num(number), Want::Num(wanted)) => *number == wanted,
            (TokenKind::Keyword(keyword), Want::Word(wanted)) => keyword.text() == wanted,
            (TokenKind::Symbol(symbol), Want::Mark(wanted)) => symbol.text() == wanted,
            _ => false,
        }
}

fn are_wanted(tokens: &[Token], wanted: &[(u32, Want)]) -> bool {
    tokens.len() == wanted.len()
        && tokens
            .iter()
            .zip(wanted)
            .all(|(token, (at, want))| is_wanted(token, *at, *want))
}

fn gives(alloc: Global, source: &[u8], wanted: &[(u32, Want)]) -> bool {
    lexed(alloc, source).is_ok_and(|tokens| are_wanted(tokens.as_slice(), wanted))
}

/// Whether the first fault is there, and is one of a number.
fn faults(alloc: Global, source: &[u8], place: u32, of_number: bool) -> bool {
    match lexed(alloc, source) {
        Err(LexError::Fault { at, kind }) => {
            at == place && matches!(kind, LexKind::Number) == of_number
        }
        _ => false,
    }
}

/// The number of tokens of a mebibyte of this byte, where it has no fault.
fn count_of(alloc: Global, byte: u8) -> Option<usize> {
    let source = Vec::from_elem(alloc, byte, 1_048_576).ok()?;
    let tokens = lexed(alloc, &source).ok()?;
    Some(tokens.as_slice().len())
}

/// Each keyword and each mark alone, and the longest token where several begin.
#[test]
fn sources_have_these_tokens(rt: HostRuntime) {
    for word in KEYWORDS {
        assert!(rt; gives(rt.alloc(), word, &[(0, Want::Word(word))]));
    }
    for mark in MARKS {
        assert!(rt; gives(rt.alloc(), mark, &[(0, Want::Mark(mark))]));
    }
    for (source, wanted) in TOKENS {
        assert!(rt; gives(rt.alloc(), source, wanted));
    }
}

#[test]
fn a_fault_is_told_at_its_first_byte(rt: HostRuntime) {
    for (source, at, of_number) in FAULTS {
        assert!(rt; faults(rt.alloc(), source, *at, *of_number));
    }
}

#[test]
fn a_mebibyte_is_read_at_once(rt: HostRuntime) {
    for (byte, count) in [
        (b' ', Some(0)),
        (b'/', Some(0)),
        (b'-', Some(1_048_576)),
        (b'(', Some(1_048_576)),
        (b'a', Some(1)),
        (b'1', None),
    ] {
        assert!(rt; count_of(rt.alloc(), byte) == count);
    }
}
