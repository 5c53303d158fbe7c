//! Which sources have a tree, and where the others have their fault.

use crate::tests::answer;
use std::alloc::Global;
use std::test::Fail;
use xanadu_parser::ParseError;

/// What comes of a source, without its tree.
#[derive(Clone, Copy, PartialEq)]
enum End {
    Tree,
    Nesting,
    Fault(u32),
}

fn find_end(alloc: Global, source: &[u8]) -> Option<End> {
    match answer(alloc, source)? {
        Ok(_tree) => Some(End::Tree),
        Err(ParseError::Nesting) => Some(End::Nesting),
        Err(ParseError::Fault { at }) => Some(End::Fault(at)),
        Err(ParseError::Memory) => None,
    }
}

fn has_tree(alloc: Global, source: &[u8]) -> bool {
    find_end(alloc, source) == Some(End::Tree)
}

fn faults_at(alloc: Global, source: &[u8], at: u32) -> bool {
    find_end(alloc, source) == Some(End::Fault(at))
}

/// A source with `text` in the place of a statement.
fn statement(alloc: Global, text: &[u8]) -> Option<Vec<u8>> {
    let mut source = Vec::from_slice(alloc, b"fun f(): unit { ").ok()?;
    source.extend_from_slice(text).ok()?;
    source.extend_from_slice(b" }").ok()?;
    Some(source)
}

fn is_statement(alloc: Global, text: &[u8]) -> bool {
    statement(alloc, text).is_some_and(|source| has_tree(alloc, &source))
}

fn statement_faults_at(alloc: Global, text: &[u8], at: u32) -> bool {
    statement(alloc, text).is_some_and(|source| faults_at(alloc, &source, at))
}

const PROGRAMS: &[&[u8]] = &[
    b"",
    b"fun main(x: int, y: int): int { return x + y - 3; }",
    b"fun main(): int { return y; }",
    b"type T = int;",
    b"type T = {n: nat} int[n];",
    b"type T = (int, bool[], U, U[k], int(2*k - 1));",
    b"type T = {n: int, m: nat | n < m, -n + 1 <= 2*m, n > 0, n >= m, n = m} (int(n));",
    b"fun f{n: nat}(a: int[n]): {m: nat | m <= n} int(m) { } type U = bool;",
    b"fun f(): unit { }",
];

const STATEMENTS: &[&[u8]] = &[
    b"var x = 1;",
    b"let (x) = f();",
    b"let (x, y) = f(1, 2);",
    b"x = y;",
    b"x[1] = y;",
    b"x[1][y[2]] = y;",
    b"f();",
    b"f(1);",
    b"f(1, (2), g(x));",
    b"print -x;",
    b"if (a) { }",
    b"if (a) { } else { x = 1; }",
    b"if (a) { } join (x: int)",
    b"if (a) { } else { } join {n: nat} (x: int(n), y: int) x = 1;",
    b"while (a) { }",
    b"while (a) with (x: int) { }",
    b"while (a && !b || !(c < d)) with {n: nat | n <= 3} (x: int(n)) { return; }",
    b"return;",
    b"return true;",
    b"x = T(1, false);",
    b"x = new int[n](0);",
    b"x = new T[len(a) * 2]((1));",
    b"x = -a[1] * b % c / d + e - -f < g;",
];

const FAULTS: &[(&[u8], u32)] = &[
    (b"fun main() int { return 0; }", 11),
    (b"fun", 3),
    (b"fun f(): int { ", 15),
    (b"1", 0),
    (b"fun f(): unit { } }", 18),
    (b"type T = ;", 9),
    (b"type T = ();", 10),
    (b"type t = int;", 5),
    (b"type T = {} int;", 10),
    (b"type T = {n: bool} int;", 13),
    (b"type T = {n: nat |} int;", 18),
    (b"type T = {n: nat | n} int;", 20),
    (b"type T = {n: nat | n == 1} int;", 21),
    (b"type T = int[2 * 3];", 17),
    (b"type T = int[(2)];", 13),
    (b"type T = bool(2);", 13),
    (b"type T = int[2][3];", 15),
    (b"fun f(,): unit { }", 6),
    (b"fun f(x: int,): unit { }", 13),
    (b"fun f(): {n: nat} unit { }", 18),
];

const STATEMENT_FAULTS: &[(&[u8], u32)] = &[
    (b"x = !!a;", 21),
    (b"x = --a;", 21),
    (b"x = a < b < c;", 26),
    (b"x = a == b != c;", 27),
    (b"x = 1[2](3);", 24),
    (b"x = (1;", 22),
    (b"x = T;", 21),
    (b"x = T();", 22),
    (b"f(1)[2] = 3;", 20),
    (b"let () = f();", 21),
    (b"if (a) { } join ()", 33),
    (b"if (a) x = 1;", 23),
    (b"while (a) with { } (x: int) { }", 33),
    (b"while (a) { } with (x: int)", 30),
    (b"else { }", 16),
    (b"var x;", 21),
    (b"return 1", 25),
    (b"x = new int(3);", 27),
    (b"x = new int[3][3];", 30),
    (b"x = len a;", 24),
    (b"x = a &&;", 24),
    (b"x = a ! b;", 22),
    (b"x + 1;", 18),
    (b"{ }", 16),
];

#[test]
fn each_production_has_a_tree(rt: HostRuntime) {
    for source in PROGRAMS {
        assert!(rt; has_tree(rt.alloc(), source));
    }
    for text in STATEMENTS {
        assert!(rt; is_statement(rt.alloc(), text));
    }
}

#[test]
fn a_fault_is_told_at_the_first_token_that_cannot_follow(rt: HostRuntime) {
    for (source, at) in FAULTS {
        assert!(rt; faults_at(rt.alloc(), source, *at));
    }
    for (text, at) in STATEMENT_FAULTS {
        assert!(rt; statement_faults_at(rt.alloc(), text, *at));
    }
}

/// A statement with as many of `open` as there are, and then as many of `close`.
fn nested(alloc: Global, open: &[u8], close: &[u8], count: u32) -> Option<Vec<u8>> {
    let mut source = Vec::from_slice(alloc, b"fun f(): unit { x = a").ok()?;
    for _turn in 0..count {
        source.extend_from_slice(open).ok()?;
    }
    source.extend_from_slice(b"0").ok()?;
    for _turn in 0..count {
        source.extend_from_slice(close).ok()?;
    }
    source.extend_from_slice(b"; }").ok()?;
    Some(source)
}

fn nested_answer(alloc: Global, open: &[u8], close: &[u8], count: u32) -> Option<End> {
    find_end(alloc, &nested(alloc, open, close, count)?)
}

/// Groups of each kind: what opens one, and what closes it.
const GROUPS: &[(&[u8], &[u8])] = &[
    (b"-(", b")"),
    (b"-f(", b")"),
    (b"-f(1, ", b", 2)"),
    (b"-T(", b")"),
    (b"-len(", b")"),
    (b"-new int[", b"](0)"),
    (b"-new T[1](", b")"),
    (b"[b", b"]"),
    (b"; if (b) { x = a", b"; } x = a"),
    (b"; if (b) { } else { x = a", b"; } x = a"),
    (b"; while (b) { x = a", b"; } x = a"),
];

/// What is put so often into a statement, and closed as often, and the answer.
const NESTED: &[(&[u8], &[u8], u32, End)] = &[
    (b"[b ", b"]", 63, End::Fault(210)),
    (b"[b ", b"]", 64, End::Nesting),
    (b"[0] ", b"", 63, End::Fault(273)),
    (b"[0] ", b"", 64, End::Nesting),
    (b"] ", b"", 99, End::Fault(21)),
];

/// The body's own bracket is open around all that is put into it.
#[test]
fn sixty_four_brackets_may_be_open(rt: HostRuntime) {
    let alloc = rt.alloc();
    for (open, close) in GROUPS {
        assert!(rt; nested_answer(alloc, open, close, 62) == Some(End::Tree));
        assert!(rt; nested_answer(alloc, open, close, 63) == Some(End::Tree));
        assert!(rt; nested_answer(alloc, open, close, 64) == Some(End::Nesting));
    }
    for (open, close, count, wanted) in NESTED {
        assert!(rt; nested_answer(alloc, open, close, *count) == Some(*wanted));
    }
}
