//! Operations at the edges of the numbers, and the order of operands.

use crate::tests::{Came, Row, USUAL, agreeing};

const MOST: i64 = 9_223_372_036_854_775_807;

const LEAST: i64 = -9_223_372_036_854_775_808;

const ADD: &[u8] = b"fun main(x: int, y: int): int { return x + y; }";

const SUB: &[u8] = b"fun main(x: int, y: int): int { return x - y; }";

const MUL: &[u8] = b"fun main(x: int, y: int): int { return x * y; }";

const NEG: &[u8] = b"fun main(x: int): int { return -x; }";

const DIV: &[u8] =
    b"fun main{x: int, y: int | y >= 1}(a: int(x), b: int(y)): int { return a / b; }";

const MOD: &[u8] =
    b"fun main{x: int, y: int | y >= 1}(a: int(x), b: int(y)): int { return a % b; }";

/// Results that fit, and those that do not by one.
const RESULTS: &[Row] = &[
    (
        ADD,
        &["int=9223372036854775806", "int=1"],
        USUAL,
        Came::Returned(MOST),
        b"",
    ),
    (
        ADD,
        &["int=9223372036854775807", "int=1"],
        USUAL,
        Came::Overflow,
        b"",
    ),
    (
        ADD,
        &["int=-9223372036854775807", "int=-1"],
        USUAL,
        Came::Returned(LEAST),
        b"",
    ),
    (
        ADD,
        &["int=-9223372036854775808", "int=-1"],
        USUAL,
        Came::Overflow,
        b"",
    ),
    (
        SUB,
        &["int=9223372036854775806", "int=-1"],
        USUAL,
        Came::Returned(MOST),
        b"",
    ),
    (
        SUB,
        &["int=9223372036854775807", "int=-1"],
        USUAL,
        Came::Overflow,
        b"",
    ),
    (
        SUB,
        &["int=-1", "int=9223372036854775807"],
        USUAL,
        Came::Returned(LEAST),
        b"",
    ),
    (
        SUB,
        &["int=-2", "int=9223372036854775807"],
        USUAL,
        Came::Overflow,
        b"",
    ),
    (
        MUL,
        &["int=4294967296", "int=-2147483648"],
        USUAL,
        Came::Returned(LEAST),
        b"",
    ),
    (
        MUL,
        &["int=4294967296", "int=2147483648"],
        USUAL,
        Came::Overflow,
        b"",
    ),
    (
        MUL,
        &["int=-9223372036854775808", "int=-1"],
        USUAL,
        Came::Overflow,
        b"",
    ),
    (
        MUL,
        &["int=-9223372036854775808", "int=0"],
        USUAL,
        Came::Returned(0),
        b"",
    ),
    (
        NEG,
        &["int=9223372036854775807"],
        USUAL,
        Came::Returned(-9_223_372_036_854_775_807),
        b"",
    ),
    (
        NEG,
        &["int=-9223372036854775808"],
        USUAL,
        Came::Overflow,
        b"",
    ),
];

/// Quotients go down to the floor, and remainders are never negative.
const QUOTIENTS: &[Row] = &[
    (DIV, &["int=7", "int=2"], USUAL, Came::Returned(3), b""),
    (DIV, &["int=-7", "int=2"], USUAL, Came::Returned(-4), b""),
    (DIV, &["int=-8", "int=2"], USUAL, Came::Returned(-4), b""),
    (
        DIV,
        &["int=-9223372036854775808", "int=1"],
        USUAL,
        Came::Returned(LEAST),
        b"",
    ),
    (
        DIV,
        &["int=-1", "int=9223372036854775807"],
        USUAL,
        Came::Returned(-1),
        b"",
    ),
    (MOD, &["int=7", "int=2"], USUAL, Came::Returned(1), b""),
    (MOD, &["int=-7", "int=2"], USUAL, Came::Returned(1), b""),
    (MOD, &["int=-8", "int=2"], USUAL, Came::Returned(0), b""),
    (
        MOD,
        &["int=-9223372036854775808", "int=9223372036854775807"],
        USUAL,
        Came::Returned(9_223_372_036_854_775_806),
        b"",
    ),
    (MOD, &["int=-7", "int=1"], USUAL, Came::Returned(0), b""),
];

/// Each comparison of two numbers as a value, as a digit of the result.
const COMPARED: &[u8] = b"fun one(b: bool): int { if (b) { return 1; } return 0; }
fun main(x: int, y: int): int {
  return one(x < y) + 10 * one(x <= y) + 100 * one(x > y) + 1000 * one(x >= y) + 10000 * one(x == y) + 100000 * one(x != y);
}";

/// The same, each as a test.
const TESTED: &[u8] = b"fun main(x: int, y: int): int {
  var s = 0;
  if (x < y) { s = s + 1; }
  if (x <= y) { s = s + 10; }
  if (x > y) { s = s + 100; }
  if (x >= y) { s = s + 1000; }
  if (x == y) { s = s + 10000; }
  if (x != y) { s = s + 100000; }
  return s;
}";

const COMPARISONS: &[Row] = &[
    (
        COMPARED,
        &["int=1", "int=2"],
        USUAL,
        Came::Returned(100_011),
        b"",
    ),
    (
        COMPARED,
        &["int=2", "int=2"],
        USUAL,
        Came::Returned(11_010),
        b"",
    ),
    (
        COMPARED,
        &["int=3", "int=2"],
        USUAL,
        Came::Returned(101_100),
        b"",
    ),
    (
        COMPARED,
        &["int=-9223372036854775808", "int=9223372036854775807"],
        USUAL,
        Came::Returned(100_011),
        b"",
    ),
    (
        TESTED,
        &["int=1", "int=2"],
        USUAL,
        Came::Returned(100_011),
        b"",
    ),
    (
        TESTED,
        &["int=2", "int=2"],
        USUAL,
        Came::Returned(11_010),
        b"",
    ),
    (
        TESTED,
        &["int=3", "int=2"],
        USUAL,
        Came::Returned(101_100),
        b"",
    ),
    (
        TESTED,
        &["int=9223372036854775807", "int=-9223372036854775808"],
        USUAL,
        Came::Returned(101_100),
        b"",
    ),
];

/// Puts its number and gives it.
const CHAIN: &[u8] =
    b"fun f(x: int): int { print x; return x; } fun main(): int { return f(9) - f(5) + f(1); }";

const SECOND: &[u8] =
    b"fun f(x: int): int { print x; return x; } fun main(x: int): int { return (f(x) + 1) * f(2); }";

const CALLED: &[u8] =
    b"fun f(x: int): int { print x; return x; } fun g(a: int, b: int, c: int): int { return a - b - c; }
fun main(): int { return g(f(1), f(2), f(3)); }";

/// Operands are evaluated from left to right, and a chain from the left.
const ORDER: &[Row] = &[
    (CHAIN, &[], USUAL, Came::Returned(5), b"9\n5\n1\n"),
    (SECOND, &["int=4"], USUAL, Came::Returned(10), b"4\n2\n"),
    (
        SECOND,
        &["int=9223372036854775807"],
        USUAL,
        Came::Overflow,
        b"9223372036854775807\n",
    ),
    (CALLED, &[], USUAL, Came::Returned(-4), b"1\n2\n3\n"),
    (
        b"fun main(): int { return 7; }",
        &[],
        USUAL,
        Came::Returned(7),
        b"",
    ),
    (
        b"fun main(x: int): int { var y = x; y = y + y; print y; print -y; return y - x; }",
        &["int=-3"],
        USUAL,
        Came::Returned(-3),
        b"-6\n6\n",
    ),
];

#[test]
fn results_fit_or_the_run_ends(rt: HostRuntime) {
    assert!(rt; agreeing(rt.alloc(), RESULTS) == RESULTS.len());
}

#[test]
fn quotients_are_floors(rt: HostRuntime) {
    assert!(rt; agreeing(rt.alloc(), QUOTIENTS) == QUOTIENTS.len());
}

#[test]
fn comparisons_are_as_by_hand(rt: HostRuntime) {
    assert!(rt; agreeing(rt.alloc(), COMPARISONS) == COMPARISONS.len());
}

#[test]
fn operands_come_from_the_left(rt: HostRuntime) {
    assert!(rt; agreeing(rt.alloc(), ORDER) == ORDER.len());
}
