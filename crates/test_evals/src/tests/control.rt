//! Tests, branches, loops and calls, and the units and activations that they take.

use crate::tests::{Came, Row, USUAL, agreeing};

/// Says which part of a test was looked at.
const BOTH: &[u8] = b"fun f(b: bool, n: int): bool { print n; return b; }
fun main(a: bool, b: bool, c: bool): int { if (f(a, 1) && f(b, 2) && f(c, 3)) { return 1; } return 0; }";

const EITHER: &[u8] = b"fun f(b: bool, n: int): bool { print n; return b; }
fun main(a: bool, b: bool, c: bool): int { if (f(a, 1) || f(b, 2) || f(c, 3)) { return 1; } return 0; }";

const MIXED: &[u8] = b"fun f(b: bool, n: int): bool { print n; return b; }
fun main(a: bool, b: bool, c: bool): int { if (!(f(a, 1) && !f(b, 2)) || f(c, 3)) { return 1; } else { return 0; } }";

/// `&&` and `||` skip what no longer decides.
const TESTS: &[Row] = &[
    (
        BOTH,
        &["bool=true", "bool=true", "bool=true"],
        USUAL,
        Came::Returned(1),
        b"1\n2\n3\n",
    ),
    (
        BOTH,
        &["bool=true", "bool=true", "bool=false"],
        USUAL,
        Came::Returned(0),
        b"1\n2\n3\n",
    ),
    (
        BOTH,
        &["bool=true", "bool=false", "bool=true"],
        USUAL,
        Came::Returned(0),
        b"1\n2\n",
    ),
    (
        BOTH,
        &["bool=false", "bool=true", "bool=true"],
        USUAL,
        Came::Returned(0),
        b"1\n",
    ),
    (
        EITHER,
        &["bool=false", "bool=false", "bool=false"],
        USUAL,
        Came::Returned(0),
        b"1\n2\n3\n",
    ),
    (
        EITHER,
        &["bool=false", "bool=false", "bool=true"],
        USUAL,
        Came::Returned(1),
        b"1\n2\n3\n",
    ),
    (
        EITHER,
        &["bool=false", "bool=true", "bool=false"],
        USUAL,
        Came::Returned(1),
        b"1\n2\n",
    ),
    (
        EITHER,
        &["bool=true", "bool=false", "bool=false"],
        USUAL,
        Came::Returned(1),
        b"1\n",
    ),
    (
        MIXED,
        &["bool=false", "bool=true", "bool=false"],
        USUAL,
        Came::Returned(1),
        b"1\n",
    ),
    (
        MIXED,
        &["bool=true", "bool=true", "bool=false"],
        USUAL,
        Came::Returned(1),
        b"1\n2\n",
    ),
    (
        MIXED,
        &["bool=true", "bool=false", "bool=false"],
        USUAL,
        Came::Returned(0),
        b"1\n2\n3\n",
    ),
    (
        MIXED,
        &["bool=true", "bool=false", "bool=true"],
        USUAL,
        Came::Returned(1),
        b"1\n2\n3\n",
    ),
];

const ENDLESS: &[u8] = b"fun main(): int { while (true) { print 1; } return 0; }";

const NEVER: &[u8] = b"fun main(): int { while (false) { print 1; } return 4; }";

const THRICE: &[u8] =
    b"fun main(): int { var i = 0; while (i < 3) { print i; i = i + 1; } return i; }";

const FROM_LOOP: &[u8] =
    b"fun main(x: int): int { while (true) { if (x < 5) { return 1; } print x; x = x - 1; } return 0; }";

/// A turn takes a unit as its body begins.
const LOOPS: &[Row] = &[
    (ENDLESS, &[], (1000, 10, 3), Came::FuelEnded, b"1\n1\n1\n"),
    (ENDLESS, &[], (1000, 10, 0), Came::FuelEnded, b""),
    (NEVER, &[], (1000, 10, 0), Came::Returned(4), b""),
    (THRICE, &[], (1000, 10, 3), Came::Returned(3), b"0\n1\n2\n"),
    (THRICE, &[], (1000, 10, 2), Came::FuelEnded, b"0\n1\n"),
    (
        FROM_LOOP,
        &["int=6"],
        (1000, 10, 3),
        Came::Returned(1),
        b"6\n5\n",
    ),
    (
        FROM_LOOP,
        &["int=6"],
        (1000, 10, 2),
        Came::FuelEnded,
        b"6\n5\n",
    ),
];

const ONE_CALL: &[u8] =
    b"fun f(x: int): int { return x; } fun main(x: int): int { return f(x + 1); }";

const DOWN: &[u8] =
    b"fun f(x: int): int { if (x < 1) { return 0; } return 1 + f(x - 1); } fun main(x: int): int { return f(x); }";

const MUTUAL: &[u8] = b"fun even(x: int): bool { if (x == 0) { return true; } return odd(x - 1); }
fun odd(x: int): bool { if (x == 0) { return false; } return even(x - 1); }
fun main(x: int): int { if (even(x)) { return 1; } return 0; }";

const UNIT: &[u8] = b"fun say(x: int): unit { if (x < 0) { return; } print x; return; }
fun main(x: int): int { say(x); say(-x); say(x + 1); return x; }";

const ITSELF: &[u8] = b"fun main(x: int): int { if (x < 1) { return 0; } return 1 + main(x - 1); }";

/// A call evaluates its arguments, then wants an activation, and then a unit.
const CALLS: &[Row] = &[
    (ONE_CALL, &["int=1"], (1000, 2, 1), Came::Returned(2), b""),
    (ONE_CALL, &["int=1"], (1000, 2, 0), Came::FuelEnded, b""),
    (ONE_CALL, &["int=1"], (1000, 1, 1), Came::NoStore, b""),
    (ONE_CALL, &["int=1"], (1000, 1, 0), Came::NoStore, b""),
    (
        ONE_CALL,
        &["int=9223372036854775807"],
        (1000, 1, 0),
        Came::Overflow,
        b"",
    ),
    (ONE_CALL, &["int=1"], (1000, 0, 1), Came::NoStore, b""),
    (DOWN, &["int=2"], (1000, 4, 3), Came::Returned(2), b""),
    (DOWN, &["int=2"], (1000, 4, 2), Came::FuelEnded, b""),
    (DOWN, &["int=2"], (1000, 3, 3), Came::NoStore, b""),
    (DOWN, &["int=2"], (1000, 3, 2), Came::NoStore, b""),
    (DOWN, &["int=2"], (1000, 3, 1), Came::FuelEnded, b""),
    (MUTUAL, &["int=10"], USUAL, Came::Returned(1), b""),
    (MUTUAL, &["int=11"], USUAL, Came::Returned(0), b""),
    (UNIT, &["int=5"], USUAL, Came::Returned(5), b"5\n6\n"),
    (UNIT, &["int=-5"], USUAL, Came::Returned(-5), b"5\n"),
    (ITSELF, &["int=2"], (0, 3, 2), Came::Returned(2), b""),
    (ITSELF, &["int=2"], (0, 2, 2), Came::NoStore, b""),
];

const SIGN: &[u8] =
    b"fun main(x: int): int { if (x < 0) { return -1; } else { if (x == 0) { return 0; } } return 1; }";

const JOINED: &[u8] =
    b"fun main(x: int, y: int): int { var m = x; if (y < x) { m = y; } else { print m; } print m; return m; }";

const BRANCHES: &[Row] = &[
    (SIGN, &["int=-3"], USUAL, Came::Returned(-1), b""),
    (SIGN, &["int=0"], USUAL, Came::Returned(0), b""),
    (SIGN, &["int=3"], USUAL, Came::Returned(1), b""),
    (
        JOINED,
        &["int=1", "int=2"],
        USUAL,
        Came::Returned(1),
        b"1\n1\n",
    ),
    (
        JOINED,
        &["int=2", "int=1"],
        USUAL,
        Came::Returned(1),
        b"1\n",
    ),
];

#[test]
fn tests_skip_what_does_not_decide(rt: HostRuntime) {
    assert!(rt; agreeing(rt.alloc(), TESTS) == TESTS.len());
}

#[test]
fn a_turn_takes_a_unit(rt: HostRuntime) {
    assert!(rt; agreeing(rt.alloc(), LOOPS) == LOOPS.len());
}

#[test]
fn a_call_wants_an_activation_and_then_a_unit(rt: HostRuntime) {
    assert!(rt; agreeing(rt.alloc(), CALLS) == CALLS.len());
}

#[test]
fn branches_meet_again(rt: HostRuntime) {
    assert!(rt; agreeing(rt.alloc(), BRANCHES) == BRANCHES.len());
}
