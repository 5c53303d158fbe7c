//! Faults of arguments, in their order: the number, the kinds, the indices, the rows.

use crate::tests::{Came, Row, USUAL, agreeing};

const THREE: &[u8] =
    b"fun main{n: nat | n <= 2}(a: int[n], b: int[n], c: bool): int { print 1; if (c) { return len(a); } return len(b); }";

const LOW: &[u8] = b"fun main{x: int | x <= 4}(a: int(x)): int { return a; }";

const ORDERED: &[u8] =
    b"fun main{x: int, y: int | x < y, y < 10, x >= 0}(a: int(x), b: int(y)): int { return b - a; }";

const SUMMED: &[u8] =
    b"fun main{x: int, y: int}(a: int(x), b: int(y), c: int(x + y)): int { return c; }";

const NONE: &[u8] = b"fun main(): int { return 5; }";

const FAULTS: &[Row] = &[
    (
        THREE,
        &["arr=1,2", "arr=3,4", "bool=true"],
        USUAL,
        Came::Returned(2),
        b"1\n",
    ),
    (THREE, &[], USUAL, Came::Count, b""),
    (THREE, &["bool=true", "arr=1"], USUAL, Came::Count, b""),
    (
        THREE,
        &["arr=1", "arr=1,2", "bool=true", "int=1"],
        USUAL,
        Came::Count,
        b"",
    ),
    (
        THREE,
        &["int=1", "int=1", "int=1"],
        USUAL,
        Came::Kind(1),
        b"",
    ),
    (
        THREE,
        &["arr=1", "bool=true", "int=1"],
        USUAL,
        Came::Kind(2),
        b"",
    ),
    (
        THREE,
        &["arr=1", "arr=1,2", "int=1"],
        USUAL,
        Came::Kind(3),
        b"",
    ),
    (
        THREE,
        &["arr=1", "arr=1,2", "bool=true"],
        USUAL,
        Came::Index(2),
        b"",
    ),
    (
        THREE,
        &["arr=1,2,3", "arr=1,2", "bool=true"],
        USUAL,
        Came::Index(2),
        b"",
    ),
    (
        THREE,
        &["arr=1,2,3", "arr=1,2,3", "bool=true"],
        USUAL,
        Came::Row(2),
        b"",
    ),
    (LOW, &["int=4"], USUAL, Came::Returned(4), b""),
    (LOW, &["int=5"], USUAL, Came::Row(1), b""),
    (
        LOW,
        &["int=-9223372036854775808"],
        USUAL,
        Came::Returned(-9_223_372_036_854_775_808),
        b"",
    ),
    (ORDERED, &["int=1", "int=9"], USUAL, Came::Returned(8), b""),
    (ORDERED, &["int=1", "int=1"], USUAL, Came::Row(1), b""),
    (ORDERED, &["int=20", "int=20"], USUAL, Came::Row(1), b""),
    (ORDERED, &["int=-1", "int=10"], USUAL, Came::Row(2), b""),
    (ORDERED, &["int=-1", "int=9"], USUAL, Came::Row(3), b""),
    (
        SUMMED,
        &["int=2", "int=3", "int=5"],
        USUAL,
        Came::Returned(5),
        b"",
    ),
    (
        SUMMED,
        &["int=2", "int=3", "int=6"],
        USUAL,
        Came::Index(3),
        b"",
    ),
    (
        SUMMED,
        &[
            "int=9223372036854775807",
            "int=1",
            "int=-9223372036854775808",
        ],
        USUAL,
        Came::Index(3),
        b"",
    ),
    (NONE, &[], USUAL, Came::Returned(5), b""),
    (NONE, &["int=5"], USUAL, Came::Count, b""),
];

/// A fault of the arguments comes before the store and the activations are looked at.
const FIRST: &[Row] = &[
    (LOW, &[], (0, 0, 0), Came::Count, b""),
    (LOW, &["bool=true"], (0, 0, 0), Came::Kind(1), b""),
    (LOW, &["int=5"], (0, 0, 0), Came::Row(1), b""),
    (LOW, &["int=4"], (0, 0, 0), Came::NoStore, b""),
    (LOW, &["int=4"], (0, 1, 0), Came::Returned(4), b""),
    (
        THREE,
        &["arr=1", "arr=1,2", "bool=true"],
        (0, 1, 0),
        Came::Index(2),
        b"",
    ),
    (
        THREE,
        &["arr=1", "arr=2", "bool=true"],
        (5, 1, 0),
        Came::NoStore,
        b"",
    ),
    (
        THREE,
        &["arr=1", "arr=2", "bool=true"],
        (6, 1, 0),
        Came::Returned(1),
        b"1\n",
    ),
    (
        THREE,
        &["arr=1", "arr=2", "bool=true"],
        (6, 0, 0),
        Came::NoStore,
        b"",
    ),
];

#[test]
fn the_first_fault_of_the_arguments_is_answered(rt: HostRuntime) {
    assert!(rt; agreeing(rt.alloc(), FAULTS) == FAULTS.len());
}

#[test]
fn faults_of_arguments_come_first(rt: HostRuntime) {
    assert!(rt; agreeing(rt.alloc(), FIRST) == FIRST.len());
}
