//! Arrays and tuples, the words that they take, and what is put before an end.

use crate::tests::{Came, Row, USUAL, agreeing, comes, proved};
use std::alloc::Global;

const NEW: &[u8] = b"fun main(): int { var a = new int[5](0); return len(a); }";

const TWO: &[u8] =
    b"fun main{k: nat}(n: int(k)): int { var a = new int[n](7); print len(a); var b = new bool[1](true); if (b[0]) { return len(b); } return 0; }";

const SHARED: &[u8] =
    b"fun main(): int { var a = new int[2](1); var b = a; b[1] = 5; a[0] = a[1] + b[0]; print a[0]; return b[0] + b[1]; }";

const WRITTEN: &[u8] = b"fun f(x: int): int { print x; return x; }
fun set{n: nat | n >= 1}(a: int[n], x: int): unit { a[0] = f(x); return; }
fun main{n: nat | n >= 1}(a: int[n]): int { set(a, 8); return a[0]; }";

const SUM: &[u8] = b"fun main{n: nat}(a: int[n]): int {
  var i = 0;
  var s = 0;
  while (i < len(a)) with {k: int | 0 <= k, k <= n} (i: int(k)) {
    s = s + a[i];
    i = i + 1;
  }
  return s;
}";

const SEARCH: &[u8] = b"fun main{n: nat}(x: int, a: int[n]): int {
  var l = 0;
  var h = len(a);
  while (l < h) with {p: int, q: int | 0 <= p, p <= q, q <= n} (l: int(p), h: int(q)) {
    var m = (l + h) / 2;
    var y = a[m];
    if (y == x) { return m; }
    if (y < x) { l = m + 1; } else { h = m; }
    join {p: int, q: int | 0 <= p, p <= q, q <= n} (l: int(p), h: int(q))
  }
  return -1;
}";

const PAIR: &[u8] = b"type Pair = {p: int, q: int | p <= q} (int(p), int(q));
fun main(x: int): int { let (u, v) = Pair(x, x + 1); return v - u; }";

const NESTED: &[u8] = b"type Row = {n: nat | n >= 2} int[n];
fun main(): int {
  var rows = new Row[2](new int[2](3));
  rows[1] = new int[3](4);
  rows[0][1] = 6;
  print rows[0][0];
  print rows[0][1];
  return rows[1][1];
}";

/// A block takes two words more than it has cells.
const BLOCKS: &[Row] = &[
    (NEW, &[], (7, 1, 0), Came::Returned(5), b""),
    (NEW, &[], (6, 1, 0), Came::NoStore, b""),
    (NEW, &[], (0, 1, 0), Came::NoStore, b""),
    (TWO, &["int=3"], (8, 1, 0), Came::Returned(1), b"3\n"),
    (TWO, &["int=3"], (7, 1, 0), Came::NoStore, b"3\n"),
    (TWO, &["int=3"], (4, 1, 0), Came::NoStore, b""),
    (TWO, &["int=0"], (5, 1, 0), Came::Returned(1), b"0\n"),
    (TWO, &["int=9223372036854775807"], USUAL, Came::NoStore, b""),
    (SHARED, &[], USUAL, Came::Returned(11), b"6\n"),
    (WRITTEN, &["arr=1,2"], USUAL, Came::Returned(8), b"8\n"),
    (PAIR, &["int=8"], (4, 1, 0), Came::Returned(1), b""),
    (PAIR, &["int=8"], (3, 1, 0), Came::NoStore, b""),
    (NESTED, &[], (13, 1, 0), Came::Returned(4), b"3\n6\n"),
    (NESTED, &[], (12, 1, 0), Came::NoStore, b""),
];

/// Arrays among the arguments are in the store before the run begins.
const PLACED: &[Row] = &[
    (SUM, &["arr=4,5,-2"], USUAL, Came::Returned(7), b""),
    (SUM, &["arr="], USUAL, Came::Returned(0), b""),
    (SUM, &["arr=1,2,3"], (5, 1, 3), Came::Returned(6), b""),
    (SUM, &["arr=1,2,3"], (5, 1, 2), Came::FuelEnded, b""),
    (SUM, &["arr=1,2,3"], (4, 1, 0), Came::NoStore, b""),
    (
        SUM,
        &["arr=9223372036854775807,1"],
        USUAL,
        Came::Overflow,
        b"",
    ),
    (SUM, &["arr="], (1, 1, 0), Came::NoStore, b""),
    (SUM, &["arr="], (2, 1, 0), Came::Returned(0), b""),
    (
        SEARCH,
        &["int=7", "arr=1,4,7,9"],
        USUAL,
        Came::Returned(2),
        b"",
    ),
    (
        SEARCH,
        &["int=5", "arr=1,4,7,9"],
        USUAL,
        Came::Returned(-1),
        b"",
    ),
    (
        SEARCH,
        &["int=9", "arr=1,4,7,9"],
        USUAL,
        Came::Returned(3),
        b"",
    ),
];

/// Puts numbers of every size, and then has no room.
const SAYS: &[u8] =
    b"fun main(x: int): int { print 0; print -x; print x; var a = new int[9](0); print a[3]; return len(a); }";

const SAID: &[Row] = &[
    (
        SAYS,
        &["int=9223372036854775807"],
        USUAL,
        Came::Returned(9),
        b"0\n-9223372036854775807\n9223372036854775807\n0\n",
    ),
    (
        SAYS,
        &["int=9223372036854775807"],
        (10, 1, 0),
        Came::NoStore,
        b"0\n-9223372036854775807\n9223372036854775807\n",
    ),
    (
        SAYS,
        &["int=-9223372036854775808"],
        USUAL,
        Came::Overflow,
        b"0\n",
    ),
];

/// What it comes to over a sink that has too little room.
const CUT: Row = (
    SAYS,
    &["int=12"],
    USUAL,
    Came::WriteFault,
    b"0\n-12\n12\n0\n",
);

/// Whether the run ends with a failed put where there is so much room, and this is put: of a line that does not fit its first half, as far as that fits.
fn is_cut(alloc: Global, room: u64, put: &[u8]) -> Option<bool> {
    let program = proved(alloc, CUT.0)?;
    comes(alloc, &program, room, &CUT, put)
}

/// Rooms that do not suffice, and what is put.
const ROOMS: &[(u64, &[u8])] = &[
    (0, b""),
    (1, b"0"),
    (2, b"0\n"),
    (3, b"0\n-"),
    (4, b"0\n-1"),
    (5, b"0\n-1"),
    (6, b"0\n-12\n"),
    (7, b"0\n-12\n1"),
    (8, b"0\n-12\n1"),
    (9, b"0\n-12\n12\n"),
    (10, b"0\n-12\n12\n0"),
];

#[test]
fn blocks_take_their_words(rt: HostRuntime) {
    assert!(rt; agreeing(rt.alloc(), BLOCKS) == BLOCKS.len());
}

#[test]
fn arguments_are_placed_first(rt: HostRuntime) {
    assert!(rt; agreeing(rt.alloc(), PLACED) == PLACED.len());
}

#[test]
fn numbers_are_put_up_to_the_end(rt: HostRuntime) {
    assert!(rt; agreeing(rt.alloc(), SAID) == SAID.len());
}

#[test]
fn a_failed_put_ends_the_run(rt: HostRuntime) {
    for (room, put) in ROOMS {
        assert!(rt; is_cut(rt.alloc(), *room, put) == Some(true));
    }
}
