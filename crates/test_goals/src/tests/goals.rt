//! Goals that were worked out by hand.

use crate::tests::{elaborated, proved};
use goal_table::{GoalError, answer};
use linear_solver::{Answer, LineBuf};
use std::alloc::Global;
use typed_core::GoalAt;
use xan_lin::Form;
use xan_pool::RowPool;

/// The sum of an array's cells.
const SUM: &[u8] = b"fun main{n: nat}(a: int[n]): int {
  var i = 0;
  var s = 0;
  while (i < len(a)) with {k: int | 0 <= k, k <= n} (i: int(k)) {
    s = s + a[i];
    i = i + 1;
  }
  return s;
}
";

/// The same, where the index may be the length.
const TOO_FAR: &[u8] = b"fun main{n: nat}(a: int[n]): int {
  var i = 0;
  var s = 0;
  while (i <= len(a)) with {k: int | 0 <= k, k <= n} (i: int(k)) {
    s = s + a[i];
    i = i + 1;
  }
  return s;
}
";

/// The same, where nothing is stated of the index.
const UNSTATED: &[u8] = b"fun main{n: nat}(a: int[n]): int {
  var i = 0;
  var s = 0;
  while (i < len(a)) {
    s = s + a[i];
    i = i + 1;
  }
  return s;
}
";

/// The sum, and then a quotient by a number that may be 0.
const MEAN: &[u8] = b"fun main{n: nat}(a: int[n]): int {
  var i = 0;
  var s = 0;
  while (i < len(a)) with {k: int | 0 <= k, k <= n} (i: int(k)) {
    s = s + a[i];
    i = i + 1;
  }
  return s / i;
}
";

/// A binary search.
const SEARCH: &[u8] = b"fun main{n: nat}(x: int, a: int[n]): int {
  var l = 0;
  var h = len(a);
  while (l < h) with {p: int, q: int | 0 <= p, p <= q, q <= n} (l: int(p), h: int(q)) {
    var m = (l + h) / 2;
    var y = a[m];
    if (y == x) { return m; }
    if (y < x) { l = m + 1; } else { h = m; }
    join {p: int, q: int | 0 <= p, p <= q, q <= n} (l: int(p), h: int(q))
  }
  return -1;
}
";

/// Sources with the place, the row and the answer of each of their goals: whether it is proved.
const GOALS: &[(&[u8], &[(u32, &[u8], bool)])] = &[
    (SUM, &[(63, b"+1v1+1", true)]),
    (
        TOO_FAR,
        &[
            (141, b"+1v0-1v1-1", false),
            (63, b"+1v1+1", true),
            (63, b"+1v0-1v1-1", false),
        ],
    ),
    (
        SEARCH,
        &[
            (200, b"+1v4+0", true),
            (200, b"+1v0-1v4-1", true),
            (239, b"+1v4+1", true),
            (239, b"+1v3-1v4-1", true),
            (239, b"-1v2+1v4+0", true),
            (239, b"+1v0-1v4+0", true),
        ],
    ),
    (
        b"fun main(x: int): int { return 7 / x; }",
        &[(33, b"+1v0-1", false)],
    ),
    (b"fun main(x: int): int { return x / 2; }", &[]),
    (
        b"fun main(a: int[]): int { if (len(a) < 3) { while (false) with {n: nat} (a: int[n]) { } } return len(a); }",
        &[],
    ),
];

/// Sources with how many goals stand before the first that is not proved, its place and its row.
const FIRST: &[(&[u8], u32, u32, &[u8])] = &[
    (TOO_FAR, 0, 141, b"+1v0-1v1-1"),
    (UNSTATED, 0, 97, b"+1v1+0"),
    (MEAN, 1, 175, b"+1v1-1"),
    (b"fun main(x: int): int { return 7 / x; }", 0, 33, b"+1v0-1"),
    (
        b"fun main{n: nat | n > 0}(a: int[n], i: int): int { return a[0] + a[i]; }",
        0,
        66,
        b"+1v1+0",
    ),
];

/// Whether this is how the row is written.
fn is_row(alloc: Global, row: &Form, wanted: &[u8]) -> Option<bool> {
    let mut text = Vec::new(alloc);
    row.write_form(&mut text).ok()?;
    Some(text.as_slice() == wanted)
}

/// Whether the goal has this place and row, and is proved or not.
fn is_goal(alloc: Global, goal: &GoalAt, wanted: &(u32, &[u8], bool)) -> Option<bool> {
    let mut pool = RowPool::new(alloc, 4001, 65).ok()?;
    let mut buf = LineBuf::new(alloc).ok()?;
    let found = answer(goal, &mut pool, &mut buf);
    let row = is_row(alloc, &goal.row, wanted.1)?;
    Some(row && goal.at == wanted.0 && (found == Answer::Proved) == wanted.2)
}

/// Whether the goals are these.
fn are_goals(alloc: Global, goals: &[GoalAt], wanted: &[(u32, &[u8], bool)]) -> Option<bool> {
    if goals.len() != wanted.len() {
        return Some(false);
    }
    for (goal, one) in goals.iter().zip(wanted) {
        if !is_goal(alloc, goal, one)? {
            return Some(false);
        }
    }
    Some(true)
}

/// Whether the source has these goals.
fn has_goals(alloc: Global, source: &[u8], wanted: &[(u32, &[u8], bool)]) -> Option<bool> {
    let base = elaborated(alloc, source)?.ok()?;
    are_goals(alloc, base.goals(), wanted)
}

/// Whether this goal is told of.
fn tells(alloc: Global, why: &GoalError, number: u32, at: u32, row: &[u8]) -> Option<bool> {
    match why {
        GoalError::Goal {
            number: found,
            at: place,
            row: form,
            ..
        } => Some(*found == number && *place == at && is_row(alloc, form, row)?),
        GoalError::Memory => Some(false),
    }
}

/// Whether the first goal of the source that is not proved is this one.
fn fails_at(alloc: Global, source: &[u8], number: u32, at: u32, row: &[u8]) -> Option<bool> {
    match proved(alloc, source)? {
        Ok(_program) => Some(false),
        Err(why) => tells(alloc, &why, number, at, row),
    }
}

#[test]
fn goals_are_as_by_hand(rt: HostRuntime) {
    for (source, wanted) in GOALS {
        assert!(rt; has_goals(rt.alloc(), source, wanted) == Some(true));
    }
}

#[test]
fn the_first_unproved_goal_is_told(rt: HostRuntime) {
    for (source, number, at, row) in FIRST {
        assert!(rt; fails_at(rt.alloc(), source, *number, *at, row) == Some(true));
    }
}

#[test]
fn a_source_whose_goals_are_proved_has_lines(rt: HostRuntime) {
    for source in [SUM, SEARCH] {
        let lines = proved(rt.alloc(), source)
            .and_then(|answer| answer.ok())
            .map(|program| program.lines().len());
        assert!(rt; lines.is_some_and(|count| count > 0));
    }
}
