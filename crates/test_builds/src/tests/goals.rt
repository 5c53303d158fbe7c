//! What `xanadu goals` lists of sources, and what `xanadu build` answers where a goal is not proved or a limit is passed.

use crate::tests::{BUILD, is, is_left, keeping, one, plain, run};
use std::alloc::Global;
use std::test::Fail;
use xan_io::Memory;

const GOALS: &[&str] = &["goals", "in"];

const ARRAY_SUM: &[u8] =
    b"fun main{n: nat}(a: int[n]): int {\n  var i = 0;\n  var s = 0;\n  while (i < len(a)) with {k: int | 0 <= k, k <= n} (i: int(k)) {\n    s = s + a[i];\n    i = i + 1;\n  }\n  return s;\n}\n";

const ARRAY_SUM_LINE: &[u8] = b"goal 1: at 63: +1v1+1 >= 0: proved\n";

const SEARCH: &[u8] =
    b"fun main{n: nat}(x: int, a: int[n]): int {\n  var l = 0;\n  var h = len(a);\n  while (l < h) with {p: int, q: int | 0 <= p, p <= q, q <= n} (l: int(p), h: int(q)) {\n    var m = (l + h) / 2;\n    var y = a[m];\n    if (y == x) { return m; }\n    if (y < x) { l = m + 1; } else { h = m; }\n    join {p: int, q: int | 0 <= p, p <= q, q <= n} (l: int(p), h: int(q))\n  }\n  return -1;\n}\n";

/// Sources whose first goal that is not proved has this line, which `build` says.
const UNPROVED: &[(&[u8], &[u8])] = &[
    // A guard that is true one turn too often.
    (
        b"fun main{n: nat}(a: int[n]): int {\n  var i = 0;\n  var s = 0;\n  while (i <= len(a)) with {k: int | 0 <= k, k <= n} (i: int(k)) {\n    s = s + a[i];\n    i = i + 1;\n  }\n  return s;\n}\n",
        b"goal 1: at 141: +1v0-1v1-1 >= 0: not proved\n",
    ),
    // A loop that says nothing of what changes in it.
    (
        b"fun main{n: nat}(a: int[n]): int {\n  var i = 0;\n  var s = 0;\n  while (i < len(a)) {\n    s = s + a[i];\n    i = i + 1;\n  }\n  return s;\n}\n",
        b"goal 1: at 97: +1v1+0 >= 0: not proved\n",
    ),
    (
        b"fun main(x: int): int { return 7 / x; }",
        b"goal 1: at 33: +1v0-1 >= 0: not proved\n",
    ),
    // The second goal is the first that is not proved.
    (
        b"fun main(x: int): int { if (0 < x) { print 7 / (x + x); } return 7 / x; }",
        b"goal 2: at 67: +1v0-1 >= 0: not proved\n",
    ),
    // The lower bound of an index.
    (
        b"fun main{n: nat, k: int | k < n}(a: int[n], x: int(k)): int { return a[x]; }",
        b"goal 1: at 70: +1v1+0 >= 0: not proved\n",
    ),
    // Its upper bound.
    (
        b"fun main{n: nat, k: nat}(a: int[n], x: int(k)): int { return a[x]; }",
        b"goal 1: at 62: +1v0-1v1-1 >= 0: not proved\n",
    ),
    // That of a cell that is written.
    (
        b"fun main{n: nat, k: nat}(a: int[n], x: int(k)): int { a[x] = 1; return 0; }",
        b"goal 1: at 55: +1v0-1v1-1 >= 0: not proved\n",
    ),
    // The divisor of a remainder.
    (
        b"fun main(x: int): int { return 7 % x; }",
        b"goal 1: at 33: +1v0-1 >= 0: not proved\n",
    ),
    // A parameter of a call.
    (
        b"fun f{k: int | 0 < k}(x: int(k)): int { return x; }\nfun main(x: int): int { return f(x); }",
        b"goal 1: at 83: +1v0-1 >= 0: not proved\n",
    ),
    // A part of a tuple.
    (
        b"type P = {p: int | 0 <= p} (int(p), int);\nfun main(x: int): int { let (p, q) = P(x, 1); return q; }",
        b"goal 1: at 79: +1v0+0 >= 0: not proved\n",
    ),
    // The length of a new array.
    (
        b"fun main(x: int): int { var a = new int[x](0); return len(a); }",
        b"goal 1: at 32: +1v0+0 >= 0: not proved\n",
    ),
    // A result.
    (
        b"fun f(x: int): {k: nat} int(k) { return x; }\nfun main(x: int): int { return f(x); }",
        b"goal 1: at 33: +1v0+0 >= 0: not proved\n",
    ),
    // The way from a branch into a join.
    (
        b"fun main(x: int): int { var y = 0; if (x < 0) { y = x; } else { y = 1; } join {k: nat} (y: int(k)) return y; }",
        b"goal 1: at 35: +1v0+0 >= 0: not proved\n",
    ),
    // The way into a loop.
    (
        b"fun main(x: int): int { var i = x; while (i < 9) with {k: nat} (i: int(k)) { i = i + 1; } return i; }",
        b"goal 1: at 35: +1v0+0 >= 0: not proved\n",
    ),
    // The way back to its head.
    (
        b"fun main(): int { var i = 0; while (i < 9) with {k: nat} (i: int(k)) { i = i - 1; } return i; }",
        b"goal 1: at 29: +1v0-1 >= 0: not proved\n",
    ),
];

#[test]
fn goals_are_listed(rt: HostRuntime) -> Result<(), Fail> {
    let alloc = rt.alloc();
    assert!(rt;
        is(
            &plain(alloc, GOALS, Some(ARRAY_SUM))?,
            0,
            ARRAY_SUM_LINE,
            None
        )
    );
    let search = plain(alloc, GOALS, Some(SEARCH))?;
    assert_eq!(rt; search.status, 0);
    assert_eq!(rt; lines_of(search.said.as_slice()), 6);
    // A source without goals has no lines.
    assert!(rt;
        is(
            &plain(alloc, GOALS, Some(b"fun main(): int { return 0; }"))?,
            0,
            b"",
            None
        )
    );
    // All lines are there, also behind one that is not proved.
    let two = plain(
        alloc,
        GOALS,
        Some(b"fun main(x: int): int { print 7 / x; return 7 / 2 + 7 / (x - x + 1) + 7 / x; }"),
    )?;
    assert_eq!(rt; two.status, 10);
    assert!(rt;
        two.said
            .as_slice()
            .starts_with(b"goal 1: at 32: +1v0-1 >= 0: not proved\ngoal 2: ")
    );
    Ok(())
}

/// How many lines a text has.
fn lines_of(text: &[u8]) -> u64 {
    let mut count = 0u64;
    for byte in text {
        if *byte == b'\n' {
            count = count.saturating_add(1);
        }
    }
    count
}

#[test]
fn sources_with_a_goal_that_is_not_proved(rt: HostRuntime) -> Result<(), Fail> {
    let alloc = rt.alloc();
    for (source, line) in UNPROVED {
        assert!(rt; is_left(&keeping(alloc, source)?, 10, line));
        assert_eq!(rt; plain(alloc, GOALS, Some(source))?.status, 10);
    }
    // Where all are proved, the source is built.
    assert_eq!(rt; keeping(alloc, SEARCH)?.status, 0);
    Ok(())
}

#[test]
fn each_call_of_goals_fails_once(rt: HostRuntime) -> Result<(), Fail> {
    let alloc = rt.alloc();
    let read = run(
        alloc,
        GOALS,
        Some(SEARCH),
        one(alloc, 0)?,
        2000,
        Vec::new(alloc),
    )?;
    assert!(rt; is(&read, 3, b"read: failed\n", None));
    assert!(rt; is(&plain(alloc, GOALS, None)?, 3, b"read: failed\n", None));
    let whole = plain(alloc, GOALS, Some(SEARCH))?;
    for put in 0..6u64 {
        let cut = run(
            alloc,
            GOALS,
            Some(SEARCH),
            Vec::new(alloc),
            2000,
            one(alloc, put)?,
        )?;
        assert_eq!(rt; cut.status, 4);
        assert!(rt; whole.said.as_slice().starts_with(cut.said.as_slice()));
        assert!(rt; cut.said.len() < whole.said.len());
        assert_eq!(rt; lines_of(cut.said.as_slice()), put);
    }
    Ok(())
}

#[test]
fn lines_of_goals_are_cut(rt: HostRuntime) -> Result<(), Fail> {
    let alloc = rt.alloc();
    for room in 0..35u64 {
        let cut = run(
            alloc,
            GOALS,
            Some(ARRAY_SUM),
            Vec::new(alloc),
            room,
            Vec::new(alloc),
        )?;
        assert_eq!(rt; cut.status, 4);
        assert!(rt; ARRAY_SUM_LINE.starts_with(cut.said.as_slice()));
    }
    let whole = run(
        alloc,
        GOALS,
        Some(ARRAY_SUM),
        Vec::new(alloc),
        35,
        Vec::new(alloc),
    )?;
    assert!(rt; is(&whole, 0, ARRAY_SUM_LINE, None));
    Ok(())
}

/// Where a source begins, what stands in front of each number, behind it and in front of the next, how many numbers there are, where the
/// source ends, and the limit that it passes by one.
const LIMITS: &[(&[u8], &[u8], &[u8], usize, &[u8], &[u8])] = &[
    (
        b"fun main(): int { return 0; } ",
        b"fun f",
        b"(): unit { return; } ",
        1024,
        b"",
        b"limit: functions 1024\n",
    ),
    (
        b"fun main(): int { return 0; } ",
        b"type T",
        b" = int; ",
        1025,
        b"",
        b"limit: types 1024\n",
    ),
    (
        b"fun main(): int { return 0; } fun f(",
        b"x",
        b": int, ",
        8,
        b"y: int): unit { return; }",
        b"limit: parameters 8\n",
    ),
    (
        b"fun main(x: int): int { var y = 0; ",
        b"y = x * x + ",
        b"; ",
        1024,
        b"return y; }",
        b"limit: variables 1024\n",
    ),
    (
        b"fun main(): int { return 0; } fun f{y: int | ",
        b"y <= ",
        b", ",
        512,
        b"y <= 0}(z: int(y)): unit { return; }",
        b"limit: rows 512\n",
    ),
    (
        b"fun main(): int { var y = 0; ",
        b"var x",
        b" = 0; ",
        239,
        b"return 0; }",
        b"limit: places 240\n",
    ),
];

/// Such a source.
fn numbered(
    alloc: Global,
    first: &[u8],
    before: &[u8],
    behind: &[u8],
    count: usize,
    last: &[u8],
) -> Result<Vec<u8>, Memory> {
    let mut source = Vec::from_slice(alloc, first)?;
    for number in 0..count {
        source.extend_from_slice(before)?;
        push_number(&mut source, number)?;
        source.extend_from_slice(behind)?;
    }
    source.extend_from_slice(last)?;
    Ok(source)
}

/// Adds four digits behind a 1.
fn push_number(source: &mut Vec<u8>, number: usize) -> Result<(), Memory> {
    source.push(b'1')?;
    for part in [1000usize, 100, 10, 1] {
        source.push(b'0' + (number / part % 10) as u8)?;
    }
    Ok(())
}

#[test]
fn each_limit_of_elaboration(rt: HostRuntime) -> Result<(), Fail> {
    let alloc = rt.alloc();
    for (first, before, behind, count, last, line) in LIMITS {
        let source = numbered(alloc, first, before, behind, *count, last)?;
        assert!(rt; is_left(&keeping(alloc, source.as_slice())?, 5, line));
        assert!(rt;
            is(
                &plain(alloc, GOALS, Some(source.as_slice()))?,
                5,
                line,
                None
            )
        );
        let within = numbered(alloc, first, before, behind, count.saturating_sub(1), last)?;
        assert_eq!(rt; keeping(alloc, within.as_slice())?.status, 0);
    }
    Ok(())
}

/// A loop with so many variables, whose clause has a row of all of them.
fn wide_clause(alloc: Global, count: usize) -> Result<Vec<u8>, Memory> {
    let front: &[u8] = b"fun main(): int { var y = 0; ";
    let all = numbered(
        alloc,
        front,
        b"var x",
        b" = 0; ",
        count,
        b"while (true) with {k: int",
    )?;
    let all = numbered(alloc, all.as_slice(), b", k", b": int", count, b" | k")?;
    let mut all = numbered(alloc, all.as_slice(), b" + k", b"", count, b" <= 0} (")?;
    for number in 0..count {
        all.extend_from_slice(b"x")?;
        push_number(&mut all, number)?;
        all.extend_from_slice(b": int(k")?;
        push_number(&mut all, number)?;
        all.extend_from_slice(b"), ")?;
    }
    all.extend_from_slice(b"y: int(k)) {} return 0; }")?;
    Ok(all)
}

/// Products, so many of them, of which each is tested to be at most the next before the first is a divisor.
fn chain(alloc: Global, count: usize) -> Result<Vec<u8>, Memory> {
    let front = numbered(
        alloc,
        b"fun main(x: int): int { ",
        b"var v",
        b" = x * x; ",
        count,
        b"if (x <= 0",
    )?;
    let mut source = Vec::from_slice(alloc, front.as_slice())?;
    for number in 1..count {
        source.extend_from_slice(b" && v")?;
        push_number(&mut source, number.saturating_sub(1))?;
        source.extend_from_slice(b" <= v")?;
        push_number(&mut source, number)?;
    }
    source.extend_from_slice(b") { return 7 / v10000; } return 0; }")?;
    Ok(source)
}

/// Adds a number of at most six digits.
fn push_decimal(source: &mut Vec<u8>, number: usize) -> Result<(), Memory> {
    let mut begun = false;
    for part in [100_000usize, 10_000, 1_000, 100, 10, 1] {
        begun = begun || number >= part;
        if begun {
            source.push(b'0' + (number / part % 10) as u8)?;
        }
    }
    Ok(())
}

/// Three numbers, between which so many pairs of tests stand whose sums all differ, before the first is a divisor.
fn fan(alloc: Global, count: usize) -> Result<Vec<u8>, Memory> {
    let mut source = Vec::from_slice(alloc, b"fun main(x: int, y: int, z: int): int { if (0 <= 0")?;
    for before in 0..count {
        let slope = before.saturating_add(1);
        let square = slope.saturating_mul(slope);
        source.extend_from_slice(b" && x + ")?;
        push_decimal(&mut source, square)?;
        source.extend_from_slice(b" * z >= ")?;
        push_decimal(&mut source, slope)?;
        source.extend_from_slice(b" * y && ")?;
        push_decimal(&mut source, slope)?;
        source.extend_from_slice(b" * y >= x + ")?;
        push_decimal(&mut source, square.saturating_mul(slope))?;
        source.extend_from_slice(b" * z")?;
    }
    source.extend_from_slice(b") { return 7 / x; } return 0; }")?;
    Ok(source)
}

#[test]
fn limits_of_forms_and_of_goals(rt: HostRuntime) -> Result<(), Fail> {
    let alloc = rt.alloc();
    let large: &[u8] = b"fun main{n: int | n <= 9223372036854775807}(x: int(n)): int { return x; }";
    let magnitude: &[u8] = b"limit: magnitude 4611686018427387903\n";
    assert!(rt; is_left(&keeping(alloc, large)?, 5, magnitude));
    let bound: &[u8] = b"fun main{n: int | n <= 4611686018427387903}(x: int(n)): int { return x; }";
    assert!(rt; keeping(alloc, bound)?.status != 5);
    let terms = wide_clause(alloc, 16)?;
    assert!(rt; is_left(&keeping(alloc, terms.as_slice())?, 5, b"limit: terms 16\n"));
    assert_eq!(rt;
        keeping(alloc, wide_clause(alloc, 15)?.as_slice())?.status,
        0
    );
    // The limit of a goal stands behind it in the list, and is the line of a build.
    let many = chain(alloc, 65)?;
    assert!(rt; is_left(&keeping(alloc, many.as_slice())?, 5, b"limit: cone 64\n"));
    let listed = plain(alloc, GOALS, Some(many.as_slice()))?;
    assert!(rt; listed.status == 5 && listed.said.as_slice().ends_with(b": limit cone 64\n"));
    let fewer = chain(alloc, 64)?;
    assert_eq!(rt; keeping(alloc, fewer.as_slice())?.status, 10);
    // One round of 46 pairs comes to 2,042 rows, and one of 45 pairs to 1,952.
    let wide = fan(alloc, 46)?;
    assert!(rt;
        is_left(
            &keeping(alloc, wide.as_slice())?,
            5,
            b"limit: system 2000\n"
        )
    );
    let listed = plain(alloc, GOALS, Some(wide.as_slice()))?;
    assert!(rt; listed.status == 5 && listed.said.as_slice().ends_with(b": limit system 2000\n"));
    let narrow = fan(alloc, 45)?;
    assert_eq!(rt; keeping(alloc, narrow.as_slice())?.status, 10);
    Ok(())
}
