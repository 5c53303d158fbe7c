//! Sources with loops, calls, arrays and tuples: built, verified, and run on arguments, in memory.

use dtal_driver::dtal_top;
use std::alloc::Global;
use std::test::Fail;
use xan_io::{MemFiles, MemSink, Memory};
use xanadu_driver::xanadu_top;

/// What the second program answers to words about the text that the first one built, and puts.
fn answers(
    alloc: Global,
    files: &mut MemFiles,
    words: &[&str],
    status: u8,
    said: &[u8],
) -> Result<bool, Memory> {
    let mut out = MemSink::new(alloc, 1000, Vec::new(alloc))?;
    let found = dtal_top(alloc, words, files, &mut out);
    Ok(found == status && out.bytes() == said)
}

/// Whether the text of a source is accepted.
fn is_accepted(alloc: Global, files: &mut MemFiles) -> Result<bool, Memory> {
    let mut out = MemSink::new(alloc, 1000, Vec::new(alloc))?;
    let found = dtal_top(alloc, &["verify", "out"], files, &mut out);
    Ok(found == 0 && out.bytes().starts_with(b"accepted: "))
}

/// Whether a source is built as `out`, its text is accepted, and a run of that by these words ends so, after these lines.
pub fn comes_to(
    alloc: Global,
    source: &[u8],
    words: &[&str],
    status: u8,
    said: &[u8],
) -> Result<bool, Memory> {
    let mut files = MemFiles::new(alloc, Vec::new(alloc));
    files.set("in", source)?;
    let mut out = MemSink::new(alloc, 1000, Vec::new(alloc))?;
    let built = xanadu_top(alloc, &["build", "in", "out"], &mut files, &mut out);
    let right = is_accepted(alloc, &mut files)? && answers(alloc, &mut files, words, status, said)?;
    Ok(built == 0 && right)
}

const ARRAY_SUM: &[u8] =
    b"fun main{n: nat}(a: int[n]): int { var i = 0; var s = 0; while (i < len(a)) with {k: int | 0 <= k, k <= n} (i: int(k)) { s = s + a[i]; i = i + 1; } return s; }";

const SEARCH: &[u8] =
    b"fun main{n: nat}(x: int, a: int[n]): int { var l = 0; var h = len(a); while (l < h) with {p: int, q: int | 0 <= p, p <= q, q <= n} (l: int(p), h: int(q)) { var m = (l + h) / 2; var y = a[m]; if (y == x) { return m; } if (y < x) { l = m + 1; } else { h = m; } join {p: int, q: int | 0 <= p, p <= q, q <= n} (l: int(p), h: int(q)) } return -1; }";

/// A loop that is left where either of two parts of its test ends it, and by a return.
const TWO_EXITS: &[u8] =
    b"fun main(a: int[]): int { var i = 0; var s = 0; while (i < len(a) && s < 10) with {k: nat} (i: int(k)) { if (a[i] < 0) { return s; } s = s + a[i]; i = i + 1; } return 100 + i; }";

const COUNTED_DOWN: &[u8] =
    b"fun f(x: int): int { if (x < 1) { return 0; } return 1 + f(x - 1); } fun main(x: int): int { return f(x); }";

/// A function that calls itself, of which only the first activation's return ends the run.
const MAIN_AGAIN: &[u8] =
    b"fun main(x: int): int { if (x < 1) { return 0; } return 1 + main(x - 1); }";

const PRINTING: &[u8] =
    b"fun f(x: int): int { print x; return x; } fun main(): int { return f(1) + f(2); }";

const PAIR: &[u8] =
    b"type Pair = {p: int, q: int | p <= q} (int(p), int(q)); fun main(x: int): int { let (u, v) = Pair(x, x + 1); return v - u; }";

const EITHER: &[u8] = b"fun main(b: bool, c: bool): int { if (b || !c) { return 1; } return 0; }";

const FILLED: &[u8] =
    b"fun main(): int { var a = new int[5](7); a[4] = 1; return len(a) + a[3] + a[4]; }";

const SHARED: &[u8] =
    b"fun set(a: int[3]): unit { a[1] = 9; return; } fun main(): int { var a = new int[3](0); var b = a; set(a); return b[1]; }";

const QUOTIENT: &[u8] = b"fun main(x: int): int { print x / 2; return x % 2; }";

const ENDLESS: &[u8] = b"fun main(): int { while (true) { print 1; } return 0; }";

const SMALL_ONLY: &[u8] = b"fun main{x: int | x <= 4}(a: int(x)): int { return a; }";

const SAME_LENGTH: &[u8] = b"fun main{n: nat}(a: int[n], b: int[n]): int { return len(b); }";

/// Sources, the words of a run of their text, and how it ends: its status and its lines.
const RUNS: &[(&[u8], &[&str], u8, &[u8])] = &[
    (ARRAY_SUM, &["run", "out", "arr=4,5,-2"], 0, b"7\n"),
    (ARRAY_SUM, &["run", "out", "arr="], 0, b"0\n"),
    (
        ARRAY_SUM,
        &["run", "out", "arr=9223372036854775807,1"],
        14,
        b"overflow\n",
    ),
    (
        ARRAY_SUM,
        &["run", "out", "--heap", "4", "arr=1,2,3"],
        13,
        b"no store\n",
    ),
    (
        ARRAY_SUM,
        &["run", "out", "--heap", "5", "arr=1,2,3"],
        0,
        b"6\n",
    ),
    (SEARCH, &["run", "out", "int=7", "arr=1,4,7,9"], 0, b"2\n"),
    (SEARCH, &["run", "out", "int=5", "arr=1,4,7,9"], 0, b"-1\n"),
    (SEARCH, &["run", "out", "int=9", "arr=1,4,7,9"], 0, b"3\n"),
    (SEARCH, &["run", "out", "int=1", "arr="], 0, b"-1\n"),
    (TWO_EXITS, &["run", "out", "arr=3,4"], 0, b"102\n"),
    (TWO_EXITS, &["run", "out", "arr=3,4,5,6"], 0, b"103\n"),
    (TWO_EXITS, &["run", "out", "arr=3,-1,5"], 0, b"3\n"),
    (
        COUNTED_DOWN,
        &["run", "out", "--depth", "4", "int=2"],
        0,
        b"2\n",
    ),
    (
        COUNTED_DOWN,
        &["run", "out", "--depth", "3", "int=2"],
        13,
        b"no store\n",
    ),
    (MAIN_AGAIN, &["run", "out", "int=2"], 0, b"2\n"),
    (PRINTING, &["run", "out"], 0, b"1\n2\n3\n"),
    (PAIR, &["run", "out", "--heap", "4", "int=8"], 0, b"1\n"),
    (
        PAIR,
        &["run", "out", "--heap", "3", "int=8"],
        13,
        b"no store\n",
    ),
    (EITHER, &["run", "out", "bool=true", "bool=true"], 0, b"1\n"),
    (
        EITHER,
        &["run", "out", "bool=false", "bool=true"],
        0,
        b"0\n",
    ),
    (
        EITHER,
        &["run", "out", "bool=false", "bool=false"],
        0,
        b"1\n",
    ),
    (FILLED, &["run", "out", "--heap", "7"], 0, b"13\n"),
    (FILLED, &["run", "out", "--heap", "6"], 13, b"no store\n"),
    (SHARED, &["run", "out"], 0, b"9\n"),
    (QUOTIENT, &["run", "out", "int=-7"], 0, b"-4\n1\n"),
    (QUOTIENT, &["run", "out", "int=7"], 0, b"3\n1\n"),
    (
        ENDLESS,
        &["run", "out", "--steps", "20"],
        15,
        b"1\n1\nsteps ended: 20\n",
    ),
    (SMALL_ONLY, &["run", "out", "int=4"], 0, b"4\n"),
    (SMALL_ONLY, &["run", "out", "int=5"], 12, b"entry: row 1\n"),
    (
        SMALL_ONLY,
        &["run", "out", "bool=true"],
        12,
        b"entry: kind of argument 1\n",
    ),
    (SMALL_ONLY, &["run", "out"], 12, b"entry: count\n"),
    (
        SAME_LENGTH,
        &["run", "out", "arr=1", "arr=1,2"],
        12,
        b"entry: index of argument 2\n",
    ),
];

#[test]
fn built_programs_do_what_their_sources_do(rt: HostRuntime) -> Result<(), Fail> {
    let alloc = rt.alloc();
    for (source, words, status, said) in RUNS {
        assert!(rt; comes_to(alloc, source, words, *status, said)?);
    }
    Ok(())
}
