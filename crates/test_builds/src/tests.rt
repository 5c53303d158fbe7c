//! Runs of the whole compiler as rows of tables.

mod examples;
mod goals;
mod long;
mod programs;
mod refusals;
mod shapes;

use std::alloc::Global;
use std::test::Fail;
use xan_io::{MemFiles, MemSink, Memory, SafeFiles};
use xanadu_driver::xanadu_top;

/// The sum of the first row, its text, and its line.
const SUM: &[u8] = b"fun main(x: int, y: int): int { return x + y - 3; }";

const SUM_TEXT: &[u8] =
    b"dtal 1\nfun main {2|} (int(+1v0+0) int(+1v1+0)) {1|} int(+1v2+0)\nmv s0 r0\nmv s1 r1\nmv r13 s0\nmv r14 s1\nadd r13 r13 r14\nmv s2 r13\nli r13 3\nmv s3 r13\nmv r13 s2\nmv r14 s3\nsub r13 r13 r14\nmv s2 r13\nret s2\nend\n";

const SUM_LINE: &[u8] = b"built: 1 functions, 0 goals, 13 instructions\n";

const BUILD: &[&str] = &["build", "in", "out"];

/// How a run came out: its status, what it said, and what the target held, if it was there.
#[derive(Drop)]
struct Outcome {
    status: u8,
    said: Vec<u8>,
    text: Option<Vec<u8>>,
}

/// A run over files in memory, of which the calls of these numbers fail, and a sink with room, of which these puts fail.
fn run(
    alloc: Global,
    words: &[&str],
    source: Option<&[u8]>,
    fails: Vec<u64>,
    room: u64,
    put_fails: Vec<u64>,
) -> Result<Outcome, Memory> {
    let mut files = MemFiles::new(alloc, fails);
    if let Some(bytes) = source {
        files.set("in", bytes)?;
    }
    let mut out = MemSink::new(alloc, room, put_fails)?;
    let status = xanadu_top(alloc, words, &mut files, &mut out);
    let said = Vec::from_slice(alloc, out.bytes())?;
    let text = match files.content("out") {
        Some(bytes) => Some(Vec::from_slice(alloc, bytes)?),
        None => None,
    };
    Ok(Outcome { status, said, text })
}

/// What the target holds before a run.
const HELD: &[u8] = b"held";

/// A run where nothing fails, over a target that is there.
fn keeping(alloc: Global, source: &[u8]) -> Result<Outcome, Memory> {
    let mut files = MemFiles::new(alloc, Vec::new(alloc));
    files.set("in", source)?;
    files.set("out", HELD)?;
    let mut out = MemSink::new(alloc, 1000, Vec::new(alloc))?;
    let status = xanadu_top(alloc, BUILD, &mut files, &mut out);
    let said = Vec::from_slice(alloc, out.bytes())?;
    let text = match files.content("out") {
        Some(bytes) => Some(Vec::from_slice(alloc, bytes)?),
        None => None,
    };
    Ok(Outcome { status, said, text })
}

/// Whether such a run came out so, and left the target as it was.
fn is_left(run: &Outcome, status: u8, said: &[u8]) -> bool {
    is(run, status, said, Some(HELD))
}

/// A run where nothing fails.
fn plain(alloc: Global, words: &[&str], source: Option<&[u8]>) -> Result<Outcome, Memory> {
    run(alloc, words, source, Vec::new(alloc), 1000, Vec::new(alloc))
}

fn one(alloc: Global, number: u64) -> Result<Vec<u64>, Memory> {
    let mut numbers = Vec::new(alloc);
    numbers.push(number)?;
    Ok(numbers)
}

/// Whether the run came out so.
fn is(run: &Outcome, status: u8, said: &[u8], text: Option<&[u8]>) -> bool {
    let same = match (&run.text, text) {
        (Some(found), Some(wanted)) => found.as_slice() == wanted,
        (None, None) => true,
        _ => false,
    };
    run.status == status && run.said.as_slice() == said && same
}

/// Whether the source of a run has a core: it is built, or refused for nothing in front of its elaboration.
fn has_core(run: &Outcome) -> bool {
    let line = run.said.as_slice();
    match run.status {
        0 | 10 => true,
        5 => !line.starts_with(b"limit: length") && !line.starts_with(b"limit: nesting"),
        _ => false,
    }
}

#[test]
fn the_sum_is_built(rt: HostRuntime) -> Result<(), Fail> {
    let alloc = rt.alloc();
    let all = plain(alloc, BUILD, Some(SUM))?;
    assert_eq!(rt; SUM_TEXT.len(), 204);
    assert!(rt; is(&all, 0, SUM_LINE, Some(SUM_TEXT)));

    let mut files = SafeFiles::new(alloc);
    files.set("in", SUM)?;
    let mut out = MemSink::new(alloc, 1000, Vec::new(alloc))?;
    assert_eq!(rt; xanadu_top(alloc, BUILD, &mut files, &mut out), 0);
    assert!(rt; out.bytes() == SUM_LINE);
    assert!(rt; files.content("out") == Some(SUM_TEXT));
    Ok(())
}

#[test]
fn each_call_fails_once(rt: HostRuntime) -> Result<(), Fail> {
    let alloc = rt.alloc();
    let read = run(
        alloc,
        BUILD,
        Some(SUM),
        one(alloc, 0)?,
        1000,
        Vec::new(alloc),
    )?;
    assert!(rt; is(&read, 3, b"read: failed\n", None));
    let write = run(
        alloc,
        BUILD,
        Some(SUM),
        one(alloc, 1)?,
        1000,
        Vec::new(alloc),
    )?;
    let (half, _) = SUM_TEXT.split_at(102);
    assert!(rt; is(&write, 4, b"write: failed\n", Some(half)));
    let absent = plain(alloc, BUILD, None)?;
    assert!(rt; is(&absent, 3, b"read: failed\n", None));
    Ok(())
}

/// Whether a run whose line is cut ends with 4, after a part of its line, with the text whole.
fn is_cut(run: &Outcome) -> bool {
    let part = SUM_LINE.starts_with(run.said.as_slice()) && run.said.len() < SUM_LINE.len();
    let whole = match &run.text {
        Some(text) => text.as_slice() == SUM_TEXT,
        None => false,
    };
    run.status == 4 && part && whole
}

#[test]
fn the_line_is_cut(rt: HostRuntime) -> Result<(), Fail> {
    let alloc = rt.alloc();
    let failing = run(
        alloc,
        BUILD,
        Some(SUM),
        Vec::new(alloc),
        1000,
        one(alloc, 0)?,
    )?;
    assert!(rt; is_cut(&failing));
    for room in 0..45u64 {
        let cut = run(
            alloc,
            BUILD,
            Some(SUM),
            Vec::new(alloc),
            room,
            Vec::new(alloc),
        )?;
        assert!(rt; is_cut(&cut), "room {room}");
    }
    let whole = run(
        alloc,
        BUILD,
        Some(SUM),
        Vec::new(alloc),
        45,
        Vec::new(alloc),
    )?;
    assert!(rt; is(&whole, 0, SUM_LINE, Some(SUM_TEXT)));
    let no_room = run(alloc, &["frob"], None, Vec::new(alloc), 0, Vec::new(alloc))?;
    assert!(rt; is(&no_room, 4, b"", None));
    Ok(())
}

/// Words that are no command.
const NO_COMMANDS: &[&[&str]] = &[
    &[],
    &["frob"],
    &["build"],
    &["build", "in"],
    &["build", "in", "out", "more"],
    &["Build", "in", "out"],
    &["", "in", "out"],
    &["build", "-in", "out"],
    &["build", "in", "--"],
    &["--heap", "in", "out"],
    &["goals"],
    &["goals", "-in"],
    &["goals", "in", "out"],
];

#[test]
fn words_mean_a_command_or_none(rt: HostRuntime) -> Result<(), Fail> {
    let alloc = rt.alloc();
    for words in NO_COMMANDS {
        let none = plain(alloc, words, Some(SUM))?;
        assert!(rt; is(&none, 2, b"words: not a command\n", None));
    }
    // An empty word and a dash are values: names that are not there.
    let empty = plain(alloc, &["build", "", "out"], Some(SUM))?;
    assert!(rt; is(&empty, 3, b"read: failed\n", None));
    let dash = plain(alloc, &["build", "-", "out"], Some(SUM))?;
    assert!(rt; is(&dash, 3, b"read: failed\n", None));
    Ok(())
}

/// Sources that are built, and the line of each.
const BUILT: &[(&[u8], &[u8])] = &[
    (
        b"fun main(x: int): int { return x; }",
        b"built: 1 functions, 0 goals, 2 instructions\n",
    ),
    (
        b"fun main(): int { return 9223372036854775807; }",
        b"built: 1 functions, 0 goals, 3 instructions\n",
    ),
    (
        b"fun main(a: int, b: int, c: int, d: int, e: int, f: int, g: int, h: int): int { return a - 0 + h; }",
        b"built: 1 functions, 0 goals, 19 instructions\n",
    ),
    (
        b"\tfun//\nmain // (\r\n( x\n:\tint//\n)  :int{return//;\nx+1//1\n-x;//\n}",
        b"built: 1 functions, 0 goals, 12 instructions\n",
    ),
    (
        b"fun main(x: int): int { return (x * x); }",
        b"built: 1 functions, 0 goals, 6 instructions\n",
    ),
    (
        b"fun main(a: bool): int { return 1; }",
        b"built: 1 functions, 0 goals, 4 instructions\n",
    ),
    (
        b"fun main(a: int(3)): int { return a; }",
        b"built: 1 functions, 0 goals, 2 instructions\n",
    ),
    (
        b"fun main(x: int): int { print x; return x; }",
        b"built: 1 functions, 0 goals, 4 instructions\n",
    ),
    (
        b"fun main(): int { return f(); } fun f(): int { return 1; }",
        b"built: 2 functions, 0 goals, 5 instructions\n",
    ),
    (
        b"type T = int; fun main(): int { return 1; }",
        b"built: 1 functions, 0 goals, 3 instructions\n",
    ),
    (
        b"fun main{n: int}(x: int(n)): int(n) { return x; }",
        b"built: 1 functions, 0 goals, 2 instructions\n",
    ),
    (
        b"fun main{n: nat}(a: int[n]): int {\n  var i = 0;\n  var s = 0;\n  while (i < len(a)) with {k: int | 0 <= k, k <= n} (i: int(k)) {\n    s = s + a[i];\n    i = i + 1;\n  }\n  return s;\n}\n",
        b"built: 1 functions, 1 goals, 28 instructions\n",
    ),
];

#[test]
fn sources_are_built(rt: HostRuntime) -> Result<(), Fail> {
    let alloc = rt.alloc();
    for (source, line) in BUILT {
        let built = keeping(alloc, source)?;
        assert!(rt; built.status == 0 && built.said.as_slice() == *line);
    }
    Ok(())
}

/// A sum of so many items, and blanks up to a length.
fn long_sum(alloc: Global, items: u64, len: usize) -> Result<Vec<u8>, Memory> {
    let mut source = Vec::from_slice(alloc, b"fun main(x: int): int { return x")?;
    for _ in 1..items {
        source.extend_from_slice(b" + x")?;
    }
    source.extend_from_slice(b"; }")?;
    for _ in source.len()..len {
        source.push(b' ')?;
    }
    Ok(source)
}

#[test]
fn the_bounds_of_a_source(rt: HostRuntime) -> Result<(), Fail> {
    let alloc = rt.alloc();
    let thousand = long_sum(alloc, 1000, 0)?;
    let built = plain(alloc, BUILD, Some(thousand.as_slice()))?;
    let line: &[u8] = b"built: 1 functions, 0 goals, 3998 instructions\n";
    assert!(rt; built.status == 0 && built.said.as_slice() == line);
    let longest = long_sum(alloc, 1, 1048576)?;
    assert_eq!(rt; plain(alloc, BUILD, Some(longest.as_slice()))?.status, 0);
    let longer = long_sum(alloc, 1, 1048577)?;
    assert_eq!(rt; plain(alloc, BUILD, Some(longer.as_slice()))?.status, 5);
    Ok(())
}
