//! The command `eval`, over files and sinks in memory.

use std::alloc::Global;
use std::test::Fail;
use xan_io::{MemFiles, MemSink, Memory};
use xanadu_driver::xanadu_top;

/// A source, words, and the status and the lines that they give.
type Row = (&'static [u8], &'static [&'static str], u8, &'static [u8]);

/// How a run came out: its status, and what it said.
#[derive(Drop)]
struct Outcome {
    status: u8,
    said: Vec<u8>,
}

/// A run over files in memory, of which the calls of these numbers fail, and a sink with room, of which these puts fail.
fn run(
    alloc: Global,
    words: &[&str],
    source: &[u8],
    fails: Vec<u64>,
    room: u64,
    put_fails: Vec<u64>,
) -> Result<Outcome, Memory> {
    let mut files = MemFiles::new(alloc, fails);
    files.set("in", source)?;
    let mut out = MemSink::new(alloc, room, put_fails)?;
    let status = xanadu_top(alloc, words, &mut files, &mut out);
    let said = Vec::from_slice(alloc, out.bytes())?;
    Ok(Outcome { status, said })
}

fn one(alloc: Global, number: u64) -> Result<Vec<u64>, Memory> {
    let mut numbers = Vec::new(alloc);
    numbers.push(number)?;
    Ok(numbers)
}

/// Whether a run where nothing fails comes out so.
fn holds(alloc: Global, row: &Row) -> Result<bool, Memory> {
    let run = run(alloc, row.1, row.0, Vec::new(alloc), 1000, Vec::new(alloc))?;
    Ok(run.status == row.2 && run.said.as_slice() == row.3)
}

/// How many rows come out so.
fn agreeing(alloc: Global, rows: &[Row]) -> Result<usize, Memory> {
    let mut count = 0usize;
    for row in rows {
        if holds(alloc, row)? {
            count = count.saturating_add(1);
        }
    }
    Ok(count)
}

const SUM: &[u8] = b"fun main(x: int, y: int): int { return x + y - 3; }";

const NO_COMMAND: &[u8] = b"words: not a command\n";

/// Words that are no command.
const NO_COMMANDS: &[Row] = &[
    (SUM, &["eval"], 2, NO_COMMAND),
    (SUM, &["Eval", "in", "int=2", "int=3"], 2, NO_COMMAND),
    (
        SUM,
        &["--heap", "1", "eval", "in", "int=2", "int=3"],
        2,
        NO_COMMAND,
    ),
    (SUM, &["eval", "--heap", "5"], 2, NO_COMMAND),
    (
        SUM,
        &["eval", "in", "int=2", "int=3", "--heap"],
        2,
        NO_COMMAND,
    ),
    (SUM, &["eval", "in", "int=2", "3"], 2, NO_COMMAND),
    (SUM, &["eval", "in", "int=2", "int=+3"], 2, NO_COMMAND),
    (SUM, &["eval", "in", "int=2", "int=03"], 2, NO_COMMAND),
    (SUM, &["eval", "in", "int=2", "int=-0"], 2, NO_COMMAND),
    (
        SUM,
        &["eval", "in", "int=2", "int=9223372036854775808"],
        2,
        NO_COMMAND,
    ),
    (SUM, &["eval", "in", "bool=yes"], 2, NO_COMMAND),
    (SUM, &["eval", "in", "arr=1,"], 2, NO_COMMAND),
    (SUM, &["eval", "-in", "int=2", "int=3"], 2, NO_COMMAND),
    (SUM, &["eval", "in", "-1", "int=2", "int=3"], 2, NO_COMMAND),
    (SUM, &["eval", "--help"], 2, NO_COMMAND),
    (
        SUM,
        &["eval", "--steps", "5", "in", "int=2", "int=3"],
        2,
        NO_COMMAND,
    ),
    (
        SUM,
        &["eval", "--heap", "1", "in", "--heap", "1", "int=2", "int=3"],
        2,
        NO_COMMAND,
    ),
    (
        SUM,
        &["eval", "--fuel=1", "--fuel=2", "in", "int=2", "int=3"],
        2,
        NO_COMMAND,
    ),
    (
        SUM,
        &["eval", "--heap=67108865", "in", "int=2", "int=3"],
        2,
        NO_COMMAND,
    ),
    (
        SUM,
        &["eval", "--depth=65537", "in", "int=2", "int=3"],
        2,
        NO_COMMAND,
    ),
    (
        SUM,
        &["eval", "--fuel=9223372036854775808", "in", "int=2", "int=3"],
        2,
        NO_COMMAND,
    ),
    (
        SUM,
        &["eval", "--heap=", "in", "int=2", "int=3"],
        2,
        NO_COMMAND,
    ),
    (
        SUM,
        &["eval", "--heap=01", "in", "int=2", "int=3"],
        2,
        NO_COMMAND,
    ),
    (
        SUM,
        &["eval", "--heapx=1", "in", "int=2", "int=3"],
        2,
        NO_COMMAND,
    ),
    (
        SUM,
        &["eval", "--heap", "-1", "in", "int=2", "int=3"],
        2,
        NO_COMMAND,
    ),
    (SUM, &["eval", "in", "--", "--heap", "1"], 2, NO_COMMAND),
    (SUM, &["goals", "--", "in"], 2, NO_COMMAND),
    (SUM, &["goals", "--heap=1", "in"], 2, NO_COMMAND),
    (SUM, &["build", "--fuel=1", "in", "out"], 2, NO_COMMAND),
];

/// Options anywhere behind the command, in either form, at both ends of what they may say; and values behind `--`.
const COMMANDS: &[Row] = &[
    (SUM, &["eval", "in", "int=2", "int=3"], 0, b"2\n"),
    (
        SUM,
        &[
            "eval", "--heap", "0", "in", "int=2", "--fuel=0", "int=3", "--depth", "1",
        ],
        0,
        b"2\n",
    ),
    (
        SUM,
        &["eval", "in", "int=2", "int=3", "--depth=0"],
        13,
        b"no store\n",
    ),
    (
        SUM,
        &[
            "eval",
            "--heap=67108864",
            "--depth=65536",
            "--fuel=9223372036854775807",
            "in",
            "int=2",
            "int=3",
        ],
        0,
        b"2\n",
    ),
    (SUM, &["eval", "--", "in", "int=2", "int=3"], 0, b"2\n"),
    (SUM, &["eval", "in", "int=2", "--", "int=3"], 0, b"2\n"),
    (
        SUM,
        &["eval", "--", "--heap", "int=2"],
        3,
        b"read: failed\n",
    ),
    (SUM, &["eval", "-", "int=2"], 3, b"read: failed\n"),
    (SUM, &["eval", "absent", "int=2"], 3, b"read: failed\n"),
];

const DOWN: &[u8] =
    b"fun f(x: int): int { if (x < 1) { return 0; } return 1 + f(x - 1); } fun main(x: int): int { return f(x); }";

const ENDLESS: &[u8] = b"fun main(): int { while (true) { print 1; } return 0; }";

const THREE: &[u8] =
    b"fun main{n: nat | n <= 2}(a: int[n], b: int[n]): int { print len(a); return len(b); }";

const ROOM: &[u8] = b"fun main(): int { print 5; var a = new int[5](0); return len(a); }";

/// Each status of a run.
const RUNS: &[Row] = &[
    (
        SUM,
        &["eval", "in", "int=9223372036854775807", "int=1"],
        14,
        b"overflow\n",
    ),
    (
        SUM,
        &["eval", "in", "int=-9223372036854775808", "int=2"],
        14,
        b"overflow\n",
    ),
    (
        SUM,
        &[
            "eval",
            "in",
            "int=-9223372036854775808",
            "int=9223372036854775807",
        ],
        0,
        b"-4\n",
    ),
    (DOWN, &["eval", "in", "--depth", "4", "int=2"], 0, b"2\n"),
    (
        DOWN,
        &["eval", "in", "--depth", "3", "int=2"],
        13,
        b"no store\n",
    ),
    (
        DOWN,
        &["eval", "in", "--fuel", "2", "int=2"],
        15,
        b"fuel ended: 2\n",
    ),
    (
        ENDLESS,
        &["eval", "--fuel", "3", "in"],
        15,
        b"1\n1\n1\nfuel ended: 3\n",
    ),
    (
        ENDLESS,
        &["eval", "--fuel", "0", "in"],
        15,
        b"fuel ended: 0\n",
    ),
    (THREE, &["eval", "in", "arr=1", "arr=2"], 0, b"1\n1\n"),
    (THREE, &["eval", "in", "arr=1"], 12, b"entry: count\n"),
    (
        THREE,
        &["eval", "in", "arr=1", "int=1"],
        12,
        b"entry: kind of argument 2\n",
    ),
    (
        THREE,
        &["eval", "in", "arr=1", "arr=1,2"],
        12,
        b"entry: index of argument 2\n",
    ),
    (
        THREE,
        &["eval", "in", "arr=1,2,3", "arr=1,2,3", "--depth=0"],
        12,
        b"entry: row 2\n",
    ),
    (ROOM, &["eval", "in", "--heap=7"], 0, b"5\n5\n"),
    (ROOM, &["eval", "in", "--heap=6"], 13, b"5\nno store\n"),
];

/// A source that is refused has no run.
const REFUSED: &[Row] = &[
    (
        b"fun main(): int { return 1 & 2; }",
        &["eval", "in"],
        7,
        b"bytes: at 27\n",
    ),
    (
        b"fun main() int { return 0; }",
        &["eval", "in"],
        8,
        b"parse: at 11\n",
    ),
    (
        b"fun main(): int { return y; }",
        &["eval", "in", "int=1"],
        9,
        b"shape 2: at 25\n",
    ),
    (
        b"fun main(x: int): int { return 7 / x; }",
        &["eval", "in", "int=7"],
        10,
        b"goal 1: at 33: +1v0-1 >= 0: not proved\n",
    ),
    (
        b"fun main(a: int[1025]): int { return a[0]; }",
        &["eval", "in", "arr="],
        12,
        b"entry: index of argument 1\n",
    ),
];

const SAYS: &[u8] = b"fun main(x: int): int { print x; print -x; return x + 1; }";

/// What that source says of 41.
const SAID: &[u8] = b"41\n-41\n42\n";

const SAYS_41: &[&str] = &["eval", "in", "int=41"];

/// What is left of it where there is so much room: of the line that does not fit its first half, as far as that fits.
const ROOMS: &[(u64, &[u8])] = &[
    (0, b""),
    (1, b"4"),
    (2, b"4"),
    (3, b"41\n"),
    (4, b"41\n-"),
    (5, b"41\n-4"),
    (6, b"41\n-4"),
    (7, b"41\n-41\n"),
    (8, b"41\n-41\n4"),
    (9, b"41\n-41\n4"),
];

/// What is left of it where the put of this number fails.
const PUTS: &[(u64, &[u8])] = &[(0, b"4"), (1, b"41\n-4"), (2, b"41\n-41\n4")];

#[test]
fn words_mean_a_run_or_none(rt: HostRuntime) -> Result<(), Fail> {
    assert!(rt; agreeing(rt.alloc(), NO_COMMANDS)? == NO_COMMANDS.len());
    assert!(rt; agreeing(rt.alloc(), COMMANDS)? == COMMANDS.len());
    Ok(())
}

#[test]
fn runs_end_with_their_status(rt: HostRuntime) -> Result<(), Fail> {
    assert!(rt; agreeing(rt.alloc(), RUNS)? == RUNS.len());
    Ok(())
}

#[test]
fn refused_sources_have_no_run(rt: HostRuntime) -> Result<(), Fail> {
    assert!(rt; agreeing(rt.alloc(), REFUSED)? == REFUSED.len());
    Ok(())
}

#[test]
fn the_read_fails(rt: HostRuntime) -> Result<(), Fail> {
    let alloc = rt.alloc();
    let read = run(alloc, SAYS_41, SAYS, one(alloc, 0)?, 1000, Vec::new(alloc))?;
    assert!(rt; read.status == 3 && read.said.as_slice() == b"read: failed\n".as_slice());
    let other = run(alloc, SAYS_41, SAYS, one(alloc, 1)?, 1000, Vec::new(alloc))?;
    assert!(rt; other.status == 0 && other.said.as_slice() == SAID);
    Ok(())
}

#[test]
fn lines_are_cut(rt: HostRuntime) -> Result<(), Fail> {
    let alloc = rt.alloc();
    for (room, said) in ROOMS {
        let cut = run(
            alloc,
            SAYS_41,
            SAYS,
            Vec::new(alloc),
            *room,
            Vec::new(alloc),
        )?;
        assert!(rt; cut.status == 4 && cut.said.as_slice() == *said);
    }
    for (number, said) in PUTS {
        let cut = run(
            alloc,
            SAYS_41,
            SAYS,
            Vec::new(alloc),
            1000,
            one(alloc, *number)?,
        )?;
        assert!(rt; cut.status == 4 && cut.said.as_slice() == *said);
    }
    let whole = run(alloc, SAYS_41, SAYS, Vec::new(alloc), 10, Vec::new(alloc))?;
    assert!(rt; whole.status == 0 && whole.said.as_slice() == SAID);
    Ok(())
}
