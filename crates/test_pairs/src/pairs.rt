// That the two top calls fit together: the text that one leaves is the text that the other takes.
use dtal_driver::dtal_top;
use std::alloc::Global;
use std::test::Fail;
use xan_io::{MemFiles, MemSink, Memory};
use xanadu_driver::xanadu_top;

/// A source, the words for its text, and the status and the lines that they give.
type Row = (&'static [u8], &'static [&'static str], u8, &'static [u8]);

/// What came of a text that was built: the status of the first program, and the status and the lines of the second.
#[derive(Drop)]
struct Pair {
    built: u8,
    status: u8,
    said: Vec<u8>,
}

/// The source is built, and these words go to the second program over the same files.
fn build_and(alloc: Global, source: &[u8], words: &[&str]) -> Result<Pair, Memory> {
    let mut files = MemFiles::new(alloc, Vec::new(alloc));
    files.set("one.xan", source)?;
    let mut out = MemSink::new(alloc, 1000, Vec::new(alloc))?;
    let built = xanadu_top(
        alloc,
        &["build", "one.xan", "one.dtal"],
        &mut files,
        &mut out,
    );
    let mut out = MemSink::new(alloc, 1000, Vec::new(alloc))?;
    let status = dtal_top(alloc, words, &mut files, &mut out);
    let said = Vec::from_slice(alloc, out.bytes())?;
    Ok(Pair {
        built,
        status,
        said,
    })
}

const SUM: &[u8] = b"fun main(x: int, y: int): int { return x + y - 3; }";

const TURNED: &[u8] = b"fun main(a: int, b: int, c: int): int { return 10 - c + a - b; }";

/// Each of these has a text that is accepted.
const ACCEPTED: &[&[u8]] = &[SUM, TURNED, ADD, SUB, NO_PARAMETER, EIGHT];

const ADD: &[u8] = b"fun main(x: int, y: int): int { return x + y; }";

const SUB: &[u8] = b"fun main(x: int, y: int): int { return x - y; }";

const NO_PARAMETER: &[u8] = b"fun main(): int { return 0 - 7; }";

/// The greatest number of parameters.
const EIGHT: &[u8] =
    b"fun main(a: int, b: int, c: int, d: int, e: int, f: int, g: int, h: int): int { return a - b + c - d + e - f + g - h; }";

/// What comes of their texts.
const RUNS: &[Row] = &[
    (SUM, &["run", "one.dtal", "int=2", "int=3"], 0, b"2\n"),
    (SUM, &["run", "one.dtal", "int=-2", "int=0"], 0, b"-5\n"),
    (
        SUM,
        &["run", "one.dtal", "int=9223372036854775807", "int=1"],
        14,
        b"overflow\n",
    ),
    (SUM, &["run", "one.dtal", "int=2"], 12, b"entry: count\n"),
    (
        SUM,
        &["run", "one.dtal", "int=2", "bool=true"],
        12,
        b"entry: kind of argument 2\n",
    ),
    (
        SUM,
        &["run", "one.dtal", "--depth", "0", "int=2", "arr="],
        12,
        b"entry: kind of argument 2\n",
    ),
    (
        SUM,
        &["run", "one.dtal", "--depth", "0", "int=2", "int=3"],
        13,
        b"no store\n",
    ),
    (
        TURNED,
        &["run", "one.dtal", "int=1", "int=20", "int=300"],
        0,
        b"-309\n",
    ),
    (NO_PARAMETER, &["run", "one.dtal"], 0, b"-7\n"),
    (
        NO_PARAMETER,
        &["run", "one.dtal", "int=1"],
        12,
        b"entry: count\n",
    ),
    (
        EIGHT,
        &[
            "run",
            "one.dtal",
            "int=1",
            "int=20",
            "int=300",
            "int=4000",
            "int=50000",
            "int=600000",
            "int=7000000",
            "int=80000000",
        ],
        0,
        b"-73553719\n",
    ),
    (
        ADD,
        &["run", "one.dtal", "int=-9223372036854775808", "int=-1"],
        14,
        b"overflow\n",
    ),
    (
        ADD,
        &[
            "run",
            "one.dtal",
            "int=9223372036854775807",
            "int=-9223372036854775808",
        ],
        0,
        b"-1\n",
    ),
    (
        SUB,
        &["run", "one.dtal", "int=-9223372036854775808", "int=1"],
        14,
        b"overflow\n",
    ),
    (
        SUB,
        &["run", "one.dtal", "int=9223372036854775807", "int=-1"],
        14,
        b"overflow\n",
    ),
    (
        SUB,
        &["run", "one.dtal", "int=-1", "int=9223372036854775807"],
        0,
        b"-9223372036854775808\n",
    ),
];

#[test]
fn built_texts_are_accepted(rt: HostRuntime) -> Result<(), Fail> {
    for source in ACCEPTED {
        let pair = build_and(rt.alloc(), source, &["verify", "one.dtal"])?;
        assert_eq!(rt; pair.built, 0);
        assert_eq!(rt; pair.status, 0);
        assert!(rt; pair.said.as_slice().starts_with(b"accepted: 1 functions, "));
    }
    Ok(())
}

#[test]
fn built_texts_are_run(rt: HostRuntime) -> Result<(), Fail> {
    for (source, words, status, said) in RUNS {
        let pair = build_and(rt.alloc(), source, words)?;
        assert_eq!(rt; pair.built, 0);
        assert_eq!(rt; pair.status, *status);
        assert!(rt; pair.said.as_slice() == *said);
    }
    Ok(())
}
