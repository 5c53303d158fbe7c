// Blocks of the store: the cells of arrays, tuples, and where there is no room.
use crate::running::{Row, agreeing};
use std::test::Fail;

/// The length of an array.
const LENGTH: &[u8] =
    b"dtal 1\nfun main {1|} (arr(0,+1v0+0)) {1|} int(+1v1+0)\nlen r1 r0\nret r1\nend\n";

/// The cell at an index.
const CELL: &[u8] =
    b"dtal 1\nfun main {2|+1v1+0;+1v0-1v1-1} (arr(0,+1v0+0) int(+1v1+0)) {1|} int(+1v2+0)\nld r2 r0 r1\nret r2\nend\n";

/// Sets a cell of the first array to 9, prints it, and gives that of the second.
const STORED: &[u8] =
    b"dtal 1\nfun main {3|+1v2+0;+1v0-1v2-1;+1v1-1v2-1} (arr(0,+1v0+0) arr(0,+1v1+0) int(+1v2+0)) {1|} int(+1v3+0)\nli r3 9\nst r0 r2 r3\nld r4 r0 r2\nprint r4\nld r5 r1 r2\nret r5\nend\n";

/// Arrays among the arguments.
const ARRAYS: &[Row] = &[
    (LENGTH, &["run", "text", "arr="], 0, b"0\n"),
    (LENGTH, &["run", "text", "arr=5,6,7"], 0, b"3\n"),
    (
        CELL,
        &[
            "run",
            "text",
            "arr=4,-9223372036854775808,9223372036854775807",
            "int=0",
        ],
        0,
        b"4\n",
    ),
    (
        CELL,
        &[
            "run",
            "text",
            "arr=4,-9223372036854775808,9223372036854775807",
            "int=1",
        ],
        0,
        b"-9223372036854775808\n",
    ),
    (
        CELL,
        &[
            "run",
            "text",
            "arr=4,-9223372036854775808,9223372036854775807",
            "int=2",
        ],
        0,
        b"9223372036854775807\n",
    ),
    (
        CELL,
        &["run", "text", "arr=4,5,6", "int=3"],
        12,
        b"entry: row 2\n",
    ),
    (
        CELL,
        &["run", "text", "arr=4,5,6", "int=-1"],
        12,
        b"entry: row 1\n",
    ),
    (
        CELL,
        &["run", "text", "arr=", "int=0"],
        12,
        b"entry: row 2\n",
    ),
    (
        CELL,
        &["run", "text", "arr=4", "int=-9223372036854775808"],
        12,
        b"entry: row 1\n",
    ),
    (
        STORED,
        &["run", "text", "arr=1,2", "arr=3,4", "int=1"],
        0,
        b"9\n4\n",
    ),
    (
        STORED,
        &["run", "text", "arr=1", "arr=3,4", "int=0"],
        0,
        b"9\n3\n",
    ),
];

/// The length of a new array of so many cells.
const NEW: &[u8] =
    b"dtal 1\nfun main {2|+1v0+0} (int(+1v0+0) int(+1v1+0)) {1|} int(+1v2+0)\nnew r2 0 r0 r1\nlen r3 r2\nret r3\nend\n";

/// Prints the first cell of a new array of at least 1, and gives the last.
const FILLED: &[u8] =
    b"dtal 1\nfun main {2|+1v0+0;+1v0-1} (int(+1v0+0) int(+1v1+0)) {1|} int(+1v2+0)\nnew r2 0 r0 r1\nli r3 0\nld r4 r2 r3\nprint r4\nli r3 1\nsub r3 r0 r3\nld r4 r2 r3\nret r4\nend\n";

/// Two new arrays of one cell each: a store to the first leaves the second alone.
const TWO_NEW: &[u8] =
    b"dtal 1\nfun main {0|} () {1|} int(+1v0+0)\nli r0 1\nli r1 5\nnew r2 0 r0 r1\nnew r3 0 r0 r1\nli r4 0\nli r1 6\nst r2 r4 r1\nld r5 r2 r4\nprint r5\nld r5 r3 r4\nret r5\nend\n";

/// New arrays: none, as many cells as there is room for, one more, and lengths near the greatest number.
const ROOMS: &[Row] = &[
    (
        NEW,
        &["run", "text", "int=0", "int=3", "--heap", "2"],
        0,
        b"0\n",
    ),
    (
        NEW,
        &["run", "text", "int=0", "int=3", "--heap", "1"],
        13,
        b"no store\n",
    ),
    (
        NEW,
        &["run", "text", "int=0", "int=3", "--heap", "0"],
        13,
        b"no store\n",
    ),
    (
        NEW,
        &["run", "text", "int=3", "int=3", "--heap", "5"],
        0,
        b"3\n",
    ),
    (
        NEW,
        &["run", "text", "int=3", "int=3", "--heap", "4"],
        13,
        b"no store\n",
    ),
    (
        NEW,
        &["run", "text", "int=1048574", "int=3"],
        0,
        b"1048574\n",
    ),
    (
        NEW,
        &["run", "text", "int=1048575", "int=3"],
        13,
        b"no store\n",
    ),
    (
        NEW,
        &["run", "text", "int=9223372036854775807", "int=3"],
        13,
        b"no store\n",
    ),
    (
        NEW,
        &["run", "text", "int=9223372036854775806", "int=3"],
        13,
        b"no store\n",
    ),
    (
        NEW,
        &["run", "text", "int=9223372036854775805", "int=3"],
        13,
        b"no store\n",
    ),
    (
        NEW,
        &["run", "text", "int=9223372036853727230", "int=3"],
        13,
        b"no store\n",
    ),
    (
        NEW,
        &["run", "text", "int=-1", "int=3"],
        12,
        b"entry: row 1\n",
    ),
    (
        FILLED,
        &["run", "text", "int=1", "int=-9223372036854775808"],
        0,
        b"-9223372036854775808\n-9223372036854775808\n",
    ),
    (
        FILLED,
        &["run", "text", "int=1000", "int=-3", "--heap", "1002"],
        0,
        b"-3\n-3\n",
    ),
    (TWO_NEW, &["run", "text", "--heap", "6"], 0, b"6\n5\n"),
    (TWO_NEW, &["run", "text", "--heap", "5"], 13, b"no store\n"),
    (
        LENGTH,
        &["run", "text", "arr=1,2,3", "--heap", "5"],
        0,
        b"3\n",
    ),
    (
        LENGTH,
        &["run", "text", "arr=1,2,3", "--heap", "4"],
        13,
        b"no store\n",
    ),
    (LENGTH, &["run", "text", "arr=", "--heap=2"], 0, b"0\n"),
    (
        LENGTH,
        &["run", "text", "arr=", "--heap=1"],
        13,
        b"no store\n",
    ),
    (
        STORED,
        &["run", "text", "arr=1", "arr=3,4", "int=0", "--heap", "7"],
        0,
        b"9\n3\n",
    ),
    (
        STORED,
        &["run", "text", "arr=1", "arr=3,4", "int=0", "--heap", "6"],
        13,
        b"no store\n",
    ),
];

/// Makes a tuple of two numbers, and puts its parts the other way round.
const PARTS: &[u8] =
    b"dtal 1\ntype {2|} tuple int(+1v0+0) int(+1v1+0)\nfun main {2|} (int(+1v0+0) int(+1v1+0)) {1|} int(+1v2+0)\ntup r2 2 (r0 r1)\nuntup 2 r2 (r1 r0)\nprint r0\nret r1\nend\n";

/// The parts of a tuple, of which the first goes to the tuple's own place.
const OVER_ITSELF: &[u8] =
    b"dtal 1\ntype {2|} tuple int(+1v0+0) int(+1v1+0)\nfun main {2|} (int(+1v0+0) int(+1v1+0)) {1|} int(+1v2+0)\ntup r2 2 (r0 r1)\nuntup 2 r2 (r2 r3)\nprint r2\nret r3\nend\n";

/// The last of eight parts, which all come from one place and go to slots.
const EIGHT: &[u8] =
    b"dtal 1\ntype {8|} tuple int(+1v0+0) int(+1v1+0) int(+1v2+0) int(+1v3+0) int(+1v4+0) int(+1v5+0) int(+1v6+0) int(+1v7+0)\nfun main {1|} (int(+1v0+0)) {1|} int(+1v1+0)\ntup s0 2 (r0 r0 r0 r0 r0 r0 r0 r0)\nuntup 2 s0 (s0 s1 s2 s3 s4 s5 s6 s239)\nret s239\nend\n";

/// An array in a tuple: its length is a part of the type.
const PAIRED: &[u8] =
    b"dtal 1\ntype {1|} tuple int(+1v0+0) arr(0,+1v0+0)\nfun main {1|} (arr(0,+1v0+0)) {1|} int(+1v1+0)\nlen r1 r0\ntup r2 2 (r1 r0)\nuntup 2 r2 (r3 r4)\nlen r5 r4\nprint r5\nret r3\nend\n";

/// Tuples.
const TUPLES: &[Row] = &[
    (PARTS, &["run", "text", "int=1", "int=2"], 0, b"2\n1\n"),
    (
        PARTS,
        &["run", "text", "int=1", "int=2", "--heap", "4"],
        0,
        b"2\n1\n",
    ),
    (
        PARTS,
        &["run", "text", "int=1", "int=2", "--heap", "3"],
        13,
        b"no store\n",
    ),
    (
        OVER_ITSELF,
        &["run", "text", "int=5", "int=6"],
        0,
        b"5\n6\n",
    ),
    (EIGHT, &["run", "text", "int=7", "--heap", "10"], 0, b"7\n"),
    (
        EIGHT,
        &["run", "text", "int=7", "--heap", "9"],
        13,
        b"no store\n",
    ),
    (PAIRED, &["run", "text", "arr=4,5"], 0, b"2\n2\n"),
    (PAIRED, &["run", "text", "arr=", "--heap=6"], 0, b"0\n0\n"),
    (
        PAIRED,
        &["run", "text", "arr=", "--heap=5"],
        13,
        b"no store\n",
    ),
];

#[test]
fn arrays_are_read_and_written(rt: HostRuntime) -> Result<(), Fail> {
    assert_eq!(rt; agreeing(rt.alloc(), ARRAYS)?, ARRAYS.len());
    Ok(())
}

#[test]
fn arrays_fit_or_there_is_no_store(rt: HostRuntime) -> Result<(), Fail> {
    assert_eq!(rt; agreeing(rt.alloc(), ROOMS)?, ROOMS.len());
    Ok(())
}

#[test]
fn tuples_are_made_and_taken_apart(rt: HostRuntime) -> Result<(), Fail> {
    assert_eq!(rt; agreeing(rt.alloc(), TUPLES)?, TUPLES.len());
    Ok(())
}
