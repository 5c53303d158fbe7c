// Calls and their depth, how a run begins, and how many steps it may make.
use crate::running::{Row, agreeing};
use std::test::Fail;

/// Counts its parameter down by calls of itself, and up again.
const COUNT: &[u8] =
    b"dtal 1\nfun count {1|} (int(+1v0+0)) {1|} int(+1v1+0)\nli r1 1\nbr lt r0 r1 1 {}\nsub r0 r0 r1\ncall 0 r2 (r0)\nadd r2 r2 r1\nret r2\nlabel 1 {1|} []\nli r2 0\nret r2\nend\nfun main {1|} (int(+1v0+0)) {1|} int(+1v1+0)\ncall 0 r1 (r0)\nret r1\nend\n";

/// The callee writes over all that the caller uses, in its own places.
const KEPT: &[u8] =
    b"dtal 1\nfun over {1|} (int(+1v0+0)) {1|} int(+1v1+0)\nli r1 8\nmv r5 r1\nmv s0 r1\nmv r15 r1\nmv s239 r1\nret r0\nend\nfun main {0|} () {1|} int(+1v0+0)\nli r5 1\nmv s0 r5\nli r15 2\nmv s239 r15\ncall 0 s1 (s239)\nprint r5\nprint r15\nmv r0 s0\nprint r0\nmv r0 s239\nprint r0\nret s1\nend\n";

/// Arguments in their order, and lines in that of the calls.
const ORDER: &[u8] =
    b"dtal 1\nfun less {2|} (int(+1v0+0) int(+1v1+0)) {1|} int(+1v2+0)\nprint r0\nsub r2 r0 r1\nret r2\nend\nfun main {2|} (int(+1v0+0) int(+1v1+0)) {1|} int(+1v2+0)\ncall 0 r2 (r0 r1)\ncall 0 r3 (r1 r0)\nprint r2\nret r3\nend\n";

/// A call of `main`: only the return of the first activation ends the run.
const SELF: &[u8] =
    b"dtal 1\nfun main {1|} (int(+1v0+0)) {1|} int(+1v1+0)\nli r1 1\nbr lt r0 r1 1 {}\nsub r0 r0 r1\ncall 0 r2 (r0)\nadd r2 r2 r1\nret r2\nlabel 1 {1|} []\nli r2 0\nret r2\nend\n";

/// Sets the first cell of its caller's array: an array is passed on by its address.
const FILL: &[u8] =
    b"dtal 1\nfun fill {1|+1v0-1} (arr(0,+1v0+0)) {0|} int(+0)\nli r1 0\nli r2 9\nst r0 r1 r2\nret r1\nend\nfun main {1|+1v0-1} (arr(0,+1v0+0)) {1|} int(+1v1+0)\ncall 0 r1 (r0)\nld r2 r0 r1\nret r2\nend\n";

/// Calls, up to the greatest depth and one past it.
const CALLS: &[Row] = &[
    (COUNT, &["run", "text", "int=0", "--depth", "2"], 0, b"0\n"),
    (
        COUNT,
        &["run", "text", "int=0", "--depth", "1"],
        13,
        b"no store\n",
    ),
    (COUNT, &["run", "text", "int=2", "--depth", "4"], 0, b"2\n"),
    (
        COUNT,
        &["run", "text", "int=2", "--depth", "3"],
        13,
        b"no store\n",
    ),
    (COUNT, &["run", "text", "int=4094"], 0, b"4094\n"),
    (COUNT, &["run", "text", "int=4095"], 13, b"no store\n"),
    (KEPT, &["run", "text", "--depth=2"], 0, b"1\n2\n1\n2\n2\n"),
    (
        ORDER,
        &["run", "text", "int=5", "int=3"],
        0,
        b"5\n3\n2\n-2\n",
    ),
    (
        ORDER,
        &["run", "text", "int=0", "int=-9223372036854775808"],
        14,
        b"0\noverflow\n",
    ),
    (SELF, &["run", "text", "int=2"], 0, b"2\n"),
    (FILL, &["run", "text", "arr=1,2"], 0, b"9\n"),
];

/// A number of at most 4, and two arrays of one length.
const ENTRY: &[u8] =
    b"dtal 1\nfun main {2|-1v0+4} (int(+1v0+0) arr(0,+1v1+0) arr(0,+1v1+0)) {1|} int(+1v2+0)\nret r0\nend\n";

/// Two rows of one number.
const TWO_ROWS: &[u8] =
    b"dtal 1\nfun main {1|+1v0+0;-1v0+4} (int(+1v0+0)) {1|} int(+1v1+0)\nret r0\nend\n";

/// A parameter that can only be 5, and one that is the double of another.
const CONSTANT: &[u8] =
    b"dtal 1\nfun main {1|} (int(+5) int(+1v0+0) int(+2v0+0)) {1|} int(+1v1+0)\nret r2\nend\n";

/// Faults of arguments go first, by their order; then no store; then the steps.
const ENTRIES: &[Row] = &[
    (ENTRY, &["run", "text"], 12, b"entry: count\n"),
    (
        ENTRY,
        &["run", "text", "bool=true", "int=1"],
        12,
        b"entry: count\n",
    ),
    (
        ENTRY,
        &["run", "text", "bool=true", "int=1", "arr="],
        12,
        b"entry: kind of argument 1\n",
    ),
    (
        ENTRY,
        &["run", "text", "int=5", "int=1", "bool=true"],
        12,
        b"entry: kind of argument 2\n",
    ),
    (
        ENTRY,
        &["run", "text", "int=5", "arr=1", "arr=1,2"],
        12,
        b"entry: index of argument 3\n",
    ),
    (
        ENTRY,
        &["run", "text", "int=5", "arr=1", "arr=2"],
        12,
        b"entry: row 1\n",
    ),
    (
        ENTRY,
        &[
            "run",
            "text",
            "int=5",
            "arr=1",
            "arr=2",
            "--heap=0",
            "--depth=0",
            "--steps=0",
        ],
        12,
        b"entry: row 1\n",
    ),
    (
        ENTRY,
        &[
            "run",
            "text",
            "int=4",
            "arr=1",
            "arr=2",
            "--heap=0",
            "--steps=0",
        ],
        13,
        b"no store\n",
    ),
    (
        ENTRY,
        &[
            "run",
            "text",
            "int=4",
            "arr=1",
            "arr=2",
            "--heap=5",
            "--steps=0",
        ],
        13,
        b"no store\n",
    ),
    (
        ENTRY,
        &[
            "run",
            "text",
            "int=4",
            "arr=1",
            "arr=2",
            "--depth=0",
            "--steps=0",
        ],
        13,
        b"no store\n",
    ),
    (
        ENTRY,
        &[
            "run",
            "text",
            "int=4",
            "arr=1",
            "arr=2",
            "--heap=6",
            "--steps=0",
        ],
        15,
        b"steps ended: 0\n",
    ),
    (
        ENTRY,
        &[
            "run",
            "text",
            "int=4",
            "arr=1",
            "arr=2",
            "--heap=6",
            "--steps=1",
            "--depth=1",
        ],
        0,
        b"4\n",
    ),
    (TWO_ROWS, &["run", "text", "int=-1"], 12, b"entry: row 1\n"),
    (TWO_ROWS, &["run", "text", "int=5"], 12, b"entry: row 2\n"),
    (
        TWO_ROWS,
        &["run", "text", "int=-9223372036854775808"],
        12,
        b"entry: row 1\n",
    ),
    (TWO_ROWS, &["run", "text", "int=4"], 0, b"4\n"),
    (
        CONSTANT,
        &["run", "text", "int=5", "int=3", "int=6"],
        0,
        b"6\n",
    ),
    (
        CONSTANT,
        &["run", "text", "int=4", "int=3", "int=5"],
        12,
        b"entry: index of argument 1\n",
    ),
    (
        CONSTANT,
        &["run", "text", "int=5", "int=3", "int=7"],
        12,
        b"entry: index of argument 3\n",
    ),
    (
        CONSTANT,
        &[
            "run",
            "text",
            "int=5",
            "int=9223372036854775807",
            "int=9223372036854775807",
        ],
        12,
        b"entry: index of argument 3\n",
    ),
];

/// The sum of an array.
const SUM: &[u8] =
    b"dtal 1\nfun main {1|+1v0+0} (arr(0,+1v0+0)) {1|} int(+1v1+0)\nli r1 0\nli r2 0\njmp 1 {v1=+0,v2=+0}\nlabel 1 {3|+1v0+0;+1v1+0;+1v0-1v1+0} [r0:arr(0,+1v0+0) r1:int(+1v1+0) r2:int(+1v2+0)]\nlen r3 r0\nbr le r3 r1 2 {}\nld r3 r0 r1\nadd r2 r2 r3\nli r3 1\nadd r1 r1 r3\njmp 1 {v1=+1v1+1,v2=+1v2+1v3+0}\nby h +1v1+0;g;c 1 0 1 1\nlabel 2 {4|+1v0+0;+1v1+0;+1v0-1v1+0;-1v0+1v1+0} [r2:int(+1v2+0)]\nret r2\nend\n";

/// Prints 1 for ever.
const ENDLESS: &[u8] =
    b"dtal 1\nfun main {0|} () {1|} int(+1v0+0)\nli r0 1\njmp 1 {}\nlabel 1 {0|} [r0:int(+1)]\nprint r0\njmp 1 {}\nend\n";

/// Loops, and the last step that a run may make.
const STEPS: &[Row] = &[
    (SUM, &["run", "text", "arr=4,5,-2"], 0, b"7\n"),
    (SUM, &["run", "text", "arr="], 0, b"0\n"),
    (
        SUM,
        &["run", "text", "arr=1,2,3", "--heap", "4"],
        13,
        b"no store\n",
    ),
    (
        SUM,
        &["run", "text", "arr=1", "--steps", "2"],
        15,
        b"steps ended: 2\n",
    ),
    (SUM, &["run", "text", "arr=", "--steps", "6"], 0, b"0\n"),
    (
        SUM,
        &["run", "text", "arr=", "--steps", "5"],
        15,
        b"steps ended: 5\n",
    ),
    (SUM, &["run", "text", "arr=8", "--steps=13"], 0, b"8\n"),
    (
        SUM,
        &["run", "text", "arr=8", "--steps=12"],
        15,
        b"steps ended: 12\n",
    ),
    (
        SUM,
        &["run", "text", "arr=9223372036854775807,1"],
        14,
        b"overflow\n",
    ),
    (
        ENDLESS,
        &["run", "text", "--steps", "2"],
        15,
        b"steps ended: 2\n",
    ),
    (
        ENDLESS,
        &["run", "text", "--steps", "3"],
        15,
        b"1\nsteps ended: 3\n",
    ),
    (
        ENDLESS,
        &["run", "text", "--steps", "4"],
        15,
        b"1\nsteps ended: 4\n",
    ),
    (
        ENDLESS,
        &["run", "text", "--steps", "7"],
        15,
        b"1\n1\n1\nsteps ended: 7\n",
    ),
];

#[test]
fn calls_come_to_the_greatest_depth(rt: HostRuntime) -> Result<(), Fail> {
    assert_eq!(rt; agreeing(rt.alloc(), CALLS)?, CALLS.len());
    Ok(())
}

#[test]
fn faults_of_arguments_go_first(rt: HostRuntime) -> Result<(), Fail> {
    assert_eq!(rt; agreeing(rt.alloc(), ENTRIES)?, ENTRIES.len());
    Ok(())
}

#[test]
fn runs_make_all_their_steps(rt: HostRuntime) -> Result<(), Fail> {
    assert_eq!(rt; agreeing(rt.alloc(), STEPS)?, STEPS.len());
    Ok(())
}
