// Programs of one function without jumps: both ends of the numbers, what is refused, and faults of arguments.
use crate::running::{Row, agreeing};
use std::test::Fail;

/// The sum of two parameters less 3, over slots: thirteen instructions.
const SUM: &[u8] =
    b"dtal 1\nfun main {2|} (int(+1v0+0) int(+1v1+0)) {1|} int(+1v2+0)\nmv s0 r0\nmv s1 r1\nmv r13 s0\nmv r14 s1\nadd r13 r13 r14\nmv s2 r13\nli r13 3\nmv s3 r13\nmv r13 s2\nmv r14 s3\nsub r13 r13 r14\nmv s2 r13\nret s2\nend\n";

/// Prints its parameter and returns it.
const ECHO: &[u8] =
    b"dtal 1\nfun main {1|} (int(+1v0+0)) {1|} int(+1v1+0)\nprint r0\nret r0\nend\n";

/// The same, but it returns a register that was never written.
const UNWRITTEN: &[u8] =
    b"dtal 1\nfun main {1|} (int(+1v0+0)) {1|} int(+1v1+0)\nprint r0\nret r5\nend\n";

/// Its function has another name.
const NO_MAIN: &[u8] =
    b"dtal 1\nfun mein {1|} (int(+1v0+0)) {1|} int(+1v1+0)\nprint r0\nret r5\nend\n";

/// The sum, and the difference, of two parameters. Each prints the first one before.
const ADD: &[u8] =
    b"dtal 1\nfun main {2|} (int(+1v0+0) int(+1v1+0)) {1|} int(+1v2+0)\nprint r0\nadd r2 r0 r1\nret r2\nend\n";

const SUB: &[u8] =
    b"dtal 1\nfun main {2|} (int(+1v0+0) int(+1v1+0)) {1|} int(+1v2+0)\nprint r0\nsub r2 r0 r1\nret r2\nend\n";

/// Both ends of the numbers, through the last register and the last slot.
const ENDS: &[u8] =
    b"dtal 1\nfun main {0|} () {1|} int(+1v0+0)\nli r15 -9223372036854775808\nprint r15\nli r0 9223372036854775807\nmv s239 r0\nret s239\nend\n";

/// A register that does not exist.
const REGISTER_16: &[u8] =
    b"dtal 1\nfun main {1|} (int(+1v0+0)) {1|} int(+1v1+0)\nprint r16\nret r0\nend\n";

/// What follows a `ret` is looked at too.
const BEHIND_RET: &[u8] =
    b"dtal 1\nfun main {1|} (int(+1v0+0)) {1|} int(+1v1+0)\nret r0\nprint r1\nret r0\nend\n";

const VERIFY: &[&str] = &["verify", "text"];

/// What comes of them.
const RUNS: &[Row] = &[
    (SUM, &["run", "text", "int=2", "int=3"], 0, b"2\n"),
    (
        SUM,
        &["run", "text", "int=9223372036854775807", "int=1"],
        14,
        b"overflow\n",
    ),
    (SUM, VERIFY, 0, b"accepted: 1 functions, 13 instructions\n"),
    (ECHO, VERIFY, 0, b"accepted: 1 functions, 2 instructions\n"),
    (ECHO, &["run", "text", "int=7"], 0, b"7\n7\n"),
    (
        UNWRITTEN,
        VERIFY,
        11,
        b"refused: function 0 instruction 1: rule place\n",
    ),
    (
        UNWRITTEN,
        &["run", "text"],
        11,
        b"refused: function 0 instruction 1: rule place\n",
    ),
    (NO_MAIN, VERIFY, 11, b"refused: program: rule main\n"),
    (
        BEHIND_RET,
        VERIFY,
        11,
        b"refused: function 0 instruction 1: rule place\n",
    ),
    (
        ENDS,
        &["run", "text"],
        0,
        b"-9223372036854775808\n9223372036854775807\n",
    ),
    (REGISTER_16, VERIFY, 7, b"text: at 60\n"),
    (REGISTER_16, &["run", "text"], 7, b"text: at 60\n"),
    (ECHO, &["run", "text"], 12, b"entry: count\n"),
    (
        ECHO,
        &["run", "text", "int=1", "int=1"],
        12,
        b"entry: count\n",
    ),
    (
        ECHO,
        &["run", "text", "bool=true"],
        12,
        b"entry: kind of argument 1\n",
    ),
    (
        SUM,
        &["run", "text", "int=1", "arr=1,-2"],
        12,
        b"entry: kind of argument 2\n",
    ),
    (
        ADD,
        &["run", "text", "int=9223372036854775807", "int=1"],
        14,
        b"9223372036854775807\noverflow\n",
    ),
    (
        ADD,
        &["run", "text", "int=-9223372036854775808", "int=-1"],
        14,
        b"-9223372036854775808\noverflow\n",
    ),
    (
        ADD,
        &[
            "run",
            "text",
            "int=9223372036854775807",
            "int=-9223372036854775808",
        ],
        0,
        b"9223372036854775807\n-1\n",
    ),
    (
        SUB,
        &["run", "text", "int=-9223372036854775808", "int=1"],
        14,
        b"-9223372036854775808\noverflow\n",
    ),
    (
        SUB,
        &["run", "text", "int=0", "int=-9223372036854775808"],
        14,
        b"0\noverflow\n",
    ),
    (
        SUB,
        &["run", "text", "int=-1", "int=-9223372036854775808"],
        0,
        b"-1\n9223372036854775807\n",
    ),
];

#[test]
fn straight_texts_are_verified_and_run(rt: HostRuntime) -> Result<(), Fail> {
    assert_eq!(rt; agreeing(rt.alloc(), RUNS)?, RUNS.len());
    Ok(())
}
