// Arithmetic at both ends of the numbers.
use crate::running::{Row, agreeing};
use std::test::Fail;

/// `add` of two parameters.
const ADD: &[u8] =
    b"dtal 1\nfun main {2|} (int(+1v0+0) int(+1v1+0)) {1|} int(+1v2+0)\nadd r2 r0 r1\nret r2\nend\n";

/// `sub` of two parameters.
const SUB: &[u8] =
    b"dtal 1\nfun main {2|} (int(+1v0+0) int(+1v1+0)) {1|} int(+1v2+0)\nsub r2 r0 r1\nret r2\nend\n";

/// `mul` of two parameters.
const MUL: &[u8] =
    b"dtal 1\nfun main {2|} (int(+1v0+0) int(+1v1+0)) {1|} int(+1v2+0)\nmul r2 r0 r1\nret r2\nend\n";

/// `div` of two parameters, of which the second is at least 1.
const DIV: &[u8] =
    b"dtal 1\nfun main {2|+1v1-1} (int(+1v0+0) int(+1v1+0)) {1|} int(+1v2+0)\ndiv r2 r0 r1\nret r2\nend\n";

/// `mod` of two parameters, of which the second is at least 1.
const MOD: &[u8] =
    b"dtal 1\nfun main {2|+1v1-1} (int(+1v0+0) int(+1v1+0)) {1|} int(+1v2+0)\nmod r2 r0 r1\nret r2\nend\n";

/// Results that fit, and one more that does not.
const SUMS: &[Row] = &[
    (
        ADD,
        &["run", "text", "int=9223372036854775807", "int=0"],
        0,
        b"9223372036854775807\n",
    ),
    (
        ADD,
        &["run", "text", "int=9223372036854775807", "int=1"],
        14,
        b"overflow\n",
    ),
    (
        ADD,
        &["run", "text", "int=-9223372036854775808", "int=0"],
        0,
        b"-9223372036854775808\n",
    ),
    (
        ADD,
        &["run", "text", "int=-9223372036854775808", "int=-1"],
        14,
        b"overflow\n",
    ),
    (
        ADD,
        &[
            "run",
            "text",
            "int=9223372036854775807",
            "int=-9223372036854775808",
        ],
        0,
        b"-1\n",
    ),
    (
        ADD,
        &[
            "run",
            "text",
            "int=-9223372036854775808",
            "int=-9223372036854775808",
        ],
        14,
        b"overflow\n",
    ),
    (
        ADD,
        &[
            "run",
            "text",
            "int=9223372036854775807",
            "int=9223372036854775807",
        ],
        14,
        b"overflow\n",
    ),
    (
        SUB,
        &["run", "text", "int=9223372036854775807", "int=-1"],
        14,
        b"overflow\n",
    ),
    (
        SUB,
        &["run", "text", "int=-9223372036854775808", "int=1"],
        14,
        b"overflow\n",
    ),
    (
        SUB,
        &["run", "text", "int=0", "int=-9223372036854775808"],
        14,
        b"overflow\n",
    ),
    (
        SUB,
        &["run", "text", "int=-1", "int=-9223372036854775808"],
        0,
        b"9223372036854775807\n",
    ),
    (
        SUB,
        &[
            "run",
            "text",
            "int=-9223372036854775808",
            "int=-9223372036854775808",
        ],
        0,
        b"0\n",
    ),
    (
        SUB,
        &["run", "text", "int=0", "int=9223372036854775807"],
        0,
        b"-9223372036854775807\n",
    ),
    (
        MUL,
        &["run", "text", "int=-9223372036854775808", "int=1"],
        0,
        b"-9223372036854775808\n",
    ),
    (
        MUL,
        &["run", "text", "int=-9223372036854775808", "int=-1"],
        14,
        b"overflow\n",
    ),
    (
        MUL,
        &["run", "text", "int=-1", "int=-9223372036854775808"],
        14,
        b"overflow\n",
    ),
    (
        MUL,
        &["run", "text", "int=9223372036854775807", "int=-1"],
        0,
        b"-9223372036854775807\n",
    ),
    (
        MUL,
        &["run", "text", "int=4294967296", "int=2147483648"],
        14,
        b"overflow\n",
    ),
    (
        MUL,
        &["run", "text", "int=4294967296", "int=-2147483648"],
        0,
        b"-9223372036854775808\n",
    ),
    (
        MUL,
        &["run", "text", "int=3037000500", "int=3037000500"],
        14,
        b"overflow\n",
    ),
    (
        MUL,
        &["run", "text", "int=3037000499", "int=3037000499"],
        0,
        b"9223372030926249001\n",
    ),
    (
        MUL,
        &[
            "run",
            "text",
            "int=9223372036854775807",
            "int=9223372036854775807",
        ],
        14,
        b"overflow\n",
    ),
    (
        MUL,
        &[
            "run",
            "text",
            "int=-9223372036854775808",
            "int=-9223372036854775808",
        ],
        14,
        b"overflow\n",
    ),
    (
        MUL,
        &["run", "text", "int=-9223372036854775808", "int=0"],
        0,
        b"0\n",
    ),
];

/// Quotients are floors, and what they leave is at least 0.
const QUOTIENTS: &[Row] = &[
    (DIV, &["run", "text", "int=7", "int=2"], 0, b"3\n"),
    (MOD, &["run", "text", "int=7", "int=2"], 0, b"1\n"),
    (DIV, &["run", "text", "int=-7", "int=2"], 0, b"-4\n"),
    (MOD, &["run", "text", "int=-7", "int=2"], 0, b"1\n"),
    (DIV, &["run", "text", "int=-8", "int=2"], 0, b"-4\n"),
    (MOD, &["run", "text", "int=-8", "int=2"], 0, b"0\n"),
    (DIV, &["run", "text", "int=-1", "int=2"], 0, b"-1\n"),
    (MOD, &["run", "text", "int=-1", "int=2"], 0, b"1\n"),
    (DIV, &["run", "text", "int=0", "int=5"], 0, b"0\n"),
    (MOD, &["run", "text", "int=0", "int=5"], 0, b"0\n"),
    (
        DIV,
        &["run", "text", "int=-1", "int=9223372036854775807"],
        0,
        b"-1\n",
    ),
    (
        MOD,
        &["run", "text", "int=-1", "int=9223372036854775807"],
        0,
        b"9223372036854775806\n",
    ),
    (
        DIV,
        &["run", "text", "int=1", "int=9223372036854775807"],
        0,
        b"0\n",
    ),
    (
        MOD,
        &["run", "text", "int=1", "int=9223372036854775807"],
        0,
        b"1\n",
    ),
    (
        DIV,
        &[
            "run",
            "text",
            "int=9223372036854775807",
            "int=9223372036854775807",
        ],
        0,
        b"1\n",
    ),
    (
        MOD,
        &[
            "run",
            "text",
            "int=9223372036854775807",
            "int=9223372036854775807",
        ],
        0,
        b"0\n",
    ),
    (
        DIV,
        &[
            "run",
            "text",
            "int=-9223372036854775808",
            "int=9223372036854775807",
        ],
        0,
        b"-2\n",
    ),
    (
        MOD,
        &[
            "run",
            "text",
            "int=-9223372036854775808",
            "int=9223372036854775807",
        ],
        0,
        b"9223372036854775806\n",
    ),
    (
        DIV,
        &["run", "text", "int=-9223372036854775808", "int=1"],
        0,
        b"-9223372036854775808\n",
    ),
    (
        MOD,
        &["run", "text", "int=-9223372036854775808", "int=1"],
        0,
        b"0\n",
    ),
    (
        DIV,
        &["run", "text", "int=9223372036854775807", "int=1"],
        0,
        b"9223372036854775807\n",
    ),
    (
        MOD,
        &["run", "text", "int=9223372036854775807", "int=1"],
        0,
        b"0\n",
    ),
    (
        DIV,
        &["run", "text", "int=-9223372036854775808", "int=2"],
        0,
        b"-4611686018427387904\n",
    ),
    (
        MOD,
        &["run", "text", "int=-9223372036854775808", "int=2"],
        0,
        b"0\n",
    ),
    (
        DIV,
        &["run", "text", "int=-9223372036854775807", "int=2"],
        0,
        b"-4611686018427387904\n",
    ),
    (
        MOD,
        &["run", "text", "int=-9223372036854775807", "int=2"],
        0,
        b"1\n",
    ),
    (DIV, &["run", "text", "int=-1", "int=1"], 0, b"-1\n"),
    (MOD, &["run", "text", "int=-1", "int=1"], 0, b"0\n"),
    (
        DIV,
        &["run", "text", "int=7", "int=0"],
        12,
        b"entry: row 1\n",
    ),
    (
        MOD,
        &["run", "text", "int=7", "int=-9223372036854775808"],
        12,
        b"entry: row 1\n",
    ),
];

#[test]
fn sums_overflow_where_they_do_not_fit(rt: HostRuntime) -> Result<(), Fail> {
    assert_eq!(rt; agreeing(rt.alloc(), SUMS)?, SUMS.len());
    Ok(())
}

#[test]
fn quotients_are_floors(rt: HostRuntime) -> Result<(), Fail> {
    assert_eq!(rt; agreeing(rt.alloc(), QUOTIENTS)?, QUOTIENTS.len());
    Ok(())
}
