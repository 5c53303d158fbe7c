// Comparisons and truth values.
use crate::running::{Row, agreeing};
use std::test::Fail;

/// 1 where `set lt` of two parameters is true, and else 0.
const SET_LT: &[u8] =
    b"dtal 1\nfun main {2|} (int(+1v0+0) int(+1v1+0)) {1|} int(+1v2+0)\nset lt r2 r0 r1\nbt r2 1 {}\nli r3 0\nret r3\nlabel 1 {2|} []\nli r3 1\nret r3\nend\n";

/// 1 where `br lt` of two parameters goes, and else 0.
const BR_LT: &[u8] =
    b"dtal 1\nfun main {2|} (int(+1v0+0) int(+1v1+0)) {1|} int(+1v2+0)\nbr lt r0 r1 1 {}\nli r3 0\nret r3\nlabel 1 {2|} []\nli r3 1\nret r3\nend\n";

/// 1 where `set le` of two parameters is true, and else 0.
const SET_LE: &[u8] =
    b"dtal 1\nfun main {2|} (int(+1v0+0) int(+1v1+0)) {1|} int(+1v2+0)\nset le r2 r0 r1\nbt r2 1 {}\nli r3 0\nret r3\nlabel 1 {2|} []\nli r3 1\nret r3\nend\n";

/// 1 where `br le` of two parameters goes, and else 0.
const BR_LE: &[u8] =
    b"dtal 1\nfun main {2|} (int(+1v0+0) int(+1v1+0)) {1|} int(+1v2+0)\nbr le r0 r1 1 {}\nli r3 0\nret r3\nlabel 1 {2|} []\nli r3 1\nret r3\nend\n";

/// 1 where `set eq` of two parameters is true, and else 0.
const SET_EQ: &[u8] =
    b"dtal 1\nfun main {2|} (int(+1v0+0) int(+1v1+0)) {1|} int(+1v2+0)\nset eq r2 r0 r1\nbt r2 1 {}\nli r3 0\nret r3\nlabel 1 {2|} []\nli r3 1\nret r3\nend\n";

/// 1 where `br eq` of two parameters goes, and else 0.
const BR_EQ: &[u8] =
    b"dtal 1\nfun main {2|} (int(+1v0+0) int(+1v1+0)) {1|} int(+1v2+0)\nbr eq r0 r1 1 {}\nli r3 0\nret r3\nlabel 1 {2|} []\nli r3 1\nret r3\nend\n";

/// 1 where `set ne` of two parameters is true, and else 0.
const SET_NE: &[u8] =
    b"dtal 1\nfun main {2|} (int(+1v0+0) int(+1v1+0)) {1|} int(+1v2+0)\nset ne r2 r0 r1\nbt r2 1 {}\nli r3 0\nret r3\nlabel 1 {2|} []\nli r3 1\nret r3\nend\n";

/// 1 where `br ne` of two parameters goes, and else 0.
const BR_NE: &[u8] =
    b"dtal 1\nfun main {2|} (int(+1v0+0) int(+1v1+0)) {1|} int(+1v2+0)\nbr ne r0 r1 1 {}\nli r3 0\nret r3\nlabel 1 {2|} []\nli r3 1\nret r3\nend\n";

/// Comparisons.
const COMPARISONS: &[Row] = &[
    (
        SET_LT,
        &[
            "run",
            "text",
            "int=-9223372036854775808",
            "int=9223372036854775807",
        ],
        0,
        b"1\n",
    ),
    (
        BR_LT,
        &[
            "run",
            "text",
            "int=-9223372036854775808",
            "int=9223372036854775807",
        ],
        0,
        b"1\n",
    ),
    (
        SET_LT,
        &[
            "run",
            "text",
            "int=9223372036854775807",
            "int=-9223372036854775808",
        ],
        0,
        b"0\n",
    ),
    (
        BR_LT,
        &[
            "run",
            "text",
            "int=9223372036854775807",
            "int=-9223372036854775808",
        ],
        0,
        b"0\n",
    ),
    (SET_LT, &["run", "text", "int=-1", "int=0"], 0, b"1\n"),
    (BR_LT, &["run", "text", "int=-1", "int=0"], 0, b"1\n"),
    (SET_LT, &["run", "text", "int=0", "int=0"], 0, b"0\n"),
    (BR_LT, &["run", "text", "int=0", "int=0"], 0, b"0\n"),
    (SET_LT, &["run", "text", "int=1", "int=0"], 0, b"0\n"),
    (BR_LT, &["run", "text", "int=1", "int=0"], 0, b"0\n"),
    (
        SET_LE,
        &[
            "run",
            "text",
            "int=-9223372036854775808",
            "int=9223372036854775807",
        ],
        0,
        b"1\n",
    ),
    (
        BR_LE,
        &[
            "run",
            "text",
            "int=-9223372036854775808",
            "int=9223372036854775807",
        ],
        0,
        b"1\n",
    ),
    (
        SET_LE,
        &[
            "run",
            "text",
            "int=9223372036854775807",
            "int=-9223372036854775808",
        ],
        0,
        b"0\n",
    ),
    (
        BR_LE,
        &[
            "run",
            "text",
            "int=9223372036854775807",
            "int=-9223372036854775808",
        ],
        0,
        b"0\n",
    ),
    (SET_LE, &["run", "text", "int=-1", "int=0"], 0, b"1\n"),
    (BR_LE, &["run", "text", "int=-1", "int=0"], 0, b"1\n"),
    (SET_LE, &["run", "text", "int=0", "int=0"], 0, b"1\n"),
    (BR_LE, &["run", "text", "int=0", "int=0"], 0, b"1\n"),
    (SET_LE, &["run", "text", "int=1", "int=0"], 0, b"0\n"),
    (BR_LE, &["run", "text", "int=1", "int=0"], 0, b"0\n"),
    (
        SET_EQ,
        &[
            "run",
            "text",
            "int=-9223372036854775808",
            "int=9223372036854775807",
        ],
        0,
        b"0\n",
    ),
    (
        BR_EQ,
        &[
            "run",
            "text",
            "int=-9223372036854775808",
            "int=9223372036854775807",
        ],
        0,
        b"0\n",
    ),
    (
        SET_EQ,
        &[
            "run",
            "text",
            "int=9223372036854775807",
            "int=-9223372036854775808",
        ],
        0,
        b"0\n",
    ),
    (
        BR_EQ,
        &[
            "run",
            "text",
            "int=9223372036854775807",
            "int=-9223372036854775808",
        ],
        0,
        b"0\n",
    ),
    (SET_EQ, &["run", "text", "int=-1", "int=0"], 0, b"0\n"),
    (BR_EQ, &["run", "text", "int=-1", "int=0"], 0, b"0\n"),
    (SET_EQ, &["run", "text", "int=0", "int=0"], 0, b"1\n"),
    (BR_EQ, &["run", "text", "int=0", "int=0"], 0, b"1\n"),
    (SET_EQ, &["run", "text", "int=1", "int=0"], 0, b"0\n"),
    (BR_EQ, &["run", "text", "int=1", "int=0"], 0, b"0\n"),
    (
        SET_NE,
        &[
            "run",
            "text",
            "int=-9223372036854775808",
            "int=9223372036854775807",
        ],
        0,
        b"1\n",
    ),
    (
        BR_NE,
        &[
            "run",
            "text",
            "int=-9223372036854775808",
            "int=9223372036854775807",
        ],
        0,
        b"1\n",
    ),
    (
        SET_NE,
        &[
            "run",
            "text",
            "int=9223372036854775807",
            "int=-9223372036854775808",
        ],
        0,
        b"1\n",
    ),
    (
        BR_NE,
        &[
            "run",
            "text",
            "int=9223372036854775807",
            "int=-9223372036854775808",
        ],
        0,
        b"1\n",
    ),
    (SET_NE, &["run", "text", "int=-1", "int=0"], 0, b"1\n"),
    (BR_NE, &["run", "text", "int=-1", "int=0"], 0, b"1\n"),
    (SET_NE, &["run", "text", "int=0", "int=0"], 0, b"0\n"),
    (BR_NE, &["run", "text", "int=0", "int=0"], 0, b"0\n"),
    (SET_NE, &["run", "text", "int=1", "int=0"], 0, b"1\n"),
    (BR_NE, &["run", "text", "int=1", "int=0"], 0, b"1\n"),
];

/// 1 where `bt` of a truth value goes, and else 0.
const BT: &[u8] =
    b"dtal 1\nfun main {0|} (bool) {1|} int(+1v0+0)\nbt r0 1 {}\nli r1 0\nret r1\nlabel 1 {0|} []\nli r1 1\nret r1\nend\n";

/// 1 where `bf` of a truth value goes, and else 0.
const BF: &[u8] =
    b"dtal 1\nfun main {0|} (bool) {1|} int(+1v0+0)\nbf r0 1 {}\nli r1 0\nret r1\nlabel 1 {0|} []\nli r1 1\nret r1\nend\n";

/// A literal truth value, through a slot.
const LB: &[u8] =
    b"dtal 1\nfun main {0|} () {1|} int(+1v0+0)\nlb r1 1\nmv s239 r1\nlb r1 0\nmv r2 s239\nbt r1 1 {}\nbf r2 1 {}\nli r3 7\nret r3\nlabel 1 {0|} []\nli r3 8\nret r3\nend\n";

/// Truth values.
const TRUTHS: &[Row] = &[
    (BT, &["run", "text", "bool=true"], 0, b"1\n"),
    (BT, &["run", "text", "bool=false"], 0, b"0\n"),
    (BF, &["run", "text", "bool=true"], 0, b"0\n"),
    (BF, &["run", "text", "bool=false"], 0, b"1\n"),
    (LB, &["run", "text"], 0, b"7\n"),
];

#[test]
fn comparisons_hold_at_both_ends(rt: HostRuntime) -> Result<(), Fail> {
    assert_eq!(rt; agreeing(rt.alloc(), COMPARISONS)?, COMPARISONS.len());
    Ok(())
}

#[test]
fn truth_values_are_branched_on(rt: HostRuntime) -> Result<(), Fail> {
    assert_eq!(rt; agreeing(rt.alloc(), TRUTHS)?, TRUTHS.len());
    Ok(())
}
