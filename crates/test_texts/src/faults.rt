// Texts that no program has, and how many of their bytes begin one. Worked out from the grammar by hand.
use crate::reading::fault_of;
use std::test::Fail;

/// A text, and the length of its longest front that begins the text of a program.
const FAULTS: &[(&[u8], u64)] = &[
    (b"", 0),
    (b"x", 0),
    (b"dtal 2\n", 5),
    (b"dtal 1 \n", 6),
    (b"dtal 1\n\n", 7),
    (b"dtal 1\nend\n", 7),
    (b"dtal 1\ntype 0|} cell bool\n", 12),
    (b"dtal 1\ntype {|} cell bool\n", 13),
    (b"dtal 1\ntype {00|} cell bool\n", 14),
    (b"dtal 1\ntype {4294967296|} cell bool\n", 22),
    (b"dtal 1\ntype {0|1} cell bool\n", 15),
    (b"dtal 1\ntype {0|+0;} cell bool\n", 18),
    (b"dtal 1\ntype {0|+0,+0} cell bool\n", 17),
    (b"dtal 1\ntype {0|} tup bool\n", 20),
    (b"dtal 1\ntype {0|} cell \n", 22),
    (b"dtal 1\ntype {0|} cell bool bool\n", 26),
    (b"dtal 1\ntype {0|} tuple \n", 23),
    (
        b"dtal 1\ntype {0|} tuple bool bool bool bool bool bool bool bool bool\n",
        62,
    ),
    (b"dtal 1\ntype {0|} cell boll\n", 24),
    (b"dtal 1\ntype {0|} cell int()\n", 26),
    (b"dtal 1\ntype {0|} cell arr(65536,+0)\n", 30),
    (b"dtal 1\ntype {0|} cell arr(0;+0)\n", 27),
    (b"dtal 1\ntype {0|} cell tup(0,+0)\n", 27),
    (b"dtal 1\ntype {0|} cell int(0)\n", 26),
    (b"dtal 1\ntype {0|} cell int(-0)\n", 27),
    (b"dtal 1\ntype {0|} cell int(+00)\n", 28),
    (b"dtal 1\ntype {0|} cell int(+0v0+0)\n", 28),
    (b"dtal 1\ntype {0|} cell int(+4611686018427387904)\n", 45),
    (b"dtal 1\ntype {0|} cell int(+1v0+1v0+0)\n", 33),
    (b"dtal 1\ntype {0|} cell int(+1v2+1v1+0)\n", 34),
    (b"dtal 1\ntype {0|} cell int(+1v4294967296+0)\n", 38),
    (b"dtal 1\ntype {0|} cell int(+1v4294967295+1v0+0)\n", 41),
    (b"dtal 1\ntype {0|} cell int(+1v0)\n", 30),
    (
        b"dtal 1\ntype {0|} cell int(+1v0+1v1+1v2+1v3+1v4+1v5+1v6+1v7+1v8+1v9+1v10+1v11+1v12+1v13+1v14+1v15+1v16+0)\n",
        98,
    ),
    (b"dtal 1\nfun Main {0|} () {0|} int(+0)\n", 11),
    (b"dtal 1\nfun while {0|} () {0|} int(+0)\n", 16),
    (b"dtal 1\nfun main  {0|} () {0|} int(+0)\n", 16),
    (b"dtal 1\nfun main {0|} {0|}\n", 21),
    (b"dtal 1\nfun main {0|} ( bool) {0|} int(+0)\n", 22),
    (
        b"dtal 1\nfun main {0|} (bool bool bool bool bool bool bool bool bool) {0|} int(+0)\n",
        61,
    ),
    (b"dtal 1\nfun main {0|} () {0|} int(+0) \n", 36),
    (
        b"dtal 1\nfun main {0|} () {0|} int(+0)\nli r0 0\nret r0\nend\ntype {0|} cell bool\n",
        56,
    ),
    (
        b"dtal 1\nfun main {0|} () {0|} int(+0)\nli r0 0\nret r0\nend\n\n",
        56,
    ),
    (
        b"dtal 1\nfun main {0|} () {0|} int(+0)\nli r0 0\nret r0\nend\nfon\n",
        57,
    ),
    (b"dtal 1\nfun main {0|} () {0|} int(+0)\nli r16 0\n", 42),
    (b"dtal 1\nfun main {0|} () {0|} int(+0)\nli r00 0\n", 42),
    (b"dtal 1\nfun main {0|} () {0|} int(+0)\nli s0 0\n", 40),
    (b"dtal 1\nfun main {0|} () {0|} int(+0)\nli r0 -0\n", 44),
    (b"dtal 1\nfun main {0|} () {0|} int(+0)\nli r0 00\n", 44),
    (
        b"dtal 1\nfun main {0|} () {0|} int(+0)\nli r0 9223372036854775808\n",
        61,
    ),
    (
        b"dtal 1\nfun main {0|} () {0|} int(+0)\nli r0 -9223372036854775809\n",
        62,
    ),
    (b"dtal 1\nfun main {0|} () {0|} int(+0)\nlb r0 2\n", 43),
    (b"dtal 1\nfun main {0|} () {0|} int(+0)\nlb r0 11\n", 44),
    (b"dtal 1\nfun main {0|} () {0|} int(+0)\nmv s240 r0\n", 43),
    (b"dtal 1\nfun main {0|} () {0|} int(+0)\nmv t0 r0\n", 40),
    (b"dtal 1\nfun main {0|} () {0|} int(+0)\nadd r0 r0 s0\n", 47),
    (b"dtal 1\nfun main {0|} () {0|} int(+0)\nadd r0 r0\n", 46),
    (
        b"dtal 1\nfun main {0|} () {0|} int(+0)\nset gt r0 r0 r0\n",
        41,
    ),
    (
        b"dtal 1\nfun main {0|} () {0|} int(+0)\nset ls r0 r0 r0\n",
        42,
    ),
    (
        b"dtal 1\nfun main {0|} () {0|} int(+0)\njmp 4294967296 {}\n",
        50,
    ),
    (b"dtal 1\nfun main {0|} () {0|} int(+0)\njmp 1{}\n", 42),
    (b"dtal 1\nfun main {0|} () {0|} int(+0)\njmp 1 \n", 43),
    (b"dtal 1\nfun main {0|} () {0|} int(+0)\njmp 1 {x}\n", 44),
    (
        b"dtal 1\nfun main {0|} () {0|} int(+0)\njmp 1 {v0=+0,v0=+0}\n",
        51,
    ),
    (
        b"dtal 1\nfun main {0|} () {0|} int(+0)\njmp 1 {v1=+0,v1=+0}\n",
        52,
    ),
    (
        b"dtal 1\nfun main {0|} () {0|} int(+0)\njmp 1 {v4294967296=+0}\n",
        54,
    ),
    (
        b"dtal 1\nfun main {0|} () {0|} int(+0)\njmp 1 {v4294967295=+0,v0=+0}\n",
        58,
    ),
    (
        b"dtal 1\nfun main {0|} () {0|} int(+0)\njmp 1 {v0=+0 v1=+0}\n",
        49,
    ),
    (
        b"dtal 1\nfun main {0|} () {0|} int(+0)\nbr lt r0 r1 1\n",
        50,
    ),
    (
        b"dtal 1\nfun main {0|} () {0|} int(+0)\ncall 0 r0 (r0 r0 r0 r0 r0 r0 r0 r0 r0)\n",
        71,
    ),
    (
        b"dtal 1\nfun main {0|} () {0|} int(+0)\ncall 0 r0 ( r0)\n",
        48,
    ),
    (b"dtal 1\nfun main {0|} () {0|} int(+0)\ncall 0 r0 r0\n", 47),
    (
        b"dtal 1\nfun main {0|} () {0|} int(+0)\nnew r0 65536 r0 r0\n",
        48,
    ),
    (
        b"dtal 1\nfun main {0|} () {0|} int(+0)\nnew r0 0 s0 r0\n",
        46,
    ),
    (
        b"dtal 1\nfun main {0|} () {0|} int(+0)\ntup r0 0 (r0,r0)\n",
        49,
    ),
    (
        b"dtal 1\nfun main {0|} () {0|} int(+0)\nuntup r0 0 ()\n",
        43,
    ),
    (b"dtal 1\nfun main {0|} () {0|} int(+0)\nprint s0\n", 43),
    (b"dtal 1\nfun main {0|} () {0|} int(+0)\nend\n", 37),
    (b"dtal 1\nfun main {0|} () {0|} int(+0)\nby g\n", 38),
    (
        b"dtal 1\nfun main {0|} () {0|} int(+0)\nlabel 1 {0|} []\n",
        38,
    ),
    (b"dtal 1\nfun main {0|} () {0|} int(+0)\nli r0 0\nend\n", 45),
    (
        b"dtal 1\nfun main {0|} () {0|} int(+0)\nli r0 0\nlabel 1 {0|} []\n",
        46,
    ),
    (b"dtal 1\nfun main {0|} () {0|} int(+0)\nret r0\nemd\n", 45),
    (b"dtal 1\nfun main {0|} () {0|} int(+0)\nret r0\ntype\n", 45),
    (
        b"dtal 1\nfun main {0|} () {0|} int(+0)\nret r0\nlabel 2 {0|} []\n",
        50,
    ),
    (
        b"dtal 1\nfun main {0|} () {0|} int(+0)\nret r0\nlabel 11 {0|} []\n",
        51,
    ),
    (
        b"dtal 1\nfun main {0|} () {0|} int(+0)\nret r0\nlabel 1 {0|} []\nend\n",
        60,
    ),
    (
        b"dtal 1\nfun main {0|} () {0|} int(+0)\nret r0\nlabel 1 {0|} []\nret r0\nlabel 1 {0|} []\n",
        73,
    ),
    (
        b"dtal 1\nfun main {0|} () {0|} int(+0)\nret r0\nlabel 1 {0|}[]\n",
        56,
    ),
    (
        b"dtal 1\nfun main {0|} () {0|} int(+0)\nret r0\nlabel 1 {0|} [ r0:bool]\n",
        58,
    ),
    (
        b"dtal 1\nfun main {0|} () {0|} int(+0)\nret r0\nlabel 1 {0|} [r0 bool]\n",
        60,
    ),
    (
        b"dtal 1\nfun main {0|} () {0|} int(+0)\nret r0\nlabel 1 {0|} [r1:bool r0:bool]\n",
        67,
    ),
    (
        b"dtal 1\nfun main {0|} () {0|} int(+0)\nret r0\nlabel 1 {0|} [r1:bool r1:bool]\n",
        68,
    ),
    (
        b"dtal 1\nfun main {0|} () {0|} int(+0)\nret r0\nlabel 1 {0|} [s0:bool r0:bool]\n",
        66,
    ),
    (
        b"dtal 1\nfun main {0|} () {0|} int(+0)\nret r0\nlabel 1 {0|} [s1:bool s1:bool]\n",
        68,
    ),
    (
        b"dtal 1\nfun main {0|} () {0|} int(+0)\nret r0\nlabel 1 {0|} [s239:bool s0:bool]\n",
        67,
    ),
    (
        b"dtal 1\nfun main {0|} () {0|} int(+0)\nret r0\nlabel 1 {0|} [r0:bool\n",
        65,
    ),
    (b"dtal 1\nfun main {0|} () {0|} int(+0)\nret r0\nby \n", 47),
    (
        b"dtal 1\nfun main {0|} () {0|} int(+0)\nret r0\nby g;\n",
        49,
    ),
    (b"dtal 1\nfun main {0|} () {0|} int(+0)\nret r0\nby x\n", 47),
    (
        b"dtal 1\nfun main {0|} () {0|} int(+0)\nret r0\nby g,g\n",
        48,
    ),
    (
        b"dtal 1\nfun main {0|} () {0|} int(+0)\nret r0\nby h 0\n",
        49,
    ),
    (
        b"dtal 1\nfun main {0|} () {0|} int(+0)\nret r0\nby c 1 0 1\n",
        54,
    ),
    (
        b"dtal 1\nfun main {0|} () {0|} int(+0)\nret r0\nby c 1 -0\n",
        51,
    ),
    (
        b"dtal 1\nfun main {0|} () {0|} int(+0)\nret r0\nby t 4294967296 1\n",
        58,
    ),
    (
        b"dtal 1\nfun main {0|} () {0|} int(+0)\nret r0\nby t 0 9223372036854775808\n",
        69,
    ),
];

#[test]
fn faults_stand_where_no_program_goes_on(rt: HostRuntime) -> Result<(), Fail> {
    for (text, at) in FAULTS {
        assert!(rt; fault_of(rt.alloc(), text)? == Some(*at), "{at}");
    }
    Ok(())
}
