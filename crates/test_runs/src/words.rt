// Which words are a command, and what its options say.
use crate::running::{Row, agreeing, comes_out};
use std::test::Fail;

/// Prints its parameter and returns it.
const ECHO: &[u8] =
    b"dtal 1\nfun main {1|} (int(+1v0+0)) {1|} int(+1v1+0)\nprint r0\nret r0\nend\n";

/// Words that are no command.
const NO_COMMANDS: &[&[&str]] = &[
    &[],
    &["verify"],
    &["run"],
    &["frob", "text"],
    &["verify", "text", "int=1"],
    &["verify", "-text"],
    &["run", "--"],
    &["run", "text", "-1"],
    &["run", "text", "--steps"],
    &["run", "text", "--steps", "x"],
    &["run", "text", "--steps", "+3"],
    &["run", "text", "--steps", "-3"],
    &["run", "text", "--steps", "03"],
    &["run", "text", "--steps", ""],
    &["run", "text", "--steps", "--", "int=7"],
    &["run", "text", "--steps="],
    &["run", "text", "--steps=9223372036854775808"],
    &["run", "text", "--heap", "67108865"],
    &["run", "text", "--depth=65537"],
    &["run", "text", "--heap", "1", "--heap", "1"],
    &["run", "text", "--steps=3", "int=7", "--steps", "3"],
    &["run", "text", "--fuel", "3"],
    &["run", "text", "--help"],
    &["run", "text", "-h"],
    &["run", "text", "--heaps", "3"],
    &["run", "text", "--Heap", "3"],
    &["run", "text", "-steps", "3"],
    &["run", "text", "--", "int=7", "--steps=3"],
    &["run", "text", "--", "--", "int=7"],
    &["verify", "text", "--heap", "3"],
    &["verify", "--steps=3", "text"],
    &["--steps", "3", "run", "text"],
    &["run", "text", ""],
    &["run", "text", "-"],
    &["run", "text", "7"],
    &["run", "text", "int="],
    &["run", "text", "int=+7"],
    &["run", "text", "int=07"],
    &["run", "text", "int=-0"],
    &["run", "text", "int=7 "],
    &["run", "text", "int=9223372036854775808"],
    &["run", "text", "int=-9223372036854775809"],
    &["run", "text", "int=7", "bool="],
    &["run", "text", "bool=True"],
    &["run", "text", "arr=,"],
    &["run", "text", "arr=1,"],
    &["run", "text", "arr=1,,2"],
];

#[test]
fn words_mean_a_command_or_none(rt: HostRuntime) -> Result<(), Fail> {
    let alloc = rt.alloc();
    for words in NO_COMMANDS {
        assert!(rt; comes_out(alloc, words, Some(ECHO), 2, b"words: not a command\n")?);
    }
    // An empty word and a dash are values: names that are not there.
    assert!(rt; comes_out(alloc, &["verify", ""], Some(ECHO), 3, b"read: failed\n")?);
    assert!(rt;
        comes_out(
            alloc,
            &["run", "-", "int=1"],
            Some(ECHO),
            3,
            b"read: failed\n"
        )?
    );
    assert!(rt; comes_out(alloc, &["run", "text"], None, 3, b"read: failed\n")?);
    assert!(rt;
        comes_out(
            alloc,
            &["run", "text", "x"],
            None,
            2,
            b"words: not a command\n"
        )?
    );
    Ok(())
}

/// Options, in any order and anywhere behind the command; behind `--` there are only values.
const OPTIONS: &[Row] = &[
    (
        ECHO,
        &["run", "--steps", "9", "text", "int=7"],
        0,
        b"7\n7\n",
    ),
    (ECHO, &["run", "text", "--steps=9", "int=7"], 0, b"7\n7\n"),
    (ECHO, &["run", "text", "int=7", "--heap=0"], 0, b"7\n7\n"),
    (
        ECHO,
        &[
            "run",
            "--depth=1",
            "--heap",
            "0",
            "text",
            "--steps",
            "2",
            "int=7",
        ],
        0,
        b"7\n7\n",
    ),
    (
        ECHO,
        &["run", "text", "int=7", "--steps=9223372036854775807"],
        0,
        b"7\n7\n",
    ),
    (
        ECHO,
        &["run", "--steps", "2", "--", "text", "int=7"],
        0,
        b"7\n7\n",
    ),
    (ECHO, &["run", "text", "int=7", "--"], 0, b"7\n7\n"),
    (
        ECHO,
        &["run", "text", "int=7", "--steps", "1"],
        15,
        b"7\nsteps ended: 1\n",
    ),
    (
        ECHO,
        &["run", "text", "int=7", "--steps", "0"],
        15,
        b"steps ended: 0\n",
    ),
    (
        ECHO,
        &["run", "text", "int=7", "--depth", "0"],
        13,
        b"no store\n",
    ),
    (
        ECHO,
        &["run", "text", "--steps", "3"],
        12,
        b"entry: count\n",
    ),
    (
        ECHO,
        &["verify", "--", "text"],
        0,
        b"accepted: 1 functions, 2 instructions\n",
    ),
    (
        ECHO,
        &["verify", "text", "--"],
        0,
        b"accepted: 1 functions, 2 instructions\n",
    ),
    (ECHO, &["verify", "--", "-text"], 3, b"read: failed\n"),
    (ECHO, &["run", "--", "--"], 3, b"read: failed\n"),
];

#[test]
fn options_say_what_a_run_may_have(rt: HostRuntime) -> Result<(), Fail> {
    assert_eq!(rt; agreeing(rt.alloc(), OPTIONS)?, OPTIONS.len());
    Ok(())
}
