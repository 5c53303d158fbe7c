//! What sources are refused for: a status, a line, and the target as it was.

use crate::tests::{BUILD, is, is_left, keeping, one, plain, run};
use std::alloc::Global;
use std::test::Fail;
use xan_io::Memory;

/// Sources, and the status and the line of each. What is refused first stands in front.
const REFUSED: &[(&[u8], u8, &[u8])] = &[
    (b"", 9, b"shape 10: at 0\n"),
    (b"fun main(): int { return 1 & 2; }", 7, b"bytes: at 27\n"),
    (b"fun main() int { return 0; }", 8, b"parse: at 11\n"),
    (b"fun main(): int { return y; }", 9, b"shape 2: at 25\n"),
    (
        b"fun main(x: int): int { return 9223372036854775808; }",
        7,
        b"bytes: at 31\n",
    ),
    (
        b"fun main(x: int): int { return 007; }",
        7,
        b"bytes: at 31\n",
    ),
    (
        b"fun main(x: int): int { return x; } \x0b",
        7,
        b"bytes: at 36\n",
    ),
    (
        b"fun main(x: int,): int { return x; }",
        8,
        b"parse: at 16\n",
    ),
    (b"fun main(x: int): int { return x }", 8, b"parse: at 33\n"),
    (
        b"fun main(x: int): int { return x; } x",
        8,
        b"parse: at 36\n",
    ),
    (b"fun Main(x: int): int { return x; }", 8, b"parse: at 4\n"),
    (b"fun main(if: int): int { return 1; }", 8, b"parse: at 9\n"),
    (
        b"fun main(x: int): int { return x + ; }",
        8,
        b"parse: at 35\n",
    ),
    (b"fun main(x: int): int { // open\n", 8, b"parse: at 32\n"),
    (
        b"fun main(x: int, x: int): int { return x; }",
        9,
        b"shape 1: at 17\n",
    ),
    (b"fun f(x: int): int { return x; }", 9, b"shape 10: at 32\n"),
    (
        b"fun main(x: bool): int { return x; }",
        9,
        b"shape 3: at 32\n",
    ),
    (
        b"fun main(x: int): int { return y * x; }",
        9,
        b"shape 2: at 31\n",
    ),
    (
        b"fun main(x: int, x: int): int { return & }",
        7,
        b"bytes: at 39\n",
    ),
    (
        b"fun main(x: int, x: int): int { return }",
        8,
        b"parse: at 39\n",
    ),
];

#[test]
fn refused_sources_leave_the_target(rt: HostRuntime) -> Result<(), Fail> {
    let alloc = rt.alloc();
    for (source, status, line) in REFUSED {
        let refused = keeping(alloc, source)?;
        assert!(rt; is_left(&refused, *status, line));
    }
    Ok(())
}

/// A part, so often another one, and a last part.
fn repeated(
    alloc: Global,
    first: &[u8],
    part: &[u8],
    times: usize,
    last: &[u8],
) -> Result<Vec<u8>, Memory> {
    let mut source = Vec::from_slice(alloc, first)?;
    for _ in 0..times {
        source.extend_from_slice(part)?;
    }
    source.extend_from_slice(last)?;
    Ok(source)
}

/// A 0 in so many pairs of parentheses, in a body.
fn in_parentheses(alloc: Global, times: usize) -> Result<Vec<u8>, Memory> {
    let front = repeated(alloc, b"fun main(): int { return ", b"(", times, b"0")?;
    repeated(alloc, front.as_slice(), b")", times, b"; }")
}

#[test]
fn limits_of_length_and_nesting(rt: HostRuntime) -> Result<(), Fail> {
    let alloc = rt.alloc();
    let nesting: &[u8] = b"limit: nesting 64\n";
    let deep = in_parentheses(alloc, 65)?;
    assert!(rt; is_left(&keeping(alloc, deep.as_slice())?, 5, nesting));
    let deeper = in_parentheses(alloc, 64)?;
    assert!(rt; is_left(&keeping(alloc, deeper.as_slice())?, 5, nesting));
    let shallow = in_parentheses(alloc, 63)?;
    assert_eq!(rt; keeping(alloc, shallow.as_slice())?.status, 0);
    let cells = repeated(alloc, b"fun main(): int { return a", b"[0]", 64, b"; }")?;
    assert!(rt; is_left(&keeping(alloc, cells.as_slice())?, 5, nesting));
    let fewer = repeated(alloc, b"fun main(): int { return a", b"[0]", 63, b"; }")?;
    assert!(rt; is_left(&keeping(alloc, fewer.as_slice())?, 9, b"shape 2: at 25\n"));
    // Nesting is looked at before the parse, and the length before the bytes.
    let open = repeated(alloc, b"fun fun ", b"(", 65, b"")?;
    assert!(rt; is_left(&keeping(alloc, open.as_slice())?, 5, nesting));
    let long = repeated(alloc, b"&", b" ", 1048576, b"")?;
    assert!(rt;
        is_left(
            &keeping(alloc, long.as_slice())?,
            5,
            b"limit: length 1048576\n"
        )
    );
    Ok(())
}

#[test]
fn a_refusal_whose_line_fails(rt: HostRuntime) -> Result<(), Fail> {
    let alloc = rt.alloc();
    let source: &[u8] = b"fun main(): int { return y; }";
    let cut = run(
        alloc,
        BUILD,
        Some(source),
        Vec::new(alloc),
        1000,
        one(alloc, 0)?,
    )?;
    assert!(rt; cut.status == 4 && b"shape 2: at 25\n".starts_with(cut.said.as_slice()));
    let read = run(
        alloc,
        BUILD,
        Some(source),
        one(alloc, 0)?,
        1000,
        Vec::new(alloc),
    )?;
    assert!(rt; is(&read, 3, b"read: failed\n", None));
    let all = plain(alloc, BUILD, Some(source))?;
    assert!(rt; is(&all, 9, b"shape 2: at 25\n", None));
    Ok(())
}
