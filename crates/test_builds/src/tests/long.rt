//! Sources of about a mebibyte that have a core: they go through all passes up to elaboration, where most of them pass a limit.

use crate::tests::{BUILD, has_core, plain};
use std::alloc::Global;
use std::test::Fail;
use xan_io::Memory;

/// Where a source begins, what stands in front of each number and behind it, how many numbers there are, and where the source ends.
const NUMBERED: &[(&[u8], &[u8], &[u8], usize, &[u8])] = &[
    // Functions.
    (
        b"fun main(): int { return 0; } ",
        b"fun f",
        b"(): unit { return; } ",
        34_000,
        b"",
    ),
    // One block of assignments.
    (
        b"fun main(x: int): int { ",
        b"x = x + ",
        b"; ",
        68_000,
        b"return x; }",
    ),
    // One block of variables.
    (
        b"fun main(): int { ",
        b"var v",
        b" = 1; ",
        64_000,
        b"return 0; }",
    ),
    // Headers with binders.
    (
        b"fun main(): int { return 0; } ",
        b"fun f",
        b"{n: int, m: nat | m <= n}(x: int(n), y: int(m)): unit { return; } ",
        13_400,
        b"",
    ),
    // Parameters.
    (
        b"fun main(x: int",
        b", p",
        b": int",
        78_000,
        b"): int { return x; }",
    ),
];

fn numbered(
    alloc: Global,
    first: &[u8],
    before: &[u8],
    after: &[u8],
    times: usize,
    last: &[u8],
) -> Result<Vec<u8>, Memory> {
    let mut source = Vec::from_slice(alloc, first)?;
    for number in 0..times {
        source.extend_from_slice(before)?;
        let digits = format!(in alloc; "{number}")?;
        source.extend_from_slice(digits.as_bytes())?;
        source.extend_from_slice(after)?;
    }
    source.extend_from_slice(last)?;
    Ok(source)
}

/// Sixty scopes in one another so often, each with a variable of its own.
fn in_scopes(alloc: Global, times: usize) -> Result<Vec<u8>, Memory> {
    let mut source = Vec::from_slice(alloc, b"fun main(): int { ")?;
    for _ in 0..times {
        for depth in 0..60u64 {
            let scope = format!(in alloc; "if (true) {{ var v{depth} = 1; ")?;
            source.extend_from_slice(scope.as_bytes())?;
        }
        for _ in 0..60u64 {
            source.extend_from_slice(b"} ")?;
        }
    }
    source.extend_from_slice(b"return 0; }")?;
    Ok(source)
}

/// Whether a source of nearly a mebibyte has a core.
fn is_long_core(alloc: Global, source: &[u8]) -> Result<bool, Memory> {
    let run = plain(alloc, BUILD, Some(source))?;
    let long = 1_000_000 <= source.len() && source.len() <= 1_048_576;
    Ok(long && has_core(&run))
}

#[test]
fn a_mebibyte_has_a_core(rt: HostRuntime) -> Result<(), Fail> {
    let alloc = rt.alloc();
    for (first, before, after, times, last) in NUMBERED {
        let source = numbered(alloc, first, before, after, *times, last)?;
        assert!(rt; is_long_core(alloc, source.as_slice())?);
    }
    let deep = in_scopes(alloc, 650)?;
    assert!(rt; is_long_core(alloc, deep.as_slice())?);
    Ok(())
}
