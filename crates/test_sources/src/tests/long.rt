//! Sources of about a mebibyte, which are read in time that grows with their length.

use crate::tests::answer;
use std::alloc::Global;
use std::test::Fail;
use xan_io::Memory;

/// A part, another one so often, and a last part.
fn repeated(
    alloc: Global,
    first: &[u8],
    part: &[u8],
    times: usize,
    last: &[u8],
) -> Result<Vec<u8>, Memory> {
    let mut source = Vec::from_slice(alloc, first)?;
    for _turn in 0..times {
        source.extend_from_slice(part)?;
    }
    source.extend_from_slice(last)?;
    Ok(source)
}

/// A front, what is repeated behind it and how often, and an end: statements, operands, functions.
const REPEATED: &[(&[u8], &[u8], usize, &[u8])] = &[
    (b"fun f(): unit { ", b"x = x + 1; ", 95_000, b"}"),
    (b"fun f(): unit { x = x", b" + x", 262_000, b"; }"),
    (b"", b"fun f(): unit { } ", 58_000, b""),
];

#[test]
fn a_mebibyte_has_a_tree(rt: HostRuntime) -> Result<(), Fail> {
    let alloc = rt.alloc();
    for (first, part, times, last) in REPEATED {
        let source = repeated(alloc, first, part, *times, last)?;
        assert!(rt; answer(alloc, source.as_slice()).is_some_and(|read| read.is_ok()));
    }
    Ok(())
}
