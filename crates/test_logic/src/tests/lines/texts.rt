//! Texts of lines: how far they are read, and that they are written as they were read.
use proof_lines::{LineTextError, read_lines, write_lines};
use std::alloc::Global;
use std::test::Fail;

// How many lines a text of a test may have.
const ROOM: usize = 100;

/// Bytes, and how many of them begin lines where they are none.
const TEXTS: &[(&[u8], Option<u64>)] = &[
    (b"by g", None),
    (b"by g;h +0;c 1 0 1 1;t 2 3", None),
    (
        b"by c -9223372036854775808 0 9223372036854775807 4294967295",
        None,
    ),
    (b"by t 4294967295 -9223372036854775808;t 0 0", None),
    (
        b"by h +4611686018427387903v0-4611686018427387903v4294967295-4611686018427387903",
        None,
    ),
    (
        b"by h +1v0+1v1+1v2+1v3+1v4+1v5+1v6+1v7+1v8+1v9+1v10+1v11+1v12+1v13+1v14+1v15+0",
        None,
    ),
    (
        b"by h +1v0+1v1+1v2+1v3+1v4+1v5+1v6+1v7+1v8+1v9+1v10+1v11+1v12+1v13+1v14+1v15+1v16+0",
        Some(77),
    ),
    (b"", Some(0)),
    (b"by", Some(2)),
    (b"by ", Some(3)),
    (b"by x", Some(3)),
    (b"by hg", Some(4)),
    (b"by g\n", Some(4)),
    (b"by g g", Some(4)),
    (b"by g;", Some(5)),
    (b"by h 0", Some(5)),
    (b"by h -0", Some(6)),
    (b"by h +00", Some(7)),
    (b"by h +0v1+0", Some(7)),
    (b"by h +1v1+1v0+0", Some(12)),
    (b"by h +1v2+1v1+0", Some(13)),
    (b"by h +1v4294967295+1v5+0", Some(20)),
    (b"by h +1v4294967296+0", Some(17)),
    (b"by h +4611686018427387904", Some(24)),
    (b"by c -9223372036854775809 0 1 1", Some(24)),
    (b"by c 9223372036854775808 0 1 1", Some(23)),
    (b"by c 1 0  1 1", Some(9)),
    (b"by c 1 0 1", Some(10)),
    (b"by t 4294967296 1", Some(14)),
    (b"by t 0 -0", Some(8)),
    (b"by t 0 01", Some(8)),
];

/// Lines of each kind.
const LONG: &[u8] =
    b"by h +2v0-1v3+0;g;c 1 0 1 1;t 2 3;h -1;c -17 3 9223372036854775807 4294967295;t 0 -5;g";

// Whether the bytes are read, or refused with this length.
fn is_read(alloc: Global, text: &[u8], fault: Option<u64>) -> bool {
    match read_lines(alloc, text) {
        Ok(_) => fault.is_none(),
        Err(LineTextError::Fault { at }) => fault == Some(at),
        Err(LineTextError::Memory) => false,
    }
}

// Whether the lines of a text are written as they were read.
fn is_written(alloc: Global, text: &[u8]) -> Result<bool, LineTextError> {
    let lines = read_lines(alloc, text)?;
    let mut out = Vec::new(alloc);
    if lines.is_empty() || lines.len() > ROOM || write_lines(lines.as_slice(), &mut out).is_err() {
        return Ok(false);
    }
    Ok(out.as_slice() == text)
}

#[test]
fn texts_are_read_to_the_byte(rt: HostRuntime) -> Result<(), Fail> {
    for (text, fault) in TEXTS {
        assert!(rt; is_read(rt.alloc(), text, *fault));
    }
    for end in 0..LONG.len() {
        let front = &LONG[..end];
        assert!(rt;
            is_read(rt.alloc(), front, Some(end as u64)) || is_read(rt.alloc(), front, None)
        );
    }
    Ok(())
}

#[test]
fn texts_are_written_as_they_were_read(rt: HostRuntime) -> Result<(), Fail> {
    assert!(rt; is_written(rt.alloc(), LONG)?);
    for (text, fault) in TEXTS {
        assert!(rt; fault.is_some() || is_written(rt.alloc(), text)?);
    }
    Ok(())
}
