// Lists and contexts at their bounds, and one past them.
use crate::reading::{fault_of, said_of};
use std::alloc::Global;
use std::test::Fail;
use xan_io::Memory;

/// What comes between, so many times.
#[derive(Drop)]
struct Many<'a> {
    before: &'a [u8],
    piece: &'a [u8],
    times: usize,
    behind: &'a [u8],
}

fn with_pieces(alloc: Global, text: &Many<'_>) -> Result<Vec<u8>, Memory> {
    let mut made = Vec::from_slice(alloc, text.before)?;
    for _ in 0..text.times {
        made.extend_from_slice(text.piece)?;
    }
    made.extend_from_slice(text.behind)?;
    Ok(made)
}

/// Whether this is said of the text.
fn is_said(alloc: Global, text: &Many<'_>, line: &[u8]) -> Result<bool, Memory> {
    let text = with_pieces(alloc, text)?;
    let said = said_of(alloc, text.as_slice())?;
    Ok(said.as_slice() == line)
}

const MAIN: &[u8] = b"fun main {0|} () {0|} int(+0)\nli r0 0\nret r0\nend\n";

const ACCEPTED: &[u8] = b"accepted: 1 functions, 2 instructions\n";

#[test]
fn a_type_lists_512_rows(rt: HostRuntime) -> Result<(), Fail> {
    let mut text = Many {
        before: b"dtal 1\ntype {0|+0",
        piece: b";+0",
        times: 511,
        behind: b"} cell bool\nfun main {0|} () {0|} int(+0)\nli r0 0\nret r0\nend\n",
    };
    assert!(rt; is_said(rt.alloc(), &text, ACCEPTED)?);
    text.times = 512;
    assert!(rt; is_said(rt.alloc(), &text, b"refused: type 2: rule size\n")?);
    Ok(())
}

#[test]
fn a_signature_lists_512_rows(rt: HostRuntime) -> Result<(), Fail> {
    let mut text = Many {
        before: b"dtal 1\nfun main {0|+0",
        piece: b";+0",
        times: 511,
        behind: b"} () {0|} int(+0)\nli r0 0\nret r0\nend\n",
    };
    assert!(rt; is_said(rt.alloc(), &text, ACCEPTED)?);
    text.times = 512;
    assert!(rt; is_said(rt.alloc(), &text, b"refused: function 0: rule size\n")?);
    Ok(())
}

#[test]
fn a_context_has_1024_variables(rt: HostRuntime) -> Result<(), Fail> {
    let mut text = Many {
        before: b"dtal 1\nfun main {1|} (int(+1v0+0)) {0|} int(+0)\n",
        piece: b"mul r1 r0 r0\n",
        times: 1023,
        behind: b"li r0 0\nret r0\nend\n",
    };
    let accepted = b"accepted: 1 functions, 1025 instructions\n";
    assert!(rt; is_said(rt.alloc(), &text, accepted)?);
    text.times = 1024;
    let refused = b"refused: function 0 instruction 1023: rule size\n";
    assert!(rt; is_said(rt.alloc(), &text, refused)?);
    Ok(())
}

#[test]
fn a_text_has_65534_types(rt: HostRuntime) -> Result<(), Fail> {
    let mut text = Many {
        before: b"dtal 1\n",
        piece: b"type {0|} cell bool\n",
        times: 65534,
        behind: MAIN,
    };
    let longest = with_pieces(rt.alloc(), &text)?;
    assert!(rt; fault_of(rt.alloc(), longest.as_slice())?.is_none());
    text.times = 65535;
    let longer = with_pieces(rt.alloc(), &text)?;
    assert!(rt; fault_of(rt.alloc(), longer.as_slice())? == Some(1310687));
    Ok(())
}
