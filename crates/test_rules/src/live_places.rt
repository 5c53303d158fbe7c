//! Live places of the sum of an array, worked out by hand.

use crate::tests::plain_signature;
use std::alloc::Global;
use std::test::Fail;
use three_address::{LowFun, LowInstr, Op22, is_live_at, live_at_labels, live_positions};
use xan_io::Name;
use xan_seq::Seq;

// An instruction with its places, its number and its target.
fn instr(alloc: Global, op: Op22, places: &[u16], number: i64, target: u32) -> Option<LowInstr> {
    Some(LowInstr {
        op,
        places: Seq::from_vec(Vec::from_slice(alloc, places).ok()?),
        number,
        target,
    })
}

// The sum of an array: the array, the index and the sum are the places 0, 1 and 2, and 3 is a temporary. Label 1 is the loop's head, and label 2
// stands behind it.
fn sum_code(alloc: Global) -> Option<Vec<LowInstr>> {
    let mut code = Vec::new(alloc);
    code.push(instr(alloc, Op22::Li, &[1], 0, 0)?).ok()?;
    code.push(instr(alloc, Op22::Li, &[2], 0, 0)?).ok()?;
    code.push(instr(alloc, Op22::Jmp, &[], 0, 1)?).ok()?;
    code.push(instr(alloc, Op22::Len, &[3, 0], 0, 0)?).ok()?;
    code.push(instr(alloc, Op22::Br, &[3, 1], 1, 2)?).ok()?;
    code.push(instr(alloc, Op22::Ld, &[3, 0, 1], 0, 0)?).ok()?;
    code.push(instr(alloc, Op22::Add, &[2, 2, 3], 0, 0)?).ok()?;
    code.push(instr(alloc, Op22::Li, &[3], 1, 0)?).ok()?;
    code.push(instr(alloc, Op22::Add, &[1, 1, 3], 0, 0)?).ok()?;
    code.push(instr(alloc, Op22::Jmp, &[], 0, 1)?).ok()?;
    code.push(instr(alloc, Op22::Ret, &[2], 0, 0)?).ok()?;
    Some(code)
}

fn sum(alloc: Global) -> Option<LowFun> {
    Some(LowFun {
        name: Name::from_bytes(alloc, b"main").ok()?,
        sig: plain_signature(alloc)?,
        places: 4,
        code: Seq::from_vec(sum_code(alloc)?),
        labels: Seq::from_vec(Vec::from_slice(alloc, &[3, 10]).ok()?),
    })
}

// The positions at which a place is live, a star for each, and a point for each other one.
fn drawn(alloc: Global, fun: &LowFun, place: u16) -> Option<Vec<u8>> {
    let marks = live_positions(alloc, fun, place).ok()?;
    let mut text = Vec::new(alloc);
    for mark in marks.as_slice() {
        text.push(if *mark { b'*' } else { b'.' }).ok()?;
    }
    Some(text)
}

// The same of the four places at a label.
fn drawn_at(alloc: Global, columns: &[Seq<bool>], label: u32) -> Option<Vec<u8>> {
    let mut text = Vec::new(alloc);
    for place in 0..4 {
        text.push(if is_live_at(columns, label, place) {
            b'*'
        } else {
            b'.'
        })
        .ok()?;
    }
    Some(text)
}

#[test]
fn live_places_are_as_by_hand(rt: HostRuntime) -> Result<(), Fail> {
    let alloc = rt.alloc();
    let fun = sum(alloc).ok_or("memory")?;
    let array = drawn(alloc, &fun, 0).ok_or("memory")?;
    let index = drawn(alloc, &fun, 1).ok_or("memory")?;
    let result = drawn(alloc, &fun, 2).ok_or("memory")?;
    let temporary = drawn(alloc, &fun, 3).ok_or("memory")?;
    assert!(rt; array.as_slice() == b"**********.".as_slice());
    assert!(rt; index.as_slice() == b".*********.".as_slice());
    assert!(rt; result.as_slice() == b"..*********".as_slice());
    assert!(rt; temporary.as_slice() == b"....*.*.*..".as_slice());
    Ok(())
}

#[test]
fn labels_are_as_by_hand(rt: HostRuntime) -> Result<(), Fail> {
    let alloc = rt.alloc();
    let fun = sum(alloc).ok_or("memory")?;
    let columns = live_at_labels(alloc, &fun).map_err(|_| "memory")?;
    let head = drawn_at(alloc, columns.as_slice(), 1).ok_or("memory")?;
    let behind = drawn_at(alloc, columns.as_slice(), 2).ok_or("memory")?;
    assert!(rt; head.as_slice() == b"***.".as_slice());
    assert!(rt; behind.as_slice() == b"..*.".as_slice());
    Ok(())
}
