//! Pairs of words: what they are read as and written as again, and pairs that code nothing.

use dtal_code::{decode, encode};
use std::test::Fail;

// Whether the pair codes an instruction that is coded in this pair again.
fn is_pair(first: u64, second: u64) -> bool {
    let Some(op) = decode(first, second) else {
        return false;
    };
    let (one, two) = encode(&op);
    one == first && two == second
}

// One pair of each instruction, byte 0 last.
const PAIRS: &[(u64, u64)] = &[
    (0x0f_01, 0xffff_ffff_ffff_ffff),
    (0x01_02_02, 0),
    (0xff_10_03, 0),
    (16_777_732, 0),
    (0x03_02_01_05, 0),
    (0x03_02_01_06, 0),
    (0x03_02_01_07, 0),
    (0x03_02_01_08, 0),
    (0x03_03_02_01_09, 0),
    (0x02_01_03_0a, 7),
    (0x01_0b, 0xffff_ffff_ffff_ffff),
    (0x01_0c, 7),
    (0x0d, 7),
    (0xffff_ffff_00_02_ff_0e, 0xff_10),
    (0xff_0f, 0),
    (0x01_02_10, 0),
    (0x03_02_01_11, 0),
    (0x03_02_01_12, 0),
    (0xffff_03_02_01_13, 0),
    (0x0002_00_08_10_14, 0x0807_0605_0403_0201),
    (0x0002_00_01_10_15, 0xff),
    (0x0f_16, 0),
];

// No instruction, a byte that must be 0, a register past the last, a truth value past 1, a comparison past the last, nine places,
// a place behind the last one, a type past the last.
const OTHERS: &[(u64, u64)] = &[
    (0, 0),
    (0x17, 0),
    (0x01_00_01_01, 0),
    (0x10_01, 0),
    (0x02_02_02, 0),
    (16_777_732, 1),
    (0x04_03_02_01_09, 0),
    (0x02_01_04_0a, 7),
    (0x01_0d, 7),
    (0x09_ff_0e, 0),
    (0x01_ff_0e, 0x01_01),
    (0x01_01_ff_0e, 0x01),
    (0x0001_0000_0001_10_14, 0),
    (0x0001_0000_03_02_01_13, 0),
];

fn all_are(pairs: &[(u64, u64)], wanted: bool) -> bool {
    for (first, second) in pairs {
        if is_pair(*first, *second) != wanted {
            return false;
        }
    }
    true
}

#[test]
fn each_instruction_has_its_pair(rt: HostRuntime) -> Result<(), Fail> {
    assert!(rt; all_are(PAIRS, true));
    Ok(())
}

#[test]
fn other_pairs_code_nothing(rt: HostRuntime) -> Result<(), Fail> {
    assert!(rt; all_are(OTHERS, false));
    Ok(())
}
