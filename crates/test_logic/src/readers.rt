//! What is read as numbers, integers and the sample's lines, with the places of the faults; what is printed.

use crate::reader_sample::{push_transfer, read_line};
use std::alloc::Global;
use std::test::Fail;
use xan_lin::BOUND;
use xan_read::{Fault, ReadError, integer, number, push_integer, push_signed, signed};

/// The largest coefficient.
const LARGE: u64 = BOUND as u64;

/// A number of a range, an integer of 64 bits, or a coefficient with a sign always.
#[derive(Clone, Copy)]
enum Kind {
    Number(u64, u64),
    Integer,
    Signed,
}

/// What is read, a text, the value where it has one, and how many bytes are left behind it or at the fault.
const ROWS: &[(Kind, &str, Option<i128>, usize)] = &[
    (Kind::Number(0, 65535), "", None, 0),
    (Kind::Number(0, 65535), "x", None, 1),
    (Kind::Number(0, 65535), "+0", None, 2),
    (Kind::Number(0, 65535), "-0", None, 2),
    (Kind::Number(1, 65535), "0", None, 1),
    (Kind::Number(1, 65535), "00", None, 2),
    (Kind::Number(1, LARGE), "0", None, 1),
    (Kind::Number(20, 65535), "16", None, 0),
    (Kind::Number(20, 65535), "1", None, 0),
    (Kind::Number(20, 65535), "1x", None, 1),
    (Kind::Number(16, 18), "9", None, 1),
    (Kind::Number(16, 18), "1", None, 0),
    (Kind::Number(16, 18), "15", None, 1),
    (Kind::Number(16, 18), "19", None, 1),
    (Kind::Number(16, 18), "2", None, 1),
    (Kind::Number(4, 27), "3", None, 1),
    (Kind::Number(4, 27), "30", None, 2),
    (Kind::Number(201, 209), "199", None, 3),
    (Kind::Number(201, 209), "21", None, 1),
    (Kind::Number(201, 209), "20", None, 0),
    (Kind::Number(201, 209), "200", None, 1),
    (Kind::Number(210, 65535), "209", None, 0),
    (Kind::Number(0, 15), "0", Some(0), 0),
    (Kind::Number(0, 15), "00", Some(0), 1),
    (Kind::Number(0, 15), "15", Some(15), 0),
    (Kind::Number(0, 15), "16", Some(1), 1),
    (Kind::Number(0, 15), "150", Some(15), 1),
    (Kind::Number(0, 239), "239", Some(239), 0),
    (Kind::Number(0, 239), "240", Some(24), 1),
    (Kind::Number(0, 239), "2390", Some(239), 1),
    (Kind::Number(0, 65535), "65535", Some(65535), 0),
    (Kind::Number(0, 65535), "65536", Some(6553), 1),
    (
        Kind::Number(0, 4294967295),
        "4294967295",
        Some(4294967295),
        0,
    ),
    (
        Kind::Number(0, 4294967295),
        "4294967296",
        Some(429496729),
        1,
    ),
    (
        Kind::Number(0, 4294967295),
        "42949672950",
        Some(4294967295),
        1,
    ),
    (
        Kind::Number(0, u64::MAX),
        "18446744073709551615",
        Some(18446744073709551615),
        0,
    ),
    (
        Kind::Number(0, u64::MAX),
        "18446744073709551616",
        Some(1844674407370955161),
        1,
    ),
    (
        Kind::Number(1, LARGE),
        "4611686018427387903v",
        Some(4611686018427387903),
        1,
    ),
    (
        Kind::Number(1, LARGE),
        "4611686018427387904",
        Some(461168601842738790),
        1,
    ),
    (Kind::Integer, "", None, 0),
    (Kind::Integer, "-", None, 0),
    (Kind::Integer, "-0", None, 1),
    (Kind::Integer, "--1", None, 2),
    (Kind::Integer, "+1", None, 2),
    (Kind::Signed, "", None, 0),
    (Kind::Signed, "+", None, 0),
    (Kind::Signed, "-", None, 0),
    (Kind::Signed, "-0", None, 1),
    (Kind::Signed, "0", None, 1),
    (Kind::Signed, "+-1", None, 2),
    (Kind::Integer, "0", Some(0), 0),
    (Kind::Integer, "-1", Some(-1), 0),
    (
        Kind::Integer,
        "9223372036854775807",
        Some(9223372036854775807),
        0,
    ),
    (
        Kind::Integer,
        "9223372036854775808",
        Some(922337203685477580),
        1,
    ),
    (
        Kind::Integer,
        "-9223372036854775808",
        Some(-9223372036854775808),
        0,
    ),
    (
        Kind::Integer,
        "-9223372036854775809",
        Some(-922337203685477580),
        1,
    ),
    (Kind::Signed, "+0", Some(0), 0),
    (Kind::Signed, "+00", Some(0), 1),
    (
        Kind::Signed,
        "-4611686018427387903",
        Some(-4611686018427387903),
        0,
    ),
    (
        Kind::Signed,
        "+4611686018427387904",
        Some(461168601842738790),
        1,
    ),
];

/// The value at the front and how many bytes are left behind it.
fn read(kind: Kind, bytes: &[u8]) -> Result<(i128, usize), Fault> {
    match kind {
        Kind::Number(low, high) => {
            let (value, rest) = number(bytes, low, high)?;
            Ok((i128::from(value), rest.len()))
        }
        Kind::Integer => {
            let (value, rest) = integer(bytes, 9223372036854775808, 9223372036854775807)?;
            Ok((i128::from(value), rest.len()))
        }
        Kind::Signed => {
            let (value, rest) = signed(bytes, 0, LARGE)?;
            Ok((i128::from(value), rest.len()))
        }
    }
}

/// The same where one is read or not.
fn read_or_fault(kind: Kind, bytes: &[u8]) -> (Option<i128>, usize) {
    match read(kind, bytes) {
        Ok((value, left)) => (Some(value), left),
        Err(fault) => (None, fault.left),
    }
}

#[test]
fn reads_numbers(rt: HostRuntime) {
    for (kind, text, value, left) in ROWS {
        assert!(rt;
            read_or_fault(*kind, text.as_bytes()) == (*value, *left),
            "{text}"
        );
    }
}

#[test]
fn prints(rt: HostRuntime) -> Result<(), Fail> {
    let mut out = Vec::new(rt.alloc());
    push_transfer(&mut out, 0, 15)?;
    push_integer(&mut out, -9223372036854775808)?;
    push_signed(&mut out, 0)?;
    push_signed(&mut out, -7)?;
    assert_eq!(rt;
        out.as_slice(),
        b"mv r0 r15-9223372036854775808+0-7".as_slice()
    );
    Ok(())
}

/// A line, and how many bytes are left at its fault.
const LINE_FAULTS: &[(&str, usize)] = &[
    ("", 0),
    ("A=int 1.", 8),
    ("9=int 1.", 8),
    ("_=int 1.", 8),
    ("a", 0),
    ("fun", 0),
    ("fun=int 1.", 7),
    ("let:1=int 1.", 9),
    ("funny", 0),
    ("a-", 1),
    ("a:", 0),
    ("a:16=int 1.", 8),
    ("a:00=int 1.", 8),
    ("a:-0=int 1.", 9),
    ("a:1", 0),
    ("a/", 0),
    ("a/240=int 1.", 8),
    ("a/1/2/3=int 1.", 9),
    ("a/1:2=int 1.", 9),
    ("a=", 0),
    ("a=x", 1),
    ("a=i", 0),
    ("a=in", 0),
    ("a=inx", 1),
    ("a=int1", 1),
    ("a=s", 0),
    ("a=sx", 1),
    ("a=se (", 2),
    ("a=sum(", 1),
    ("a=int ", 0),
    ("a=int -0.", 2),
    ("a=int 1", 0),
    ("a=int 1;", 1),
    ("a=set (", 0),
    ("a=set (1", 1),
    ("a=set (+1", 0),
    ("a=set (+1,", 0),
    ("a=set (+1,).", 2),
    ("a=set (+1,-2,+3,+4).", 5),
    ("a=sum +1_+2_+3.", 4),
];

const LINES: &[(&str, usize, usize, usize)] = &[
    ("a=int -9.", 1, 0, 1),
    ("a=int .", 1, 0, 0),
    ("funny:15/0/239=set ().", 5, 2, 0),
    ("fun_1=set (+1,-2,+3).", 5, 0, 3),
    ("letX=sum +0.", 4, 0, 1),
    ("a/1=sum +0_-1.", 1, 1, 2),
];

/// How long the name is, how many slots and values a line has, and how many bytes are left behind it.
fn shape(alloc: Global, text: &str) -> Result<(usize, usize, usize, usize), ReadError> {
    let (line, rest) = read_line(alloc, text.as_bytes())?;
    Ok((line.0.len(), line.2.len(), line.4.len(), rest.len()))
}

#[test]
fn reads_lines(rt: HostRuntime) {
    for (text, left) in LINE_FAULTS {
        assert!(rt;
            matches!(shape(rt.alloc(), text), Err(ReadError::Fault(fault)) if fault.left == *left),
            "{text}"
        );
    }
    for (text, name, slots, values) in LINES {
        assert!(rt;
            matches!(shape(rt.alloc(), text), Ok(found) if found == (*name, *slots, *values, 0)),
            "{text}"
        );
    }
}
