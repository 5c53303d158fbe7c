//! Lines by hand, and what the check answers.
use proof_lines::{BadLine, Why};

/// Rows as lines that name them, a goal as one such line, lines, and the answer.
pub(crate) type Case = (
    &'static [u8],
    &'static [u8],
    &'static [u8],
    Result<(), BadLine>,
);

/// Lines whose answers were found by hand.
pub(crate) const CASES: &[Case] = &[
    // A goal of a loop's head: v1 + 1 is at least 0, since v1 is.
    (
        b"by h +1v0+0;h +1v1+0;h +1v0-1v1+0;h +1v0-1v1-1",
        b"by h +1v1+1",
        b"by h +1v1+0;g;c 1 0 1 1",
        Ok(()),
    ),
    // The same lines for the goal -1, and lines with a negative multiplier, and without the last line.
    (
        b"by h +1v0+0;h +1v1+0;h +1v0-1v1+0;h +1v0-1v1-1",
        b"by h -1",
        b"by h +1v1+0;g;c 1 0 1 1",
        Err(BadLine {
            at: 3,
            why: Why::NotRefuted,
        }),
    ),
    (
        b"by h +1v0+0;h +1v1+0;h +1v0-1v1+0;h +1v0-1v1-1",
        b"by h +1v1+1",
        b"by h +1v0-1v1+0;h +1v0-1v1-1;c -1 0 1 1",
        Err(BadLine {
            at: 2,
            why: Why::Multiplier,
        }),
    ),
    (
        b"by h +1v0+0;h +1v1+0;h +1v0-1v1+0;h +1v0-1v1-1",
        b"by h +1v1+1",
        b"by h +1v1+0;g",
        Err(BadLine {
            at: 2,
            why: Why::NotRefuted,
        }),
    ),
    // Only 1/2 meets both rows: the cuts round down.
    (
        b"by h +2v0-1;h -2v0+1",
        b"by h +1v0-5",
        b"by h +2v0-1;t 0 2;h -2v0+1;t 2 2;c 1 1 1 3",
        Ok(()),
    ),
    (
        b"by h +2v0-1;h -2v0+1",
        b"by h +1v0-5",
        b"by h -2v0+1;h +2v0-1;c 1 0 1 1",
        Err(BadLine {
            at: 3,
            why: Why::NotRefuted,
        }),
    ),
    // Rows that are not listed, also one that holds in any case.
    (
        b"by h +1v0+0",
        b"by h +0",
        b"by h +1v0+1",
        Err(BadLine {
            at: 0,
            why: Why::NotInContext,
        }),
    ),
    (
        b"by h +1v0+0",
        b"by h +0",
        b"by g;h +5",
        Err(BadLine {
            at: 1,
            why: Why::NotInContext,
        }),
    ),
    (
        b"by h +1v0+0",
        b"by h +0",
        b"by h +1v0+0;h -1v0+0",
        Err(BadLine {
            at: 1,
            why: Why::NotInContext,
        }),
    ),
    // Rows that no line before gives come before multipliers.
    (
        b"by h +1v0+0",
        b"by h +0",
        b"by h +1v0+0;c 0 1 1 0",
        Err(BadLine {
            at: 1,
            why: Why::NoSuchRow,
        }),
    ),
    (
        b"by h +1v0+0",
        b"by h +0",
        b"by h +1v0+0;c 0 0 1 4294967295",
        Err(BadLine {
            at: 1,
            why: Why::NoSuchRow,
        }),
    ),
    (
        b"by h +1v0+0",
        b"by h +0",
        b"by t 0 0",
        Err(BadLine {
            at: 0,
            why: Why::NoSuchRow,
        }),
    ),
    // Multipliers and divisors below 1 come before what does not divide.
    (
        b"by h +1v0+0",
        b"by h +0",
        b"by h +1v0+0;c 1 0 0 0",
        Err(BadLine {
            at: 1,
            why: Why::Multiplier,
        }),
    ),
    (
        b"by h +3v0+0",
        b"by h +0",
        b"by h +3v0+0;t 0 0",
        Err(BadLine {
            at: 1,
            why: Why::Multiplier,
        }),
    ),
    (
        b"by h +3v0+0",
        b"by h +0",
        b"by h +3v0+0;t 0 -9223372036854775808",
        Err(BadLine {
            at: 1,
            why: Why::Multiplier,
        }),
    ),
    (
        b"by h +4v0-6v1+3",
        b"by h +0",
        b"by h +4v0-6v1+3;t 0 4",
        Err(BadLine {
            at: 1,
            why: Why::NotDivisible,
        }),
    ),
    (
        b"by h +4v0-6v1+3",
        b"by h +0",
        b"by h +4v0-6v1+3;t 0 2;t 1 1",
        Err(BadLine {
            at: 3,
            why: Why::NotRefuted,
        }),
    ),
    // Numbers at the bound, from both sides.
    (
        b"by h -4611686018427387903",
        b"by h +0",
        b"by h -4611686018427387903;t 0 9223372036854775807",
        Ok(()),
    ),
    (
        b"by h -2305843009213693951",
        b"by h +0",
        b"by h -2305843009213693951;c 1 0 1 0",
        Ok(()),
    ),
    (
        b"by h -2305843009213693952",
        b"by h +0",
        b"by h -2305843009213693952;c 1 0 1 0",
        Err(BadLine {
            at: 1,
            why: Why::TooLarge,
        }),
    ),
    (
        b"by h +4611686018427387903v9-1",
        b"by h +0",
        b"by h +4611686018427387903v9-1;c 9223372036854775807 0 9223372036854775807 0",
        Err(BadLine {
            at: 1,
            why: Why::TooLarge,
        }),
    ),
    (b"", b"by h +4611686018427387902", b"by g", Ok(())),
    (
        b"",
        b"by h +4611686018427387903",
        b"by g",
        Err(BadLine {
            at: 0,
            why: Why::TooLarge,
        }),
    ),
    // Each row times its own multiplier.
    (
        b"by h +1v0+0;h -2v0-1",
        b"by h +0",
        b"by h -2v0-1;h +1v0+0;c 1 0 2 1",
        Ok(()),
    ),
    (
        b"by h +1v0+0;h -2v0-1",
        b"by h +0",
        b"by h -2v0-1;h +1v0+0;c 2 0 1 1",
        Err(BadLine {
            at: 3,
            why: Why::NotRefuted,
        }),
    ),
    // The last row alone counts, and its constant must be negative.
    (
        b"by h +1v0+0;h -1v0+0;h -1",
        b"by h +0",
        b"by h +1v0+0;h -1v0+0;c 1 0 1 1",
        Err(BadLine {
            at: 3,
            why: Why::NotRefuted,
        }),
    ),
    (b"by h +1v0+0;h -1v0+0;h -1", b"by h +0", b"by h -1", Ok(())),
    (
        b"by h +1v0+0;h -1v0+0;h -1",
        b"by h +0",
        b"by h -1;h +1v0+0;h -1v0+0;c 1 1 1 2",
        Err(BadLine {
            at: 4,
            why: Why::NotRefuted,
        }),
    ),
];
