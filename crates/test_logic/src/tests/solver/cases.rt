//! The systems of the table.
use linear_solver::Answer;
use xan_lin::LimitKind;

/// Rows, a goal, the answer, and the text of the lines where it is `Proved` (empty: any that are accepted).
pub(crate) type Case = (&'static [u8], &'static [u8], Answer, &'static [u8]);

/// Systems whose answers were found by hand.
pub(crate) const CASES: &[Case] = &[
    // Twice v0 is at least 1 and at most 1: no integer is so, and each row alone becomes one of v0 by a cut.
    (
        b"by h +2v0-1;h -2v0+1",
        b"by h +1v0-5",
        Answer::Proved,
        b"by h +2v0-1;t 0 2;h -2v0+1;t 2 2;c 1 1 1 3",
    ),
    // v0 is at least 1, and may be 1.
    (b"by h +2v0-1", b"by h +1v0-2", Answer::Unproved, b""),
    // The opposite of the goal is past the bound, and one less is at it.
    (
        b"",
        b"by h +4611686018427387903",
        Answer::Limit(LimitKind::Magnitude),
        b"",
    ),
    (b"", b"by h +4611686018427387902", Answer::Proved, b"by g"),
    // An index of a loop: v1 + 1 is at least 0, since v1 is. v0 goes first: nothing bounds it from above.
    (
        b"by h +1v0+0;h +1v1+0;h +1v0-1v1+0;h +1v0-1v1-1",
        b"by h +1v1+1",
        Answer::Proved,
        b"by h +1v1+0;g;c 1 0 1 1",
    ),
    // A goal without variables: it holds, it does not.
    (b"by h +1v0+0", b"by h +0", Answer::Proved, b"by g"),
    (b"by h +1v0+0", b"by h -1", Answer::Unproved, b""),
    // It sees constant rows alone: v0 is at least 0 and at most -1, so that all follows, and this is not found.
    (b"by h +1v0+0;h -1v0-1", b"by h -1", Answer::Unproved, b""),
    // A negative constant row among the hypotheses proves all.
    (b"by h -1", b"by h +1v5+0", Answer::Proved, b"by h -1"),
    (b"by h +1v0+0;h -1", b"by h -1", Answer::Proved, b"by h -1"),
    // A constant row of at least 0 says nothing.
    (b"by h +5", b"by h -1", Answer::Unproved, b""),
    // Of two constant rows the least stays, as of all rows with equal coefficients.
    (b"by h -1;h -3", b"by h -1", Answer::Proved, b"by h -3"),
    // The goal is a row, and is one less or one more than a row.
    (
        b"by h +1v0-3",
        b"by h +1v0-3",
        Answer::Proved,
        b"by h +1v0-3;g;c 1 0 1 1",
    ),
    (
        b"by h +1v0-3",
        b"by h +1v0-2",
        Answer::Proved,
        b"by h +1v0-3;g;c 1 0 1 1",
    ),
    (b"by h +1v0-3", b"by h +1v0-4", Answer::Unproved, b""),
    // An upper bound: here the opposite of the goal is the positive row, and comes first in the sum.
    (
        b"by h -1v0+5",
        b"by h -1v0+5",
        Answer::Proved,
        b"by h -1v0+5;g;c 1 1 1 0",
    ),
    // v0 <= v1 <= v2: all three variables have one pair, and the least goes first.
    (
        b"by h -1v0+1v1+0;h -1v1+1v2+0",
        b"by h -1v0+1v2+0",
        Answer::Proved,
        b"by h -1v0+1v1+0;h -1v1+1v2+0;g;c 1 2 1 0;c 1 3 1 1",
    ),
    (
        b"by h -1v0+1v1+0;h -1v1+1v2+0",
        b"by h -1v0+1v2-1",
        Answer::Unproved,
        b"",
    ),
    // v0 <= v1 says nothing of v1 <= v0.
    (
        b"by h -1v0+1v1+0",
        b"by h +1v0-1v1+0",
        Answer::Unproved,
        b"",
    ),
    // 2 v0 >= 3 v1 and v1 >= 4: v0 >= 6. The sum -3 v1 + 10 is divided by 3.
    (
        b"by h +2v0-3v1+0;h +1v1-4",
        b"by h +1v0-6",
        Answer::Proved,
        b"by h +2v0-3v1+0;h +1v1-4;g;c 1 0 2 2;t 3 3;c 1 1 1 4",
    ),
    (
        b"by h +2v0-3v1+0;h +1v1-4",
        b"by h +1v0-7",
        Answer::Unproved,
        b"",
    ),
    // Coefficients 4 and -6 take the multipliers 3 and 2: 4 v0 >= v1 and v1 >= 6 v0 + 1 give v1 <= -2.
    (
        b"by h +4v0-1v1+0;h -6v0+1v1-1",
        b"by h -1v1-2",
        Answer::Proved,
        b"by h +4v0-1v1+0;h -6v0+1v1-1;g;c 3 0 2 1;c 1 2 1 3",
    ),
    // 27 <= 11 v0 + 13 v1 <= 45 and -10 <= 7 v0 - 9 v1 <= 4 have rational solutions and no integer ones; v0 is left from 1 to 2.
    (
        b"by h +11v0+13v1-27;h -11v0-13v1+45;h +7v0-9v1+10;h -7v0+9v1+4",
        b"by h +1v0-1000",
        Answer::Unproved,
        b"",
    ),
    // 2 v0 - 2 v1 = 1 has no integers, which two cuts show.
    (
        b"by h +2v0-2v1-1;h -2v0+2v1+1",
        b"by h +1v0+0",
        Answer::Proved,
        b"by h +2v0-2v1-1;t 0 2;h -2v0+2v1+1;t 2 2;c 1 3 1 1",
    ),
    // v0 + v1 = 2 v2 and v0 - v1 = 2 v3 + 1 have no integers, but v2 and v3 go first, and that v0 + v1 is even goes with them.
    (
        b"by h +1v0+1v1-2v2+0;h -1v0-1v1+2v2+0;h +1v0-1v1-2v3-1;h -1v0+1v1+2v3+1",
        b"by h +1v0+0",
        Answer::Unproved,
        b"",
    ),
    // Three cuts: v0 >= 1, v1 >= 1, v0 + v1 <= 1. The sum takes the place of the goal, whose constant is greater.
    (
        b"by h +2v0-1;h +2v1-1;h -2v0-2v1+3",
        b"by h +1v0-9",
        Answer::Proved,
        b"by h +2v0-1;t 0 2;h +2v1-1;t 2 2;h -2v0-2v1+3;t 4 2;c 1 3 1 5;c 1 1 1 6",
    ),
    // With one of them less all is well: v0 = 1, v1 = 1.
    (
        b"by h +2v0-1;h +2v1-1;h -2v0-2v1+4",
        b"by h +1v0-9",
        Answer::Unproved,
        b"",
    ),
    // Rows that share no variable with the goal, even over others, bear on nothing: v7 has no value, and this is not found.
    (
        b"by h +1v0-3;h +1v7-1;h -1v7+0",
        b"by h +1v0-4",
        Answer::Unproved,
        b"",
    ),
    // Over one row they do.
    (
        b"by h +1v0-3;h +1v7-1;h -1v7+0;h +1v0+1v7+9",
        b"by h +1v0-4",
        Answer::Proved,
        b"by h +1v7-1;h -1v7+0;c 1 0 1 1",
    ),
    // A chain of three: each variable has one pair.
    (
        b"by h +1v0-1v1+0;h +1v1-1v2+0;h +1v2-5",
        b"by h +1v0-5",
        Answer::Proved,
        b"by h +1v0-1v1+0;h +1v1-1v2+0;h +1v2-5;g;c 1 0 1 3;c 1 1 1 4;c 1 2 1 5",
    ),
    // Of equal coefficients the least constant stays, at the first one's place.
    (
        b"by h +1v0-1;h +1v0-3",
        b"by h +1v0-3",
        Answer::Proved,
        b"by h +1v0-3;g;c 1 0 1 1",
    ),
    (
        b"by h +1v0-3;h +1v0-1",
        b"by h +1v0-3",
        Answer::Proved,
        b"by h +1v0-3;g;c 1 0 1 1",
    ),
    // The opposite of the goal takes the first place: -v0 + 3 in place of -v0 + 5.
    (
        b"by h -1v0+5;h +1v0-4",
        b"by h +1v0-4",
        Answer::Proved,
        b"by g;h +1v0-4;c 1 1 1 0",
    ),
    // Of equal rows the first stays: twice v0 is at least 3, and so v0 at least 2, which the second row says.
    (
        b"by h +2v0-3;h +1v0-2",
        b"by h +1v0-2",
        Answer::Proved,
        b"by h +2v0-3;t 0 2;g;c 1 1 1 2",
    ),
    // Floors below 0 and above.
    (
        b"by h +3v0-7",
        b"by h +1v0-3",
        Answer::Proved,
        b"by h +3v0-7;t 0 3;g;c 1 1 1 2",
    ),
    (b"by h +3v0-7", b"by h +1v0-4", Answer::Unproved, b""),
    (
        b"by h -3v0+7",
        b"by h -1v0+2",
        Answer::Proved,
        b"by h -3v0+7;t 0 3;g;c 1 2 1 1",
    ),
    (b"by h -3v0+7", b"by h -1v0+1", Answer::Unproved, b""),
    // The divisor is that of all coefficients.
    (
        b"by h +2v0+2v1-4",
        b"by h +1v0+1v1-2",
        Answer::Proved,
        b"by h +2v0+2v1-4;t 0 2;g;c 1 1 1 2",
    ),
    (
        b"by h +4v0+6v1-3",
        b"by h +2v0+3v1-2",
        Answer::Proved,
        b"by h +4v0+6v1-3;t 0 2;g;c 1 1 1 2",
    ),
    // The opposite of the goal is tightened as well: 2 v0 >= 1 follows from v0 >= 1.
    (
        b"by h +1v0-1",
        b"by h +2v0-1",
        Answer::Proved,
        b"by h +1v0-1;g;t 1 2;c 1 0 1 2",
    ),
    // A variable of which nothing is known.
    (b"by h +1v0+0", b"by h +1v1+0", Answer::Unproved, b""),
    // Half of at least 7 is at least 3: v1 is v0 over 2. One sum of the first round is 1 and is dropped.
    (
        b"by h +1v0-2v1+0;h -1v0+2v1+1;h +1v0-7",
        b"by h +1v1-3",
        Answer::Proved,
        b"by h -1v0+2v1+1;h +1v0-7;g;c 1 1 1 0;t 3 2;c 1 4 1 2",
    ),
    // The middle of a binary search, v3 = (v0 + v1) / 2, is an index: 0 <= v0 < v1 <= v2.
    (
        b"by h +1v0+0;h -1v0+1v1+0;h -1v1+1v2+0;h -1v0+1v1-1;h +1v0+1v1-2v3+0;h -1v0-1v1+2v3+1",
        b"by h +1v3+0",
        Answer::Proved,
        b"",
    ),
    (
        b"by h +1v0+0;h -1v0+1v1+0;h -1v1+1v2+0;h -1v0+1v1-1;h +1v0+1v1-2v3+0;h -1v0-1v1+2v3+1",
        b"by h +1v2-1v3-1",
        Answer::Proved,
        b"",
    ),
    (
        b"by h +1v0+0;h -1v0+1v1+0;h -1v1+1v2+0;h +1v0+1v1-2v3+0;h -1v0-1v1+2v3+1",
        b"by h +1v2-1v3-1",
        Answer::Unproved,
        b"",
    ),
    // The constant of a sum at the bound, and past it, though the goal follows.
    (
        b"by h +1v0-4611686018427387903",
        b"by h +1v0-1",
        Answer::Proved,
        b"by h +1v0-4611686018427387903;g;c 1 0 1 1",
    ),
    (
        b"by h +1v0-4611686018427387903",
        b"by h +1v0+0",
        Answer::Limit(LimitKind::Magnitude),
        b"",
    ),
    // A coefficient of a sum at the bound, past it, and past it where tightening would have made it 1.
    (
        b"by h +1v0+4611686018427387902v1+0;h -1v0+1v1+0",
        b"by h +1v1+0",
        Answer::Proved,
        b"by h +1v0+4611686018427387902v1+0;h -1v0+1v1+0;g;c 1 0 1 1;t 3 4611686018427387903;c 1 4 1 2",
    ),
    (
        b"by h +1v0+4611686018427387903v1+0;h -1v0+1v1+0",
        b"by h +1v1+0",
        Answer::Limit(LimitKind::Magnitude),
        b"",
    ),
    (
        b"by h +1v0+4611686018427387902v1+0;h -1v0+2v1+0",
        b"by h +1v1+0",
        Answer::Limit(LimitKind::Magnitude),
        b"",
    ),
    // v0 and v1 have four pairs each, and v0 goes: its first sum is -1, and its last is past the bound. All pairs are taken.
    (
        b"by h +1v0-1;h -1v0+0;h +1v0+1v1-4611686018427387903;h -1v0-1v1-1;h +1v1+5;h -1v1+5",
        b"by h +1v0-9",
        Answer::Limit(LimitKind::Magnitude),
        b"",
    ),
];
