//! The reading of lines, as `c 1 0 1 1`.
ghost use Rattle.std.specs.Prelude.{◌≡◌, IfOk, IfErr, length};
ghost use Rattle.xan_read.specs.Code.{Gives, Reads};
ghost use Rattle.xan_read.specs.Reader.{whole_text};
ghost use Rattle.xan_read.specs.Words.{word};
ghost use Rattle.proof_lines.specs.Spelling.{IsLinesText, Refuses, said_of};
ghost use Rattle.proof_lines.specs.Reading.{multiple, two_multiples, division, kinds, operands, one_line, lines};

use crate::form_text::read_form;
use crate::line::Line;
use crate::text_error::LineTextError;
use std::alloc::Global;
use xan_read::{
    Fault, Production, ReadError, integer, literal, nothing_left, number, separated, word,
};

/// The greatest number of a row, and one more than the most lines behind the first.
const LAST_ROW: u64 = 4294967295;

/// The magnitude of the least multiplier.
const BELOW: u64 = 9223372036854775808;

/// The greatest multiplier.
const ABOVE: u64 = 9223372036854775807;

/// What a line begins with.
#[derive(Clone, Copy)]
pub(crate) enum Kind {
    Hyp,
    Goal,
    Comb,
    Cut,
}

// A multiplier and the number of its row.
#[tactic(auto, unfolding(crate::specs::Reading::multiple))]
fn read_multiple(bytes: &[u8]) -> Result<((i64, u32), &[u8]), Fault>
    ensures { Gives (λ x. (x.0, x.1.now)) result (multiple bytes.now) }
{
    let (by, rest) = integer(bytes, BELOW, ABOVE)?;
    let (row, rest) = number(literal(rest, b" ")?, 0, LAST_ROW)?;
    Ok(((by, row as u32), rest))
}

#[tactic(auto, unfolding(crate::specs::Reading::two_multiples))]
fn read_two_multiples(bytes: &[u8]) -> Result<(((i64, u32), (i64, u32)), &[u8]), Fault>
    ensures { Gives (λ x. (x.0, x.1.now)) result (two_multiples bytes.now) }
{
    let (left, rest) = read_multiple(bytes)?;
    let (right, rest) = read_multiple(literal(rest, b" ")?)?;
    Ok(((left, right), rest))
}

// The number of a row and its divisor.
#[tactic(auto, unfolding(crate::specs::Reading::division))]
fn read_division(bytes: &[u8]) -> Result<((u32, i64), &[u8]), Fault>
    ensures { Gives (λ x. (x.0, x.1.now)) result (division bytes.now) }
{
    let (row, rest) = number(bytes, 0, LAST_ROW)?;
    let (by, rest) = integer(literal(rest, b" ")?, BELOW, ABOVE)?;
    Ok(((row as u32, by), rest))
}

// What the line at the front is, and the bytes behind what tells it.
fn read_kind(bytes: &[u8]) -> Result<(Kind, &[u8]), Fault>
    ensures { Gives (λ x. (x.0, x.1.now)) result (word kinds bytes.now) }
{
    word(
        bytes,
        &[
            (b"h ".as_slice(), Kind::Hyp),
            (b"g".as_slice(), Kind::Goal),
            (b"c ".as_slice(), Kind::Comb),
            (b"t ".as_slice(), Kind::Cut),
        ],
    )
}

// What stands behind that.
#[tactic(auto, unfolding(crate::specs::Reading::operands))]
fn read_operands(bytes: &[u8], kind: Kind) -> Result<(Line, &[u8]), Fault>
    ensures { Gives (λ x. (x.0, x.1.now)) result (operands kind bytes.now) }
{
    match kind {
        Kind::Hyp => {
            let (form, rest) = read_form(bytes)?;
            Ok((Line::Hyp(form), rest))
        }
        Kind::Goal => Ok((Line::Goal, bytes)),
        Kind::Comb => {
            let (((left_by, left), (right_by, right)), rest) = read_two_multiples(bytes)?;
            Ok((
                Line::Comb {
                    left_by,
                    left,
                    right_by,
                    right,
                },
                rest,
            ))
        }
        Kind::Cut => {
            let ((row, by), rest) = read_division(bytes)?;
            Ok((Line::Cut { row, by }, rest))
        }
    }
}

/// The line at the front, and the bytes behind it, as `c 1 0 1 1`.
///
/// The fault stands where no line has the bytes so far (`docs/dtal.md`).
#[tactic(auto, unfolding(crate::specs::Reading::one_line))]
pub fn read_line(bytes: &[u8]) -> Result<(Line, &[u8]), Fault>
    ensures { Gives (λ x. (x.0, x.1.now)) result (one_line bytes.now) }
{
    let (kind, rest) = read_kind(bytes)?;
    read_operands(rest, kind)
}

// Lines as items of a list.
struct Lines;

impl Production for Lines {
    type Value = Line;

    ghost reader = { λ _. one_line };

    fn read<'a>(&self, alloc: Global, bytes: &'a [u8]) -> Result<(Line, &'a [u8]), ReadError> {
        let _ = alloc;
        Ok(read_line(bytes)?)
    }
}

#[tactic(auto, unfolding(crate::specs::Reading::lines))]
fn read_front(alloc: Global, bytes: &[u8]) -> Result<(Vec<Line>, &[u8]), ReadError>
    ensures { Reads (λ x. (x.0.items, x.1.now)) result (lines bytes.now) }
{
    let rest = literal(bytes, b"by ")?;
    separated(alloc, rest, b';', LAST_ROW - 1, &Lines)
}

fn read_whole(alloc: Global, bytes: &[u8]) -> Result<Vec<Line>, ReadError>
    ensures { Reads (λ x. x.items) result (whole_text lines bytes.now) }
{
    let (lines, rest) = read_front(alloc, bytes)?;
    nothing_left(rest)?;
    Ok(lines)
}

/// The lines that the bytes spell, as `by h +1v1+0;g;c 1 0 1 1`, in one walk over them. There is no newline at the end.
///
/// `Fault` comes exactly where they spell none, with the length of the longest front that begins some.
pub fn read_lines(alloc: Global, bytes: &[u8]) -> Result<Vec<Line>, LineTextError>
    ensures read { IfOk result (λ lines. IsLinesText lines.items bytes.now) }
    ensures refused { IfErr result (λ error. Refuses error bytes.now) }
{
    match read_whole(alloc, bytes) {
        Ok(lines) => Ok(lines),
        Err(e) => Err(said(e, bytes)),
    }
}

// The error that bytes are answered with which were not read.
fn said(e: ReadError, bytes: &[u8]) -> LineTextError
    ensures { result ≡ said_of e (length bytes.now) }
{
    match e {
        ReadError::Fault(fault) => LineTextError::Fault {
            at: fault.offset(bytes.len()) as u64,
        },
        ReadError::Memory => LineTextError::Memory,
    }
}
