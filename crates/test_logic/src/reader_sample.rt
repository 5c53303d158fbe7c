//! A sample grammar: a production of three lines, read and printed, and one that uses every combinator.

ghost use Rattle.std.specs.Prelude.{◌≡◌, ◌≤◌, ◌++◌, OnOk};
ghost use Rattle.xan_read.specs.Code.{Gives, Reads};
ghost use Rattle.xan_read.specs.Reader.{Exact, ReadsWhole};
ghost use Rattle.xan_read.specs.Numbers.{NoDigit, number};
ghost use Rattle.test_logic.specs.ReaderSample.{transfer, spelled_transfer, IsTransfer, Line, line, IsLine, register, slots, coefficient, one_integer, optional_integer, values};

use std::alloc::{AllocError, Global};
use xan_lin::BOUND;
use xan_read::{
    Fault, Production, ReadError, after, closed, integer, literal, name, number, push_number,
    repeated, separated, signed, word,
};

/// Reads `mv r3 r15`.
#[tactic(auto, unfolding(crate::specs::ReaderSample::transfer))]
pub fn read_transfer(bytes: &[u8]) -> Result<((u64, u64), &[u8]), Fault>
    ensures { Gives (λ x. (x.0, x.1.now)) result (transfer bytes.now) }
{
    let (to, rest) = number(literal(bytes, b"mv r")?, 0, 15)?;
    let (from, rest) = number(literal(rest, b" r")?, 0, 15)?;
    Ok(((to, from), rest))
}

/// Puts the one spelling of a transfer at the end.
pub fn push_transfer(out: &mut Vec<u8>, to: u64, from: u64) -> Result<(), AllocError>
    ensures { OnOk result (out.new.items ≡ out.old.items ++ spelled_transfer (to, from)) }
{
    out.extend_from_slice(b"mv r")?;
    push_number(out, to)?;
    out.extend_from_slice(b" r")?;
    push_number(out, from)
}

/// What is read is spelled so, and the rest.
pub fn exact_transfer()
    ensures exact { Exact transfer IsTransfer NoDigit }
    ensures whole { ReadsWhole transfer IsTransfer }
{}

/// A slot of a line.
pub struct Slot;

impl Production for Slot {
    type Value = u64;

    ghost use Rattle.xan_read.specs.Numbers.{number};

    ghost reader = { λ _. number 0 239 };

    fn read<'a>(&self, alloc: Global, bytes: &'a [u8]) -> Result<(u64, &'a [u8]), ReadError> {
        Ok(number(bytes, 0, 239)?)
    }
}

/// A coefficient of a line.
pub struct Coefficient;

impl Production for Coefficient {
    type Value = i64;

    ghost use Rattle.test_logic.specs.ReaderSample.{coefficient};

    ghost reader = { λ _. coefficient };

    #[tactic(auto, unfolding(crate::specs::ReaderSample::coefficient))]
    fn read<'a>(&self, alloc: Global, bytes: &'a [u8]) -> Result<(i64, &'a [u8]), ReadError> {
        Ok(signed(bytes, 0, BOUND.unsigned_abs())?)
    }
}

#[tactic(auto, unfolding(crate::specs::ReaderSample::register))]
fn read_register(bytes: &[u8]) -> Result<(Option<u64>, &[u8]), Fault>
    ensures { Gives (λ x. (x.0, x.1.now)) result (register bytes.now) }
{
    match after(bytes, b':') {
        Some(rest) => {
            let (n, rest) = number(rest, 0, 15)?;
            Ok((Some(n), rest))
        }
        None => Ok((None, bytes)),
    }
}

#[tactic(auto, unfolding(crate::specs::ReaderSample::one_integer))]
fn read_one(alloc: Global, bytes: &[u8]) -> Result<(Vec<i64>, &[u8]), ReadError>
    ensures { Reads (λ x. (x.0.items, x.1.now)) result (one_integer bytes.now) }
{
    let (z, rest) = integer(bytes, 9223372036854775808, 9223372036854775807)?;
    let mut values = Vec::new(alloc);
    values.push(z)?;
    Ok((values, rest))
}

#[tactic(auto, unfolding(crate::specs::ReaderSample::optional_integer))]
fn read_optional(alloc: Global, bytes: &[u8]) -> Result<(Vec<i64>, &[u8]), ReadError>
    ensures { Reads (λ x. (x.0.items, x.1.now)) result (optional_integer bytes.now) }
{
    match bytes {
        [b, ..] if b.is_ascii_digit() || *b == b'-' => read_one(alloc, bytes),
        _ => Ok((Vec::new(alloc), bytes)),
    }
}

#[tactic(auto, unfolding(crate::specs::ReaderSample::values))]
fn read_values(alloc: Global, bytes: &[u8], kind: u8) -> Result<(Vec<i64>, &[u8]), ReadError>
    ensures { Reads (λ x. (x.0.items, x.1.now)) result (values kind bytes.now) }
{
    match kind {
        0 => read_optional(alloc, bytes),
        1 => closed(alloc, bytes, b',', b')', 3, &Coefficient),
        _ => separated(alloc, bytes, b'_', 1, &Coefficient),
    }
}

/// A name, a register, slots, the kind of the values and the values.
type Parts<'a> = (&'a [u8], Option<u64>, Vec<u64>, u8, Vec<i64>);

/// Reads a line, as `a:3/7=set (+1,-2).`
#[tactic(auto, unfolding(crate::specs::ReaderSample::line, crate::specs::ReaderSample::slots))]
pub fn read_line<'a>(alloc: Global, bytes: &'a [u8]) -> Result<(Parts<'a>, &'a [u8]), ReadError>
    ensures { Reads (λ x. (record { name = x.0.0.now; register = x.0.1; slots = x.0.2.items; kind = x.0.3; values = x.0.4.items }, x.1.now)) result (line bytes.now) }
{
    let (name, rest) = name(bytes, &[b"fun".as_slice(), b"let".as_slice()])?;
    let (register, rest) = read_register(rest)?;
    let (slots, rest) = repeated(alloc, rest, b'/', 2, &Slot)?;
    let rest = literal(rest, b"=")?;
    let (kind, rest) = word(
        rest,
        &[
            (b"int ".as_slice(), 0u8),
            (b"set (".as_slice(), 1),
            (b"sum ".as_slice(), 2),
        ],
    )?;
    let (values, rest) = read_values(alloc, rest, kind)?;
    let rest = literal(rest, b".")?;
    Ok(((name, register, slots, kind, values), rest))
}

/// The same of a line.
pub fn exact_line()
    ensures exact { Exact line IsLine (λ _. Unit {0}) }
    ensures whole { ReadsWhole line IsLine }
{}
