//! Lists of items of a production.

ghost use Rattle.std.specs.Prelude.{◌≡◌, ℕ, List, Result, IfOk, length};
ghost use Rattle.xan_read.specs.Code.{Reads};
ghost use Rattle.xan_read.specs.Lists.{repeated, separated, closed, onto};

use crate::fault::ReadError;
use crate::literals::{after, literal};
use std::alloc::Global;

/// A production whose texts are items of lists. What the value of `self` is may bound the items.
pub trait Production {
    type Value: Drop;

    ghost reader: { Self → List ℕ → Result (Self.Value × List ℕ) ℕ };

    /// The value at the front, and the bytes behind its text.
    fn read<'a>(&self, alloc: Global, bytes: &'a [u8]) -> Result<(Self::Value, &'a [u8]), ReadError>
        ensures { Reads (λ x. (x.0, x.1.now)) result (reader self.now bytes.now) };
}

/// The items, and behind them the ones that follow, each behind a byte `c` and at most `room` of them.
fn read_onto<'a, P: Production>(
    alloc: Global,
    made: Vec<P::Value>,
    bytes: &'a [u8],
    c: u8,
    room: u64,
    item: &P,
) -> Result<(Vec<P::Value>, &'a [u8]), ReadError>
    ensures { Reads (λ x. (x.0.items, x.1.now)) result (onto made.items (repeated c room (P.reader item.now) bytes.now)) }
{
    let mut items = made;
    let mut rest = bytes;
    'items: for _ in 0..room {
        match after(rest, c) {
            None => return Ok((items, rest)),
            Some(behind) => {
                let (value, others) = item.read(alloc, behind)?;
                items.push(value)?;
                rest = others;
            }
        }
    }
    Ok((items, rest))
}

/// The items at the front, each behind a byte `c` and at most `room` of them, and the bytes behind them.
#[tactic(auto, using(crate::proofs::ListLoops::onto_none))]
pub fn repeated<'a, P: Production>(
    alloc: Global,
    bytes: &'a [u8],
    c: u8,
    room: u64,
    item: &P,
) -> Result<(Vec<P::Value>, &'a [u8]), ReadError>
    ensures { Reads (λ x. (x.0.items, x.1.now)) result (repeated c room (P.reader item.now) bytes.now) }
{
    read_onto(alloc, Vec::new(alloc), bytes, c, room, item)
}

/// The items at the front with a byte `c` between two, one and at most `room` more, and the bytes behind them.
#[tactic(auto, unfolding(crate::specs::Lists::separated))]
pub fn separated<'a, P: Production>(
    alloc: Global,
    bytes: &'a [u8],
    c: u8,
    room: u64,
    item: &P,
) -> Result<(Vec<P::Value>, &'a [u8]), ReadError>
    ensures { Reads (λ x. (x.0.items, x.1.now)) result (separated c room (P.reader item.now) bytes.now) }
{
    let (first, rest) = item.read(alloc, bytes)?;
    let mut items = Vec::new(alloc);
    items.push(first)?;
    read_onto(alloc, items, rest, c, room, item)
}

/// The items at the front with a byte `c` between two and at most `room` of them, the byte `end` behind the last, and
/// the bytes behind that.
#[tactic(auto, using(crate::proofs::ListLoops::closed_empty, crate::proofs::ListLoops::closed_some))]
pub fn closed<'a, P: Production>(
    alloc: Global,
    bytes: &'a [u8],
    c: u8,
    end: u8,
    room: u64,
    item: &P,
) -> Result<(Vec<P::Value>, &'a [u8]), ReadError>
    ensures { Reads (λ x. (x.0.items, x.1.now)) result (closed c end room (P.reader item.now) bytes.now) }
{
    if room == 0 {
        let rest = literal(bytes, &[end])?;
        return Ok((Vec::new(alloc), rest));
    }
    if let Some(rest) = after(bytes, end) {
        return Ok((Vec::new(alloc), rest));
    }
    let (items, rest) = separated(alloc, bytes, c, room - 1, item)?;
    let rest = literal(rest, &[end])?;
    Ok((items, rest))
}
