//! The reading of lists in which what an item may be hangs on those before it.

ghost use Rattle.std.specs.Prelude.{◌≡◌, ℕ, List, Option, Result};
ghost use Rattle.xan_read.specs.Code.{Reads};
ghost use Rattle.xan_read.specs.Lists.{onto};
ghost use Rattle.dtal_text.specs.Chains.{chain};
ghost use Rattle.dtal_text.specs.Listings.{some_bounded};

use crate::bounded::Bounded;
use std::alloc::Global;
use xan_read::{Fault, Production, ReadError};

/// A production whose texts are items of such lists, or the mark at their end.
pub trait Chained {
    type State: Copy;

    type Item: Drop;

    ghost reader: { Self → Self.State → List ℕ → Result (Option Self.Item × List ℕ) ℕ };

    ghost behind: { Self → Self.State → Self.Item → Self.State };

    /// The item at the front, or none where the mark is, and the bytes behind it.
    fn read<'a>(
        &self,
        alloc: Global,
        state: Self::State,
        bytes: &'a [u8],
    ) -> Result<(Option<Self::Item>, &'a [u8]), ReadError>
        ensures { Reads (λ x. (x.0, x.1.now)) result (reader self.now state bytes.now) };

    /// The state behind the item.
    fn next(&self, state: Self::State, item: &Self::Item) -> Self::State
        ensures { result ≡ behind self.now state item.now };
}

/// The items at the front up to the mark, and the bytes behind it.
#[tactic(auto, using(crate::proofs::ChainLoops::onto_none))]
pub fn read_chain<'a, C: Chained>(
    alloc: Global,
    chained: &C,
    first: C::State,
    bytes: &'a [u8],
) -> Result<(Vec<C::Item>, &'a [u8]), ReadError>
    ensures { Reads (λ x. (x.0.items, x.1.now)) result (chain (C.reader chained.now) (C.behind chained.now) first bytes.now) }
{
    read_onto(alloc, Vec::new(alloc), chained, first, bytes)
}

/// An item, and behind it the others up to the mark, and the bytes behind that.
pub(crate) fn read_some<'a, P: Production + Drop>(
    alloc: Global,
    between: u8,
    mark: u8,
    room: u64,
    item: P,
    bytes: &'a [u8],
) -> Result<(Vec<P::Value>, &'a [u8]), ReadError>
    ensures { Reads (λ x. (x.0.items, x.1.now)) result (some_bounded between mark room (P.reader item) bytes.now) }
{
    let (first, rest) = item.read(alloc, bytes)?;
    let mut items = Vec::new(alloc);
    items.push(first)?;
    let list = Bounded {
        between,
        mark,
        item,
    };
    read_onto(alloc, items, &list, (false, room.saturating_sub(1)), rest)
}

// These items, and behind them the ones at the front.
fn read_onto<'a, C: Chained>(
    alloc: Global,
    made: Vec<C::Item>,
    chained: &C,
    first: C::State,
    bytes: &'a [u8],
) -> Result<(Vec<C::Item>, &'a [u8]), ReadError>
    ensures { Reads (λ x. (x.0.items, x.1.now)) result (onto made.items (chain (C.reader chained.now) (C.behind chained.now) first bytes.now)) }
{
    let mut items = made;
    let mut state = first;
    let mut rest = bytes;
    'items: for _ in 0..bytes.len() {
        let (item, others) = chained.read(alloc, state, rest)?;
        match item {
            None => return Ok((items, others)),
            Some(found) => {
                state = chained.next(state, &found);
                items.push(found)?;
                rest = others;
            }
        }
    }
    let (item, others) = chained.read(alloc, state, rest)?;
    match item {
        None => Ok((items, others)),
        Some(_) => Err(ReadError::Fault(Fault { left: others.len() })),
    }
}
