//! Lists of so many items at most, with a byte between two and a mark at the end.

ghost use Rattle.std.specs.Prelude.{◌≡◌};
ghost use Rattle.dtal_text.specs.Listings.{listed_item, listed_next, has_room, less_room};

use crate::chain::Chained;
use std::alloc::Global;
use xan_read::{Production, ReadError, after, literal};

/// Such a list. Its state is whether no item has come, and for how many more there is room.
#[derive(Drop)]
pub struct Bounded<P> {
    /// The byte between two items.
    pub between: u8,
    /// The byte at the end.
    pub mark: u8,
    /// What an item is.
    pub item: P,
}

impl<P: Production> Chained for Bounded<P> {
    type State = (bool, u64);

    type Item = P::Value;

    ghost use Rattle.dtal_text.specs.Listings.{listed_item, listed_next, has_room, less_room};

    ghost reader = { λ list state. listed_item list.between list.mark has_room (λ _. P.reader list.item) state };

    ghost behind = { λ list state item. listed_next less_room state item };

    fn read<'a>(
        &self,
        alloc: Global,
        state: (bool, u64),
        bytes: &'a [u8],
    ) -> Result<(Option<P::Value>, &'a [u8]), ReadError> {
        let (first, room) = state;
        if room == 0 {
            let rest = literal(bytes, &[self.mark])?;
            return Ok((None, rest));
        }
        match after(bytes, self.mark) {
            Some(rest) => Ok((None, rest)),
            None => {
                if first {
                    let (value, rest) = self.item.read(alloc, bytes)?;
                    return Ok((Some(value), rest));
                }
                let rest = literal(bytes, &[self.between])?;
                let (value, rest) = self.item.read(alloc, rest)?;
                Ok((Some(value), rest))
            }
        }
    }

    fn next(&self, state: (bool, u64), _item: &P::Value) -> (bool, u64) {
        (false, state.1.saturating_sub(1))
    }
}
