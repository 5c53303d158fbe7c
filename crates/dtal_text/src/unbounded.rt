//! Lists of any number of items, with a byte between two and a mark at the end.

ghost use Rattle.std.specs.Prelude.{◌≡◌};
ghost use Rattle.dtal_text.specs.Listings.{listed_item, listed_next, always, same};

use crate::chain::Chained;
use std::alloc::Global;
use xan_read::{Production, ReadError, after, literal};

/// Such a list. Its state is whether no item has come.
#[derive(Drop)]
pub struct Unbounded<P> {
    /// The byte between two items.
    pub between: u8,
    /// The byte at the end.
    pub mark: u8,
    /// What an item is.
    pub item: P,
}

impl<P: Production> Chained for Unbounded<P> {
    type State = (bool, ());

    type Item = P::Value;

    ghost use Rattle.dtal_text.specs.Listings.{listed_item, listed_next, always, same};

    ghost reader = { λ list state. listed_item list.between list.mark always (λ _. P.reader list.item) state };

    ghost behind = { λ list state item. listed_next same state item };

    fn read<'a>(
        &self,
        alloc: Global,
        state: (bool, ()),
        bytes: &'a [u8],
    ) -> Result<(Option<P::Value>, &'a [u8]), ReadError> {
        match after(bytes, self.mark) {
            Some(rest) => Ok((None, rest)),
            None => {
                if state.0 {
                    let (value, rest) = self.item.read(alloc, bytes)?;
                    return Ok((Some(value), rest));
                }
                let rest = literal(bytes, &[self.between])?;
                let (value, rest) = self.item.read(alloc, rest)?;
                Ok((Some(value), rest))
            }
        }
    }

    fn next(&self, _state: (bool, ()), _item: &P::Value) -> (bool, ()) {
        (false, ())
    }
}
