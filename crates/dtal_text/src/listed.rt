//! An item of a list with a byte between two and a mark at the end.

ghost use Rattle.std.specs.Prelude.{◌≡◌};
ghost use Rattle.xan_read.specs.Code.{Reads};
ghost use Rattle.dtal_text.specs.Listings.{item_or_mark};

use std::alloc::Global;
use xan_read::{Production, ReadError, after, literal};

/// The item at the front where one may come, or none where the mark is, and the bytes behind it. No byte goes before the first item.
pub(crate) fn read_listed<'a, P: Production>(
    alloc: Global,
    between: u8,
    mark: u8,
    may: bool,
    first: bool,
    item: &P,
    bytes: &'a [u8],
) -> Result<(Option<P::Value>, &'a [u8]), ReadError>
    ensures { Reads (λ x. (x.0, x.1.now)) result (item_or_mark {T = Unit {0}} between mark (λ _. P.reader item.now) may first (tt {0}) bytes.now) }
{
    if !may {
        let rest = literal(bytes, &[mark])?;
        return Ok((None, rest));
    }
    if let Some(rest) = after(bytes, mark) {
        return Ok((None, rest));
    }
    let rest = if first {
        bytes
    } else {
        literal(bytes, &[between])?
    };
    let (value, rest) = item.read(alloc, rest)?;
    Ok((Some(value), rest))
}
