//! Words of a table.

ghost use Rattle.std.specs.Prelude.{◌≡◌, map};
ghost use Rattle.xan_read.specs.Code.{Gives, entry_view};
ghost use Rattle.xan_read.specs.Words.{word};

use crate::fault::Fault;
use crate::literals::literal;

/// What the word at the front stands for, and the bytes behind it. No word of the table begins another.
/// Where no word comes, the place is as far as some word goes on as the bytes do.
#[tactic(auto, unfolding(crate::specs::Words::word_from))]
pub fn word<'a, T: Copy>(bytes: &'a [u8], table: &[(&[u8], T)]) -> Result<(T, &'a [u8]), Fault>
    ensures { Gives (λ x. (x.0, x.1.now)) result (word (map entry_view table.now) bytes.now) }
{
    let mut left = bytes.len();
    let mut entries = table;
    'table: while let [(text, value), others @ ..] = entries {
        match literal(bytes, text) {
            Ok(rest) => return Ok((*value, rest)),
            Err(fault) => left = left.min(fault.left),
        }
        entries = others;
    }
    Err(Fault { left })
}
