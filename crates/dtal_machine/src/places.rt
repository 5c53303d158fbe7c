//! The places of an activation.

ghost use Rattle.std.specs.Prelude.{◌≡◌, ◌≤◌, Some, None, length, slice_get, slice_set};
ghost use Rattle.dtal_code.specs.Guessed.{bytes_in};
ghost use Rattle.dtal_code.specs.Running.{with_words};
ghost use Rattle.dtal_code.specs.declared.limits.TheConstants.{PLACES, MOST_LISTED};
ghost use Rattle.operation_rules.specs.Effects.{Ends};
ghost use Rattle.dtal_machine.specs.Acting.{read_words};

use crate::done::Done;
use crate::event::End;
use arrayvec::ArrayVec;

/// The word of a place.
pub(crate) fn word(top: &[i64], place: u8) -> i64
    requires { length top.now ≡ PLACES }
    ensures { slice_get top.now place ≡ Some result }
{
    top[usize::from(place)]
}

/// Writes a word into a place.
pub(crate) fn put(top: &mut [i64], place: u8, word: i64) -> Done
    requires { length top.old ≡ PLACES }
    ensures goes_on { result ≡ Done.GoesOn }
    ensures written { top.new ≡ slice_set top.old place word }
{
    top[usize::from(place)] = word;
    Done::GoesOn
}

/// The words of so many listed places, the first in the lowest byte of the list.
#[tactic(auto, unfolding(dtal_code::specs::Guessed::bytes_in))]
pub(crate) fn read_listed(top: &[i64], count: u8, list: u64) -> ArrayVec<i64, 8>
    requires places { length top.now ≡ PLACES }
    requires few { count ≤ MOST_LISTED }
    ensures words { result.items ≡ read_words top.now (bytes_in count list) }
    ensures count { length result.items ≡ count }
{
    let mut words = ArrayVec::new();
    let mut left = count;
    let mut rest = list;
    'each: while 0 < left {
        words.push(word(top, (rest % 256) as u8));
        rest /= 256;
        left -= 1;
    }
    words
}

/// Writes words into the listed places, in order.
#[tactic(auto, unfolding(dtal_code::specs::Guessed::bytes_in, dtal_code::specs::Running::with_words))]
pub(crate) fn put_listed(top: &mut [i64], list: u64, mut words: &[i64])
    requires { length top.old ≡ PLACES }
    ensures { with_words top.old (bytes_in (length words.entry.now) list) words.entry.now ≡ Some top.new }
{
    let mut rest = list;
    'each: while let [word, later @ ..] = words {
        top[(rest % 256) as usize] = *word;
        rest /= 256;
        words = later;
    }
}
