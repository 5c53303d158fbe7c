//! The reading of what is known at a label.

ghost use Rattle.std.specs.Prelude.{◌≡◌, ◌+◌, codes};
ghost use Rattle.xan_read.specs.Code.{Gives, Reads};
ghost use Rattle.xan_read.specs.Combinators.{made, behind};
ghost use Rattle.xan_read.specs.Numbers.{number};
ghost use Rattle.dtal_text.specs.LineReading.{place_from, typed_place_from, typed_places, label_state};

use crate::chain::{Chained, read_chain};
use crate::listed::read_listed;
use crate::types::{read_quantifier, read_ty};
use dtal_code::LabelState;
use state_types::{Places, Ty};
use std::alloc::Global;
use xan_read::{Fault, Production, ReadError, after, literal, number};

/// The greatest number of a place.
const LAST_PLACE: u64 = 255;

// A slot from a number on, as a place.
fn read_slot_from(bytes: &[u8], low: u64) -> Result<(u16, &[u8]), Fault>
    ensures { Gives (λ x. (x.0, x.1.now)) result (behind (codes "s") (made (λ n. n + 16) (number low 239)) bytes.now) }
{
    let (slot, rest) = number(literal(bytes, b"s")?, low, 239)?;
    Ok((slot as u16 + 16, rest))
}

// A place from a number on.
#[tactic(auto, unfolding(crate::specs::LineReading::place_from))]
fn read_place_from(bytes: &[u8], low: u64) -> Result<(u16, &[u8]), Fault>
    ensures { Gives (λ x. (x.0, x.1.now)) result (place_from low bytes.now) }
{
    if low >= 16 {
        return read_slot_from(bytes, low - 16);
    }
    match after(bytes, b'r') {
        Some(rest) => {
            let (register, rest) = number(rest, low, 15)?;
            Ok((register as u16, rest))
        }
        None => read_slot_from(bytes, 0),
    }
}

// A place from a number on, with its type.
#[derive(Drop)]
struct TypedPlace {
    low: u64,
}

impl Production for TypedPlace {
    type Value = (u16, Ty);

    ghost reader = { λ place. typed_place_from place.low };

    #[tactic(auto, unfolding(crate::specs::LineReading::typed_place_from))]
    fn read<'a>(&self, alloc: Global, bytes: &'a [u8]) -> Result<((u16, Ty), &'a [u8]), ReadError> {
        let _ = alloc;
        let (place, rest) = read_place_from(bytes, self.low)?;
        let (ty, rest) = read_ty(literal(rest, b":")?)?;
        Ok(((place, ty), rest))
    }
}

// Types of rising places. The state is whether none has come, and the least place that may.
struct TypedPlaces;

impl Chained for TypedPlaces {
    type State = (bool, u64);

    type Item = (u16, Ty);

    ghost use Rattle.dtal_text.specs.Listings.{listed_item, listed_next, is_up_to, above};
    ghost use Rattle.dtal_text.specs.LineReading.{typed_place_from};

    ghost reader = { λ _ state. listed_item 32 93 (is_up_to 255) typed_place_from state };

    ghost behind = { λ _ state item. listed_next above state item };

    #[tactic(auto, using(crate::proofs::ChainLoops::same_listed))]
    fn read<'a>(
        &self,
        alloc: Global,
        state: (bool, u64),
        bytes: &'a [u8],
    ) -> Result<(Option<(u16, Ty)>, &'a [u8]), ReadError> {
        let (first, low) = state;
        read_listed(
            alloc,
            b' ',
            b']',
            low <= LAST_PLACE,
            first,
            &TypedPlace { low },
            bytes,
        )
    }

    fn next(&self, _state: (bool, u64), item: &(u16, Ty)) -> (bool, u64) {
        (false, u64::from(item.0) + 1)
    }
}

// The types of places, and the end of the line.
fn read_typed_places(alloc: Global, bytes: &[u8]) -> Result<(Places, &[u8]), ReadError>
    ensures { Reads (λ x. (x.0, x.1.now)) result (typed_places bytes.now) }
{
    let (entries, rest) = read_chain(alloc, &TypedPlaces, (true, 0), bytes)?;
    let rest = literal(rest, b"\n")?;
    Ok((Places::from_vec(entries), rest))
}

/// What is known at a label, and the bytes behind its line.
#[tactic(auto, unfolding(crate::specs::LineReading::label_state))]
pub(crate) fn read_label_state(
    alloc: Global,
    bytes: &[u8],
) -> Result<(LabelState, &[u8]), ReadError>
    ensures { Reads (λ x. (x.0, x.1.now)) result (label_state bytes.now) }
{
    let ((vars, rows), rest) = read_quantifier(alloc, bytes)?;
    let (places, rest) = read_typed_places(alloc, literal(rest, b" [")?)?;
    Ok((LabelState { vars, rows, places }, rest))
}
