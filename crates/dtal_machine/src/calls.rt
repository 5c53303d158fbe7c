//! Calls and returns.

ghost use Rattle.std.specs.Prelude.{◌≡◌, ◌+◌, ◌-◌, ◌*◌, ◌^◌, ◌<◌, ◌≤◌, ℤ, All, IsSome, Some, None, [], ◌∷◌, ◌++◌, length, drop, take, slice_get, slice_set, vec_capacity};
ghost use Rattle.dtal_code.specs.Places.{places_of};
ghost use Rattle.dtal_code.specs.Guessed.{first_of, second_of, high_of, bytes_in};
ghost use Rattle.dtal_code.specs.Machine.{returns};
ghost use Rattle.dtal_code.specs.Running.{begins};
ghost use Rattle.dtal_code.specs.declared.limits.TheConstants.{PLACES, MOST_LISTED};
ghost use Rattle.dtal_machine.specs.Acting.{read_words};
ghost use Rattle.dtal_machine.specs.Stacks.{HasShape, HasCaller, state_of, top_of, callers_of, base_of, outcome};

use crate::done::Acted;
use crate::event::End;
use crate::places::read_listed;
use crate::run::{Caller, Run};
use crate::words::{byte, high};
use dtal_code::limits::PLACES;

// How many words the places of all callers have.
pub(crate) fn base(run: &Run) -> usize
    requires { HasShape run.now }
    ensures base { result ≡ base_of run.now }
    ensures top { result + PLACES ≡ length run.now.places.items }
{
    run.places.len() - PLACES as usize
}

/// Appends the places of an activation that begins with these words, for which there is room.
pub(crate) fn put_places(places: &mut Vec<i64>, words: &[i64])
    requires few { length words.now ≤ MOST_LISTED }
    requires room { length places.old.items + PLACES ≤ vec_capacity places.old }
    ensures places { places.new.items ≡ places.old.items ++ places_of words.now }
    ensures room { vec_capacity places.old ≤ vec_capacity places.new }
{
    let end = places.len() + PLACES as usize;
    let Ok(()) = places.extend_from_slice(words) else {
        unreachable!()
    };
    let Ok(()) = places.resize(end, 0) else {
        unreachable!()
    };
}

// The words of the places that a call lists.
fn put_called(places: &mut Vec<i64>, base: usize, count: u8, second: u64)
    requires top { base + PLACES ≡ length places.old.items }
    requires few { count ≤ MOST_LISTED }
    requires room { length places.old.items + PLACES ≤ vec_capacity places.old }
    ensures places { places.new.items ≡ places.old.items ++ places_of (read_words (drop base places.old.items) (bytes_in count second)) }
    ensures room { vec_capacity places.old ≤ vec_capacity places.new }
{
    let words = read_listed(&places.as_slice()[base..], count, second);
    put_places(places, words.as_slice());
}

/// `call`: the function begins with the words of the listed places, where there may be an activation more.
pub(crate) fn call(first: u64, second: u64, starts: &[u64], run: &mut Run) -> Acted
    requires shape { HasShape run.old }
    requires at { run.old.at < 2 ^ 63 }
    requires few { second_of first ≤ MOST_LISTED }
    requires there { IsSome (slice_get starts.now (high_of first)) }
    ensures exact { begins (state_of run.old) (top_of run.old ∷ callers_of run.old) (slice_get starts.now (high_of first)) (first_of first ∷ [])
        (read_words (top_of run.old).places (bytes_in (second_of first) second)) ≡ outcome result (state_of run.new) }
    ensures shape { HasShape run.new }
{
    if run.depth <= run.callers.len() as u64 + 1 {
        return Acted::Ends(End::NoStore);
    }
    let base = base(run);
    put_called(&mut run.places, base, byte(first, 65_536), second);
    let caller = Caller {
        at: run.at,
        result_to: run.result_to,
    };
    let Ok(()) = run.callers.push(caller) else {
        unreachable!()
    };
    run.at = starts[high(first) as usize];
    run.result_to = Some(byte(first, 256));
    Acted::GoesOn
}

// A place among those of an activation.
fn place_within(place: u8) -> usize
    ensures same { result ≡ place }
    ensures within { result < PLACES }
{
    usize::from(place)
}

// The places of the uppermost activation go, and the word stands in a place of its caller.
fn put_result(places: &mut Vec<i64>, base: usize, place: usize, word: i64)
    requires place { place < PLACES }
    requires top { base + PLACES ≡ length places.old.items }
    requires caller { PLACES ≤ base }
    ensures places { places.new.items ≡ slice_set (take base places.old.items) (base - PLACES + place) word }
    ensures room { vec_capacity places.new ≡ vec_capacity places.old }
{
    places.truncate(base);
    places[base - PLACES as usize + place] = word;
}

/// `ret`: the activation ends, and its caller goes on with the word of the place.
pub(crate) fn give(first: u64, run: &mut Run) -> Acted
    requires shape { HasShape run.old }
    requires caller { HasCaller run.old.result_to (length run.old.callers.items) }
    ensures exact { (word : ℤ) → slice_get (top_of run.old).places (first_of first) ≡ Some word
        → returns (state_of run.old) run.old.result_to (callers_of run.old) word ≡ outcome result (state_of run.new) }
    ensures shape { HasShape run.new }
{
    let base = base(run);
    let word = run.places[base + usize::from(byte(first, 256))];
    let Some(place) = run.result_to else {
        return Acted::Ends(End::Returned(word));
    };
    let Some(caller) = run.callers.pop() else {
        unreachable!()
    };
    put_result(&mut run.places, base, place_within(place), word);
    run.at = caller.at + 1;
    run.result_to = caller.result_to;
    Acted::GoesOn
}
