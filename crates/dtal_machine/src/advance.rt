//! A step over object words.

ghost use Rattle.std.specs.Prelude.{◌≡◌, ◌≢◌, ◌+◌, ◌*◌, ◌^◌, ◌<◌, ◌≤◌, true, IsSome, Some, None, length, drop, take, slice_get, option_map};
ghost use Rattle.dtal_code.specs.Guessed.{guessed};
ghost use Rattle.dtal_code.specs.Machine.{Off};
ghost use Rattle.dtal_code.specs.Running.{step};
ghost use Rattle.xan_io.specs.Outcome.{Stuck};
ghost use Rattle.dtal_machine.specs.CodedWords.{code_in, StandsAt};
ghost use Rattle.dtal_code.specs.declared.limits.TheConstants.{PLACES};
ghost use Rattle.operation_rules.specs.FlatWords.{is_whole};
ghost use Rattle.dtal_machine.specs.Acting.{HasRoom, flat, left_of, leaves};
ghost use Rattle.dtal_machine.specs.Stacks.{HasShape, state_of, top_of, callers_of, next_of, settled, outcome};

use crate::calls::{base, call, give};
use crate::done::{Acted, Done};
use crate::perform::perform;
use crate::run::Run;
use crate::store::Store;

// Does an instruction over the uppermost places.
fn perform_above(
    first: u64,
    second: u64,
    base: usize,
    places: &mut [i64],
    store: &mut Store,
) -> Done
    requires top { base + PLACES ≡ length places.old }
    requires room { HasRoom store.old }
    requires whole { is_whole store.old.words.items ≡ true }
    requires goes { IsSome (left_of (guessed first second) (drop base places.old) (flat store.old)) }
    ensures left { left_of (guessed first second) (drop base places.old) (flat store.old) ≡ leaves result (drop base places.new) (flat store.new) }
    ensures below { take base places.new ≡ take base places.old }
    ensures length { length places.new ≡ length places.old }
    ensures room { HasRoom store.new }
    ensures heap { store.new.heap ≡ store.old.heap }
{
    let (_, top) = places.split_at_mut(base);
    perform(first, second, top, store)
}

// The activation stands where it goes on.
fn settle(done: Done, at: &mut u64) -> Acted
    requires { at.old < 2 ^ 63 }
    ensures { settled done at.old ≡ (result, at.new) }
{
    match done {
        Done::GoesOn => {
            *at += 1;
            Acted::GoesOn
        }
        Done::JumpsTo(to) => {
            *at = to;
            Acted::GoesOn
        }
        Done::Prints(number) => {
            *at += 1;
            Acted::Prints(number)
        }
        Done::Ends(end) => Acted::Ends(end),
    }
}

/// Does an instruction that neither calls nor returns.
pub(crate) fn go(first: u64, second: u64, run: &mut Run) -> Acted
    requires shape { HasShape run.old }
    requires at { run.old.at < 2 ^ 63 }
    requires whole { is_whole run.old.store.words.items ≡ true }
    requires goes { IsSome (left_of (guessed first second) (top_of run.old).places (flat run.old.store)) }
    ensures exact { option_map (next_of (state_of run.old) (top_of run.old) (callers_of run.old)) (left_of (guessed first second) (top_of run.old).places (flat run.old.store))
        ≡ Some (outcome result (state_of run.new)) }
    ensures shape { HasShape run.new }
{
    let base = base(run);
    let done = perform_above(
        first,
        second,
        base,
        run.places.as_mut_slice(),
        &mut run.store,
    );
    settle(done, &mut run.at)
}

/// Makes a step: the instruction at which the uppermost activation stands, as its two words code it.
pub(crate) fn advance(words: &[u64], starts: &[u64], run: &mut Run) -> Acted
    requires shape { HasShape run.old }
    requires whole { is_whole run.old.store.words.items ≡ true }
    requires stands { StandsAt words.now run.old.at }
    requires goes { step (code_in words.now starts.now) (state_of run.old) ≢ Off Stuck }
    ensures exact { step (code_in words.now starts.now) (state_of run.old) ≡ outcome result (state_of run.new) }
    ensures shape { HasShape run.new }
{
    let at = run.at as usize;
    let first = words[2 * at];
    let second = words[2 * at + 1];
    match first % 256 {
        14 => call(first, second, starts, run),
        15 => give(first, run),
        _ => go(first, second, run),
    }
}
