//! The instruction that two words code, where it neither calls nor returns.

ghost use Rattle.std.specs.Prelude.{◌≡◌, true, IsSome, length};
ghost use Rattle.dtal_code.specs.Guessed.{guessed, going, listing};
ghost use Rattle.dtal_code.specs.declared.limits.TheConstants.{PLACES};
ghost use Rattle.operation_rules.specs.FlatWords.{is_whole};
ghost use Rattle.dtal_machine.specs.Acting.{HasRoom, flat, left_of, leaves};

use crate::arithmetic::{add, bf, br, bt, div, lb, li, mul, mv, print, rem, set, sub};
use crate::blocks::{ld, len, new, st, tup, untup};
use crate::done::Done;
use crate::store::Store;
use crate::words::{byte, high};

/// Does the instruction that the two words code, over the places of the uppermost activation and the store.
pub(crate) fn perform(first: u64, second: u64, top: &mut [i64], store: &mut Store) -> Done
    requires places { length top.old ≡ PLACES }
    requires room { HasRoom store.old }
    requires whole { is_whole store.old.words.items ≡ true }
    requires goes { IsSome (left_of (guessed first second) top.old (flat store.old)) }
    ensures left { left_of (guessed first second) top.old (flat store.old) ≡ leaves result top.new (flat store.new) }
    ensures room { HasRoom store.new }
    ensures heap { store.new.heap ≡ store.old.heap }
{
    let a = byte(first, 256);
    let b = byte(first, 65_536);
    let c = byte(first, 16_777_216);
    match first % 256 {
        1 => li(a, second, top),
        2 => lb(a, b, top),
        3 => mv(a, b, top),
        4 => add(a, b, c, top),
        5 => sub(a, b, c, top),
        6 => mul(a, b, c, top),
        7 => div(a, b, c, top),
        8 => rem(a, b, c, top),
        9 => set(high(first), a, b, c, top),
        opcode => perform_going(opcode, first, second, top, store),
    }
}

// The same of those that go elsewhere, and of the others behind them.
fn perform_going(opcode: u64, first: u64, second: u64, top: &mut [i64], store: &mut Store) -> Done
    requires places { length top.old ≡ PLACES }
    requires room { HasRoom store.old }
    requires whole { is_whole store.old.words.items ≡ true }
    requires goes { IsSome (left_of (going opcode first second) top.old (flat store.old)) }
    ensures left { left_of (going opcode first second) top.old (flat store.old) ≡ leaves result top.new (flat store.new) }
    ensures room { HasRoom store.new }
    ensures heap { store.new.heap ≡ store.old.heap }
{
    let a = byte(first, 256);
    let b = byte(first, 65_536);
    let c = byte(first, 16_777_216);
    match opcode {
        10 => br(a, b, c, second, top),
        11 => bt(a, second, top),
        12 => bf(a, second, top),
        13 => Done::JumpsTo(second),
        16 => len(a, b, top, store),
        17 => ld(a, b, c, top, store),
        18 => st(a, b, c, top, store),
        19 => new(a, high(first), b, c, top, store),
        22 => print(a, top),
        _ => perform_listing(opcode, first, second, top, store),
    }
}

// The same of those that list places.
fn perform_listing(opcode: u64, first: u64, second: u64, top: &mut [i64], store: &mut Store) -> Done
    requires places { length top.old ≡ PLACES }
    requires room { HasRoom store.old }
    requires whole { is_whole store.old.words.items ≡ true }
    requires goes { IsSome (left_of (listing opcode first second) top.old (flat store.old)) }
    ensures left { left_of (listing opcode first second) top.old (flat store.old) ≡ leaves result top.new (flat store.new) }
    ensures room { HasRoom store.new }
    ensures heap { store.new.heap ≡ store.old.heap }
{
    let p = byte(first, 256);
    let count = byte(first, 65_536);
    match opcode {
        20 => tup(p, high(first), count, second, top, store),
        21 => untup(high(first), p, count, second, top, store),
        _ => unreachable!(),
    }
}
