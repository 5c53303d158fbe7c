//! The instructions that work on blocks of the store.

#![tactic(auto, using(crate::proofs::ReadPlaces::places_read), unfolding(dtal_code::specs::Running::words_in, dtal_code::specs::Running::with_words))]

ghost use Rattle.std.specs.Prelude.{◌≡◌, ◌≤◌, true, IsSome, length};
ghost use Rattle.dtal_code.specs.Guessed.{bytes_in};
ghost use Rattle.dtal_code.specs.Instructions.{instruction_of};
ghost use Rattle.dtal_code.specs.declared.limits.TheConstants.{PLACES, MOST_LISTED};
ghost use Rattle.dtal_code.specs.declared.object.RunOp.TheVariants as op;
ghost use Rattle.operation_rules.specs.FlatWords.{is_whole};
ghost use Rattle.dtal_machine.specs.Acting.{HasRoom, flat, left_by, leaves, after_block};

use crate::done::Done;
use crate::event::End;
use crate::places::{put, put_listed, read_listed, word};
use crate::store::{Store, cell, length_of, make_array, make_tuple, parts, set_cell};

/// `len`.
pub(crate) fn len(rd: u8, ra: u8, top: &mut [i64], store: &Store) -> Done
    requires places { length top.old ≡ PLACES }
    requires room { HasRoom store.now }
    requires goes { IsSome (left_by (instruction_of (op.Len rd ra)) top.old (flat store.now)) }
    ensures { left_by (instruction_of (op.Len rd ra)) top.old (flat store.now) ≡ leaves result top.new (flat store.now) }
{
    let length = length_of(store, word(top, ra));
    put(top, rd, length)
}

/// `ld`.
pub(crate) fn ld(rd: u8, ra: u8, ri: u8, top: &mut [i64], store: &Store) -> Done
    requires places { length top.old ≡ PLACES }
    requires room { HasRoom store.now }
    requires goes { IsSome (left_by (instruction_of (op.Ld rd ra ri)) top.old (flat store.now)) }
    ensures { left_by (instruction_of (op.Ld rd ra ri)) top.old (flat store.now) ≡ leaves result top.new (flat store.now) }
{
    let loaded = cell(store, word(top, ra), word(top, ri));
    put(top, rd, loaded)
}

/// `st`.
pub(crate) fn st(ra: u8, ri: u8, rv: u8, top: &[i64], store: &mut Store) -> Done
    requires places { length top.now ≡ PLACES }
    requires room { HasRoom store.old }
    requires whole { is_whole store.old.words.items ≡ true }
    requires goes { IsSome (left_by (instruction_of (op.St ra ri rv)) top.now (flat store.old)) }
    ensures left { left_by (instruction_of (op.St ra ri rv)) top.now (flat store.old) ≡ leaves result top.now (flat store.new) }
    ensures room { HasRoom store.new }
    ensures heap { store.new.heap ≡ store.old.heap }
{
    set_cell(store, word(top, ra), word(top, ri), word(top, rv));
    Done::GoesOn
}

// The address of a new block goes to a place; or there is no room for it.
fn put_block(top: &mut [i64], place: u8, made: Option<i64>) -> Done
    requires { length top.old ≡ PLACES }
    ensures { after_block top.old place made ≡ (result, top.new) }
{
    match made {
        Some(address) => put(top, place, address),
        None => Done::Ends(End::NoStore),
    }
}

/// `new`.
pub(crate) fn new(rd: u8, cells: u32, rn: u8, rv: u8, top: &mut [i64], store: &mut Store) -> Done
    requires places { length top.old ≡ PLACES }
    requires room { HasRoom store.old }
    requires goes { IsSome (left_by (instruction_of (op.New rd cells rn rv)) top.old (flat store.old)) }
    ensures left { left_by (instruction_of (op.New rd cells rn rv)) top.old (flat store.old) ≡ leaves result top.new (flat store.new) }
    ensures room { HasRoom store.new }
    ensures heap { store.new.heap ≡ store.old.heap }
{
    let made = make_array(store, cells, word(top, rn), word(top, rv));
    put_block(top, rd, made)
}

/// `tup`, with its parts listed in the second word.
pub(crate) fn tup(
    p: u8,
    number: u32,
    count: u8,
    second: u64,
    top: &mut [i64],
    store: &mut Store,
) -> Done
    requires places { length top.old ≡ PLACES }
    requires few { count ≤ MOST_LISTED }
    requires room { HasRoom store.old }
    ensures left { left_by (instruction_of (op.Tup p number (record { items = bytes_in count second }))) top.old (flat store.old) ≡ leaves result top.new (flat store.new) }
    ensures room { HasRoom store.new }
    ensures heap { store.new.heap ≡ store.old.heap }
{
    let cells = read_listed(top, count, second);
    let made = make_tuple(store, number, cells.as_slice());
    put_block(top, p, made)
}

/// `untup`, with the places listed in the second word.
pub(crate) fn untup(
    number: u32,
    q: u8,
    count: u8,
    second: u64,
    top: &mut [i64],
    store: &Store,
) -> Done
    requires places { length top.old ≡ PLACES }
    requires room { HasRoom store.now }
    requires whole { is_whole store.now.words.items ≡ true }
    requires goes { IsSome (left_by (instruction_of (op.Untup number q (record { items = bytes_in count second }))) top.old (flat store.now)) }
    ensures { left_by (instruction_of (op.Untup number q (record { items = bytes_in count second }))) top.old (flat store.now) ≡ leaves result top.new (flat store.now) }
{
    let cells = parts(store, number, count, word(top, q));
    put_listed(top, second, cells);
    Done::GoesOn
}
