//! The instructions that work on the places of an activation alone.

#![tactic(auto, using(crate::proofs::ReadPlaces::places_read), unfolding(dtal_code::specs::Running::words_in, dtal_code::specs::Running::with_words))]

ghost use Rattle.std.specs.Prelude.{◌≡◌, ◌<◌, ◌==◌, ℕ, Some, IsSome, length};
ghost use Rattle.std.specs.Int.{w64, cast_signed};
ghost use Rattle.dtal_code.specs.Guessed.{comparison_of};
ghost use Rattle.dtal_code.specs.Instructions.{instruction_of};
ghost use Rattle.dtal_code.specs.declared.limits.TheConstants.{PLACES};
ghost use Rattle.dtal_code.specs.declared.object.RunOp.TheVariants as op;
ghost use Rattle.operation_rules.specs.FlatWords.{Flat};
ghost use Rattle.dtal_machine.specs.Acting.{left_by, leaves, left_exact, taken};

use crate::done::Done;
use crate::event::End;
use crate::numbers::{difference, holds, product, quotient, remainder, sum};
use crate::places::{put, word};

// Writes an exact result, where it is a word.
fn put_exact(top: &mut [i64], place: u8, exact: Option<i64>) -> Done
    requires { length top.old ≡ PLACES }
    ensures { (store : Flat) → left_exact top.old place exact store ≡ leaves result top.new store }
{
    match exact {
        Some(word) => put(top, place, word),
        None => Done::Ends(End::Overflow),
    }
}

/// `li`: the number whose bits are the second word.
pub(crate) fn li(rd: u8, second: u64, top: &mut [i64]) -> Done
    requires { length top.old ≡ PLACES }
    ensures { (store : Flat) → left_by (instruction_of (op.Li rd (cast_signed w64 second))) top.old store ≡ leaves result top.new store }
{
    put(top, rd, second.cast_signed())
}

/// `lb`: 1 where the byte is 1, else 0.
pub(crate) fn lb(rd: u8, b: u8, top: &mut [i64]) -> Done
    requires { length top.old ≡ PLACES }
    ensures { (store : Flat) → left_by (instruction_of (op.Lb rd (b == 1))) top.old store ≡ leaves result top.new store }
{
    put(top, rd, i64::from(b == 1))
}

/// `mv`.
pub(crate) fn mv(p: u8, q: u8, top: &mut [i64]) -> Done
    requires { length top.old ≡ PLACES }
    ensures { (store : Flat) → left_by (instruction_of (op.Mv p q)) top.old store ≡ leaves result top.new store }
{
    let moved = word(top, q);
    put(top, p, moved)
}

/// `add`.
pub(crate) fn add(rd: u8, ra: u8, rb: u8, top: &mut [i64]) -> Done
    requires { length top.old ≡ PLACES }
    ensures { (store : Flat) → left_by (instruction_of (op.Add rd ra rb)) top.old store ≡ leaves result top.new store }
{
    let exact = sum(word(top, ra), word(top, rb));
    put_exact(top, rd, exact)
}

/// `sub`.
pub(crate) fn sub(rd: u8, ra: u8, rb: u8, top: &mut [i64]) -> Done
    requires { length top.old ≡ PLACES }
    ensures { (store : Flat) → left_by (instruction_of (op.Sub rd ra rb)) top.old store ≡ leaves result top.new store }
{
    let exact = difference(word(top, ra), word(top, rb));
    put_exact(top, rd, exact)
}

/// `mul`.
pub(crate) fn mul(rd: u8, ra: u8, rb: u8, top: &mut [i64]) -> Done
    requires { length top.old ≡ PLACES }
    ensures { (store : Flat) → left_by (instruction_of (op.Mul rd ra rb)) top.old store ≡ leaves result top.new store }
{
    let exact = product(word(top, ra), word(top, rb));
    put_exact(top, rd, exact)
}

/// `div`.
pub(crate) fn div(rd: u8, ra: u8, rb: u8, top: &mut [i64]) -> Done
    requires places { length top.old ≡ PLACES }
    requires goes { (store : Flat) → IsSome (left_by (instruction_of (op.Div rd ra rb)) top.old store) }
    ensures { (store : Flat) → left_by (instruction_of (op.Div rd ra rb)) top.old store ≡ leaves result top.new store }
{
    let floor = quotient(word(top, ra), word(top, rb));
    put(top, rd, floor)
}

/// `mod`.
pub(crate) fn rem(rd: u8, ra: u8, rb: u8, top: &mut [i64]) -> Done
    requires places { length top.old ≡ PLACES }
    requires goes { (store : Flat) → IsSome (left_by (instruction_of (op.Mod rd ra rb)) top.old store) }
    ensures { (store : Flat) → left_by (instruction_of (op.Mod rd ra rb)) top.old store ≡ leaves result top.new store }
{
    let rest = remainder(word(top, ra), word(top, rb));
    put(top, rd, rest)
}

/// `set`: 1 where the comparison of this number holds, else 0.
pub(crate) fn set(c: u32, rd: u8, ra: u8, rb: u8, top: &mut [i64]) -> Done
    requires { length top.old ≡ PLACES }
    ensures { (store : Flat) → left_by (instruction_of (op.Set (comparison_of c) rd ra rb)) top.old store ≡ leaves result top.new store }
{
    let truth = holds(c, word(top, ra), word(top, rb));
    put(top, rd, i64::from(truth))
}

// To the instruction, or on.
fn take(holds: bool, to: u64) -> Done
    ensures { result ≡ taken holds to }
{
    if holds {
        Done::JumpsTo(to)
    } else {
        Done::GoesOn
    }
}

/// `br`: where the comparison of this number holds.
pub(crate) fn br(c: u8, ra: u8, rb: u8, to: u64, top: &[i64]) -> Done
    requires { length top.now ≡ PLACES }
    ensures { (store : Flat) → left_by (instruction_of (op.Br (comparison_of c) ra rb to)) top.now store ≡ leaves result top.now store }
{
    take(holds(u32::from(c), word(top, ra), word(top, rb)), to)
}

/// `bt`.
pub(crate) fn bt(ra: u8, to: u64, top: &[i64]) -> Done
    requires { length top.now ≡ PLACES }
    ensures { (store : Flat) → left_by (instruction_of (op.Bt ra to)) top.now store ≡ leaves result top.now store }
{
    take(word(top, ra) == 1, to)
}

/// `bf`.
pub(crate) fn bf(ra: u8, to: u64, top: &[i64]) -> Done
    requires { length top.now ≡ PLACES }
    ensures { (store : Flat) → left_by (instruction_of (op.Bf ra to)) top.now store ≡ leaves result top.now store }
{
    take(word(top, ra) == 0, to)
}

/// `print`.
pub(crate) fn print(ra: u8, top: &[i64]) -> Done
    requires { length top.now ≡ PLACES }
    ensures { (store : Flat) → left_by (instruction_of (op.Print ra)) top.now store ≡ leaves result top.now store }
{
    Done::Prints(word(top, ra))
}
