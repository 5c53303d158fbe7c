//! The places that an instruction writes and those that it reads.

ghost use Rattle.std.specs.Option.{option_map};
ghost use Rattle.std.specs.Prelude.{◌≡◌, ◌≤◌};
ghost use Rattle.three_address.specs.Splits as spec;

use crate::instruction::{LowInstr, Op22};

// Whether the number is 0 or 1.
fn is_truth(number: &i64) -> bool
    ensures { result ≡ spec.is_among number.now 2 }
{
    *number >= 0 && *number < 2
}

// Whether it is that of a comparison.
fn is_comparison(number: &i64) -> bool
    ensures { result ≡ spec.is_among number.now 4 }
{
    *number >= 0 && *number < 4
}

// Whether it may be that of a type.
fn is_type(number: &i64) -> bool
    ensures { result ≡ spec.is_natural number.now }
{
    *number >= 0
}

// So many places that are written, and so many behind them that are read, or none where others stand there.
fn fixed(writes: usize, reads: usize, places: &[u16]) -> Option<(&[u16], &[u16])>
    requires few { writes ≤ 1 }
    requires reads { reads ≤ 3 }
    ensures { option_map (λ parts. (parts.0.now, parts.1.now)) result ≡ spec.fixed writes reads places.now }
{
    if places.len() == writes + reads {
        Some(places.split_at(writes))
    } else {
        None
    }
}

// One that is written, and any number that are read.
fn one_first(places: &[u16]) -> Option<(&[u16], &[u16])>
    ensures { option_map (λ parts. (parts.0.now, parts.1.now)) result ≡ spec.one_first places.now }
{
    if places.is_empty() {
        None
    } else {
        Some(places.split_at(1))
    }
}

// One that is read, and any number that are written.
fn taken_apart(places: &[u16]) -> Option<(&[u16], &[u16])>
    ensures { option_map (λ parts. (parts.0.now, parts.1.now)) result ≡ spec.taken_apart places.now }
{
    if places.is_empty() {
        None
    } else {
        Some((&places[1..], &places[..1]))
    }
}

/// The places that an instruction writes, and those that it reads. None, where it has not the places and the number of its form.
#[tactic(auto, unfolding(crate::specs::Splits::parts_of))]
pub fn parts(instr: &LowInstr) -> Option<(&[u16], &[u16])>
    ensures { option_map (λ parts. (parts.0.now, parts.1.now)) result ≡ spec.parts_of instr.now }
{
    let places = instr.places.as_slice();
    match instr.op {
        Op22::Li => fixed(1, 0, places),
        Op22::Lb => {
            if is_truth(&instr.number) {
                fixed(1, 0, places)
            } else {
                None
            }
        }
        Op22::Mv | Op22::Len => fixed(1, 1, places),
        Op22::Add | Op22::Sub | Op22::Mul | Op22::Div | Op22::Mod | Op22::Ld => {
            fixed(1, 2, places)
        }
        Op22::Set => {
            if is_comparison(&instr.number) {
                fixed(1, 2, places)
            } else {
                None
            }
        }
        Op22::Br => {
            if is_comparison(&instr.number) {
                fixed(0, 2, places)
            } else {
                None
            }
        }
        Op22::Bt | Op22::Bf | Op22::Ret | Op22::Print => fixed(0, 1, places),
        Op22::Jmp => fixed(0, 0, places),
        Op22::Call => one_first(places),
        Op22::St => fixed(0, 3, places),
        Op22::New => {
            if is_type(&instr.number) {
                fixed(1, 2, places)
            } else {
                None
            }
        }
        Op22::Tup => {
            if is_type(&instr.number) {
                one_first(places)
            } else {
                None
            }
        }
        Op22::Untup => {
            if is_type(&instr.number) {
                taken_apart(places)
            } else {
                None
            }
        }
    }
}
