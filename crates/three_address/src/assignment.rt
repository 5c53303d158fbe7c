//! Homes of places.

use xan_seq::Seq;

/// How many registers are homes of places: those below this number.
pub const REGISTERS: u8 = 13;

/// Where the places of a program's functions are kept.
#[derive(Drop)]
pub struct Assignment {
    /// For each function and each of its places: the number of a register, or 16 and the number of a slot.
    pub homes: Seq<Seq<u8>>,
}
