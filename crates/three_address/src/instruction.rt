//! Instructions.

use xan_seq::Seq;

/// What an instruction does: one of 22.
#[derive(Clone, Copy)]
pub enum Op22 {
    /// A number into a place.
    Li,
    /// A truth value into a place.
    Lb,
    /// The word of the second place into the first.
    Mv,
    /// The sum of the second and the third place into the first.
    Add,
    /// The second place less the third, into the first.
    Sub,
    /// The product.
    Mul,
    /// The floor of the quotient.
    Div,
    /// The remainder of that quotient.
    Mod,
    /// Whether a comparison of the second and the third place holds, into the first.
    Set,
    /// To a label where a comparison of two places holds.
    Br,
    /// To a label where the place is true.
    Bt,
    /// To a label where the place is false.
    Bf,
    /// To a label.
    Jmp,
    /// A call of a function with the words of the later places, whose result goes to the first.
    Call,
    /// The end of an activation, which gives its caller the word of a place.
    Ret,
    /// The length of the array in the second place, into the first.
    Len,
    /// A cell of the array in the second place, of the index in the third, into the first.
    Ld,
    /// The third place's word into a cell of the array in the first place, of the index in the second.
    St,
    /// An array of the length in the second place with the word of the third in each cell, into the first.
    New,
    /// A tuple of the words of the later places, into the first.
    Tup,
    /// The parts of the tuple in the first place, into the later ones.
    Untup,
    /// Prints the number of a place.
    Print,
}

/// An instruction over the places of a function. What its form does not have is 0, or an empty list.
#[derive(Drop)]
pub struct LowInstr {
    /// What it does.
    pub op: Op22,
    /// Its places, in the order of the text.
    pub places: Seq<u16>,
    /// The number or the truth value, 0 or 1; of a comparison 0 for less, 1 for at most, 2 for equal and 3 for unequal; or the number of a
    /// type.
    pub number: i64,
    /// The number of a label, counted from 1; of a call the function's, counted from 0.
    pub target: u32,
}
