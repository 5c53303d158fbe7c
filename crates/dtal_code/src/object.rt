//! What the machine is given: instructions in which labels are resolved, and the words that they are coded in.

use crate::instruction::Cmp;
use arrayvec::ArrayVec;
use state_types::TypeId;
use xan_seq::Seq;

/// An instruction as the machine has it: as in the text, but where it goes elsewhere it names the number of an instruction, counted from
/// 0 over the whole program.
#[derive(Drop)]
pub enum RunOp {
    /// The number into a register.
    Li(u8, i64),
    /// The truth value into a register.
    Lb(u8, bool),
    /// The word of the second place into the first.
    Mv(u8, u8),
    /// A sum.
    Add(u8, u8, u8),
    /// A difference.
    Sub(u8, u8, u8),
    /// A product.
    Mul(u8, u8, u8),
    /// The floor of a quotient.
    Div(u8, u8, u8),
    /// What that quotient leaves.
    Mod(u8, u8, u8),
    /// Whether a comparison holds.
    Set(Cmp, u8, u8, u8),
    /// To the instruction where the comparison holds.
    Br(Cmp, u8, u8, u64),
    /// To the instruction where the register is true.
    Bt(u8, u64),
    /// To the instruction where the register is false.
    Bf(u8, u64),
    /// To the instruction.
    Jmp(u64),
    /// A call.
    Call(u32, u8, ArrayVec<u8, 8>),
    /// The end of an activation.
    Ret(u8),
    /// The length of an array.
    Len(u8, u8),
    /// A cell of an array.
    Ld(u8, u8, u8),
    /// A word into a cell of an array.
    St(u8, u8, u8),
    /// A new array.
    New(u8, TypeId, u8, u8),
    /// A new tuple.
    Tup(u8, TypeId, ArrayVec<u8, 8>),
    /// The parts of a tuple.
    Untup(TypeId, u8, ArrayVec<u8, 8>),
    /// Prints a number.
    Print(u8),
}

/// A program as the machine is given it.
#[derive(Drop)]
pub struct Object {
    /// Two words for each instruction.
    pub words: Seq<u64>,
    /// The number of each function's first instruction.
    pub starts: Seq<u64>,
    /// The number of the function with which a run begins.
    pub main: u32,
}
