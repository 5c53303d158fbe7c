//! Instructions.

use arrayvec::ArrayVec;
use proof_lines::Line;
use state_types::TypeId;
use xan_lin::Form;
use xan_seq::Seq;

/// A comparison of two numbers.
#[derive(Clone, Copy, Drop)]
pub enum Cmp {
    /// The first is less.
    Lt,
    /// The first is less, or they are equal.
    Le,
    /// They are equal.
    Eq,
    /// They are not.
    Ne,
}

/// An instruction as the text has it. The fields are its operands in the order of its text.
///
/// A place is a number below 256: the registers `r0` to `r15` are 0 to 15, and the slots `s0` to `s239` are 16 to 255. A register is
/// a place below 16. Labels are numbered from 1 in a function, and functions from 0.
#[derive(Drop)]
pub enum Op {
    /// The number into a register.
    Li(u8, i64),
    /// The truth value into a register.
    Lb(u8, bool),
    /// The word of the second place into the first.
    Mv(u8, u8),
    /// The sum of the second and the third register into the first.
    Add(u8, u8, u8),
    /// The second register less the third, into the first.
    Sub(u8, u8, u8),
    /// The product of the second and the third register into the first.
    Mul(u8, u8, u8),
    /// The floor of the second register over the third, into the first.
    Div(u8, u8, u8),
    /// What that quotient leaves, into the first.
    Mod(u8, u8, u8),
    /// Whether the comparison of the last two registers holds, into the first.
    Set(Cmp, u8, u8, u8),
    /// To the label where the comparison of the two registers holds.
    Br(Cmp, u8, u8, u32),
    /// To the label where the register is true.
    Bt(u8, u32),
    /// To the label where the register is false.
    Bf(u8, u32),
    /// To the label.
    Jmp(u32),
    /// A call of the function with the words of the listed places. The place takes the result.
    Call(u32, u8, ArrayVec<u8, 8>),
    /// The end of an activation, which gives its caller the word of a place.
    Ret(u8),
    /// The length of the array in the second register, into the first.
    Len(u8, u8),
    /// The cell of the array in the second register whose index is in the third, into the first.
    Ld(u8, u8, u8),
    /// The word of the third register into the cell of the array in the first whose index is in the second.
    St(u8, u8, u8),
    /// An array of cells of the type, of the length in the second register, with the word of the third in each, into the first.
    New(u8, TypeId, u8, u8),
    /// A tuple of the type of the words of the listed places, into the first.
    Tup(u8, TypeId, ArrayVec<u8, 8>),
    /// The parts of the tuple of the type in the place, into the listed places.
    Untup(TypeId, u8, ArrayVec<u8, 8>),
    /// Prints the number of a register.
    Print(u8),
}

/// An instruction with what stands with it.
#[derive(Drop)]
pub struct Instr {
    /// The instruction.
    pub op: Op,
    /// Where it goes to a label: the values of variables of that label's state, by rising variable.
    pub edge: Seq<(u32, Form)>,
    /// For each demanded row that is not known, in order, the lines that prove it.
    pub by: Seq<Seq<Line>>,
}
