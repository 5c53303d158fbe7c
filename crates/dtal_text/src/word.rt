//! The words of the text that decide what follows them.

/// How the text of a type begins.
#[derive(Clone, Copy, Drop)]
pub enum TyWord {
    /// A number.
    Int,
    /// A truth value.
    Bool,
    /// An array.
    Array,
    /// A tuple.
    Named,
}

/// The word of an instruction.
#[derive(Clone, Copy, Drop)]
pub enum OpWord {
    Li,
    Lb,
    Mv,
    Add,
    Sub,
    Mul,
    Div,
    Mod,
    Set,
    Br,
    Bt,
    Bf,
    Jmp,
    Call,
    Ret,
    Len,
    Ld,
    St,
    New,
    Tup,
    Untup,
    Print,
}

/// How a line of a function begins.
#[derive(Clone, Copy, Drop)]
pub enum LineWord {
    /// An instruction.
    Op(OpWord),
    /// Lines that prove a row.
    By,
    /// A label.
    Label,
    /// The end of the function.
    End,
}
