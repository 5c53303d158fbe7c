/// An operator between two numbers.
#[derive(Clone, Copy)]
pub enum Op {
    Add,
    Sub,
    Mul,
    /// The floor of the quotient.
    Div,
    /// What `Div` leaves.
    Mod,
}

/// A comparison of two numbers.
#[derive(Clone, Copy)]
pub enum Rel {
    Lt,
    Le,
    Gt,
    Ge,
    Eq,
    Ne,
}

/// An expression. Variables, functions and types go by their numbers. The `u32` that stands last is the offset in the source at which
/// the goals of the construct are reported.
#[derive(Drop)]
pub enum CoreExpr {
    Int(i64),
    Bool(bool),
    Var(u32),
    Neg(Box<CoreExpr>),
    /// Operators from left to right: each has all that stands before it as its left operand.
    Chain {
        first: Box<CoreExpr>,
        rest: Vec<(Op, CoreExpr, u32)>,
    },
    Compare(Rel, Box<CoreExpr>, Box<CoreExpr>),
    /// The array, and the index of its cell.
    Index(Box<CoreExpr>, Box<CoreExpr>, u32),
    Len(Box<CoreExpr>),
    Call {
        fun: u32,
        args: Vec<CoreExpr>,
        at: u32,
    },
    /// A tuple of a declared type.
    Make {
        ty: u32,
        args: Vec<CoreExpr>,
        at: u32,
    },
    /// An array of cells of a type, with this length and this value in each cell.
    New {
        ty: u32,
        len: Box<CoreExpr>,
        fill: Box<CoreExpr>,
        at: u32,
    },
}
