use crate::expr::CoreExpr;
use crate::types::{CoreTy, Quant};
use xan_seq::Seq;

/// The test of an `if` or a `while`.
#[derive(Drop)]
pub enum Test {
    Leaf(CoreExpr),
    /// `&&`, from left to right.
    All(Vec<Test>),
    /// `||`, from left to right.
    Any(Vec<Test>),
    Not(Box<Test>),
}

/// What is stated where control flow meets: the types of some variables, over index variables of the clause's own, which are numbered
/// from `first` on in the function.
#[derive(Drop)]
pub struct Clause {
    pub first: u32,
    pub quant: Quant,
    pub vars: Seq<(u32, CoreTy)>,
}

/// A statement. The `u32` that stands last is the offset in the source at which the goals of the statement are reported.
#[derive(Drop)]
pub enum CoreStmt {
    /// A declaration of a variable, or an assignment.
    Set(u32, CoreExpr),
    /// The parts of a tuple, each to a variable.
    Split(Seq<u32>, CoreExpr, u32),
    /// The array, the index of its cell, the value.
    Store(CoreExpr, CoreExpr, CoreExpr, u32),
    Do(CoreExpr),
    Print(CoreExpr),
    If {
        test: Test,
        on_true: Vec<CoreStmt>,
        on_false: Vec<CoreStmt>,
        join: Option<Clause>,
        at: u32,
    },
    While {
        test: Test,
        head: Option<Clause>,
        body: Vec<CoreStmt>,
        at: u32,
    },
    Return(Option<CoreExpr>, u32),
}
