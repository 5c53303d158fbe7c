//! What a run has still to do.

use xanadu_tree::{CoreExpr, CoreStmt, Op, Rel, Test};

/// A piece of work. Values that it is about are on top of a stack.
#[derive(Clone, Copy, Drop)]
pub(crate) enum Task<'a> {
    /// An expression, whose value is then on top.
    Operand(&'a CoreExpr),
    /// Expressions from left to right.
    Operands(&'a [CoreExpr]),
    /// The operators of a chain; all that stands before them is on top.
    Links(&'a [(Op, CoreExpr, u32)]),
    /// An operator between two numbers.
    Join(Op),
    /// 0 less a number.
    Negate,
    /// A comparison of two numbers.
    Relate(Rel),
    /// A cell of an array.
    ReadCell,
    /// The length of an array.
    Measure,
    /// A tuple of a type, of so many parts.
    MakeTuple(u32, usize),
    /// An array of cells of a type.
    MakeArray(u32),
    /// A call of a function with so many arguments.
    CallWith(u32, usize),
    /// A test, whose truth value is then on top.
    Decide(&'a Test),
    /// The value on top is that of a leaf.
    Decided,
    /// The parts of `&&`.
    AllParts(&'a [Test]),
    /// The parts of `||`.
    AnyParts(&'a [Test]),
    /// The other parts, where the one before is true.
    WhereTrue(&'a [Test]),
    /// The other parts, where the one before is false.
    WhereFalse(&'a [Test]),
    /// The other truth value.
    Opposite,
    /// Statements in order.
    Statements(&'a [CoreStmt]),
    /// A value goes to a variable.
    SetTo(u32),
    /// The parts of a tuple go to variables.
    SplitTo(&'a [u32]),
    /// A value goes to a cell of an array.
    PutCell,
    /// A value is not used.
    Forget,
    /// A number is printed.
    Say,
    /// The truth value on top chooses.
    Choose(&'a [CoreStmt], &'a [CoreStmt]),
    /// A loop, before its test.
    Loop(&'a Test, &'a [CoreStmt]),
    /// One turn of it, behind its test.
    Turn(&'a Test, &'a [CoreStmt]),
    /// The function gives the value on top.
    GiveBack,
    /// A function began here, and its value is wanted.
    Back,
}
