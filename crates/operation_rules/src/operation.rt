//! Operations, and how many places each reads and writes.

ghost use Rattle.std.specs.Prelude.{◌≡◌};
ghost use Rattle.operation_rules.specs.Operations as spec;

/// What a source's constructs, the code over places and the text's instructions have in common. A comparison is a number: 0 less, 1 at
/// most, 2 equal, and else unequal. Types and functions are named by number.
#[derive(Clone, Copy, Drop)]
pub enum Operation {
    /// A number.
    Literal(i64),
    /// A truth value.
    Truth(bool),
    /// The same word.
    Move,
    /// A sum.
    Add,
    /// A difference.
    Sub,
    /// A product.
    Mul,
    /// A quotient.
    Div,
    /// A remainder.
    Mod,
    /// Whether a comparison is true.
    Compare(u32),
    /// Goes elsewhere where a comparison is true.
    Branch(u32),
    /// Goes elsewhere where a truth value is this one.
    BranchTruth(bool),
    /// Goes elsewhere.
    Jump,
    /// Calls a function.
    Call(u32),
    /// Gives the function's result.
    Return,
    /// The length of an array.
    Length,
    /// A cell of an array.
    Load,
    /// Writes a cell of an array.
    Store,
    /// An array of cells of a type.
    New(u32),
    /// A tuple of a type.
    Tuple(u32),
    /// The parts of a tuple of a type, so many of them.
    Untuple(u32, u32),
    /// Prints a number.
    Print,
}

/// How many places an operation reads and writes.
#[derive(Clone, Copy, Drop)]
pub struct Needs {
    /// How many it reads, or `None` where it reads as many as are listed with it.
    pub reads: Option<u32>,
    /// How many it writes.
    pub writes: u32,
}

// As many as these.
fn fixed(reads: u32, writes: u32) -> Needs
    ensures { result ≡ spec.fixed reads writes }
{
    Needs {
        reads: Some(reads),
        writes,
    }
}

/// How many places the operation reads and writes.
pub fn needs_of(op: &Operation) -> Needs
    ensures { result ≡ spec.needs op.now }
{
    match op {
        Operation::Literal(_) | Operation::Truth(_) => fixed(0, 1),
        Operation::Move | Operation::Length => fixed(1, 1),
        Operation::Add
        | Operation::Sub
        | Operation::Mul
        | Operation::Div
        | Operation::Mod
        | Operation::Compare(_)
        | Operation::Load
        | Operation::New(_) => fixed(2, 1),
        Operation::Branch(_) => fixed(2, 0),
        Operation::BranchTruth(_) | Operation::Return | Operation::Print => fixed(1, 0),
        Operation::Jump => fixed(0, 0),
        Operation::Call(_) | Operation::Tuple(_) => Needs {
            reads: None,
            writes: 1,
        },
        Operation::Store => fixed(3, 0),
        Operation::Untuple(_, count) => fixed(1, *count),
    }
}
