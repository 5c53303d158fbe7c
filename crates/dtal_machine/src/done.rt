//! What instructions and steps have done, beside what they have written.

use crate::event::End;

/// How the activation goes on after an instruction that neither calls nor returns.
#[derive(Clone, Copy)]
pub(crate) enum Done {
    /// With the next instruction.
    GoesOn,
    /// With the instruction of this number.
    JumpsTo(u64),
    /// With the next instruction, and the number is printed.
    Prints(i64),
    /// The run has ended.
    Ends(End),
}

/// How the run goes on after a step.
#[derive(Clone, Copy)]
pub(crate) enum Acted {
    /// It goes on.
    GoesOn,
    /// It goes on, and the number is printed.
    Prints(i64),
    /// It has ended.
    Ends(End),
}
