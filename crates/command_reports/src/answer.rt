//! The answers of the program, and the status of each.

ghost use Rattle.std.specs.Prelude.{◌≡◌};
ghost use Rattle.command_reports.specs.Answers.{status_of};

use crate::refusal::Refusal;

/// How much of a source there is, and of the program that it becomes.
#[derive(Clone, Copy, Drop)]
pub struct Counts {
    /// How many functions it has.
    pub functions: u64,
    /// How many goals it has.
    pub goals: u64,
    /// How many instructions its program has.
    pub instructions: u64,
}

/// How a command came out that says one line, in the order in which it may end.
#[derive(Drop)]
pub enum Answer {
    /// The words are no command.
    NoCommand,
    /// A name that the command reads could not be read.
    ReadFailed,
    /// The source is refused.
    Refused(Refusal),
    /// Memory ran out.
    Memory,
    /// The text could not be written.
    WriteFailed,
    /// The text of a program is written, of so many functions, goals and instructions.
    Built(Counts),
}

impl Answer {
    /// The status that the program ends with.
    pub fn status(&self) -> u8
        ensures { result ≡ status_of self.now }
    {
        match self {
            Answer::Built(_) => 0,
            Answer::NoCommand => 2,
            Answer::ReadFailed => 3,
            Answer::WriteFailed => 4,
            Answer::Memory => 6,
            Answer::Refused(refusal) => refusal.status(),
        }
    }
}
