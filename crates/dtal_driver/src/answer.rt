//! The answers of the program, and the status of each.

ghost use Rattle.std.specs.Prelude.{◌≡◌};
ghost use Rattle.dtal_driver.specs.Answers.{status_of};
ghost use Rattle.dtal_driver.specs.Stops.{of_read, of_program, of_verdict, of_load};
ghost use Rattle.dtal_driver.specs.declared.answer.Answer.TheVariants as answers;

use dtal_code::{Rule, Where};
use dtal_machine::LoadError;
use dtal_text::TextError;
use dtal_verifier::VerifyError;
use xan_io::{FileFault, Memory};

/// How a command came out, in the order in which it may end. Arguments and rows are numbered from 1.
#[derive(Clone, Copy)]
pub enum Answer {
    /// The words are no command.
    NoCommand,
    /// The text could not be read.
    ReadFailed,
    /// The text is longer than texts may be.
    TooLong,
    /// Memory ran out.
    Memory,
    /// The bytes are the text of no program. So many of them begin one, and one more begins none.
    NoProgram(u64),
    /// The program is not accepted: the first place that refuses, and its rule.
    Refused {
        at: Where,
        rule: Rule,
    },
    /// The program is accepted.
    Accepted {
        /// How many functions it has.
        functions: u64,
        /// How many instructions these have.
        instructions: u64,
    },
    /// Another number of arguments than of parameters.
    ArgCount,
    /// The argument is of another kind than the parameter.
    ArgKind(u32),
    /// The argument's index is not the parameter's.
    ArgIndex(u32),
    /// A row of the entry does not hold.
    EntryRow(u32),
    /// The run has ended with this number.
    Returned(i64),
    /// The run has ended, or could not begin, since the store or the activations did not suffice.
    NoStore,
    /// The run has ended since a result does not fit a word.
    Overflow,
    /// The run goes on after this number of steps, which is all that it may make.
    StepsEnded(u64),
}

impl Answer {
    /// The status that the program ends with.
    pub fn status(self) -> u8
        ensures { result ≡ status_of self }
    {
        match self {
            Answer::Accepted { .. } | Answer::Returned(_) => 0,
            Answer::NoCommand => 2,
            Answer::ReadFailed => 3,
            Answer::TooLong => 5,
            Answer::Memory => 6,
            Answer::NoProgram(_) => 7,
            Answer::Refused { .. } => 11,
            Answer::ArgCount | Answer::ArgKind(_) | Answer::ArgIndex(_) | Answer::EntryRow(_) => 12,
            Answer::NoStore => 13,
            Answer::Overflow => 14,
            Answer::StepsEnded(_) => 15,
        }
    }
}

impl From<FileFault> for Answer {
    ghost from_gives = { λ fault answer. answer ≡ of_read fault };

    fn from(fault: FileFault) -> Answer {
        match fault {
            FileFault::Failed => Answer::ReadFailed,
            FileFault::Memory => Answer::Memory,
        }
    }
}

impl From<TextError> for Answer {
    ghost from_gives = { λ error answer. answer ≡ of_program error };

    fn from(error: TextError) -> Answer {
        match error {
            TextError::Fault { at } => Answer::NoProgram(at),
            TextError::Memory => Answer::Memory,
        }
    }
}

impl From<VerifyError> for Answer {
    ghost from_gives = { λ error answer. answer ≡ of_verdict error };

    fn from(error: VerifyError) -> Answer {
        match error {
            VerifyError::Refused { at, rule } => Answer::Refused { at, rule },
            VerifyError::Memory => Answer::Memory,
        }
    }
}

impl From<Memory> for Answer {
    ghost from_gives = { λ _ answer. answer ≡ answers.Memory };

    fn from(_error: Memory) -> Answer {
        Answer::Memory
    }
}

impl From<LoadError> for Answer {
    ghost from_gives = { λ error answer. answer ≡ of_load error };

    fn from(error: LoadError) -> Answer {
        match error {
            LoadError::ArgCount => Answer::ArgCount,
            LoadError::ArgKind(argument) => Answer::ArgKind(argument),
            LoadError::ArgIndex(argument) => Answer::ArgIndex(argument),
            LoadError::EntryRow(row) => Answer::EntryRow(row),
            LoadError::NoStore => Answer::NoStore,
            LoadError::Memory => Answer::Memory,
        }
    }
}
