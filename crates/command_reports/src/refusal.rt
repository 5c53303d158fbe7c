//! What a source can be refused for, and what each pass stops with.

ghost use Rattle.std.specs.Prelude.{◌≡◌};
ghost use Rattle.command_reports.specs.Answers.{found_status, refusal_status};
ghost use Rattle.command_reports.specs.Stops.{of_lexer, of_parser, of_shapes, of_elaborator, of_goals};
ghost use Rattle.command_reports.specs.declared.refusal.SourceError.TheVariants.{Memory as memory};

use crate::workspace::NoRoom;
use constraint_elaborator::ElabError;
use goal_table::GoalError;
use linear_solver::Answer;
use type_shapes::{ShapeError, ShapeKind};
use xan_io::Memory;
use xan_lin::{Form, LimitKind};
use xanadu_lexer::LexError;
use xanadu_parser::ParseError;

/// Why a source is not built, in the order in which it is looked for. Places are offsets in bytes.
#[derive(Drop)]
pub enum Refusal {
    /// It has more than 1048576 bytes.
    Length,
    /// No token begins at this byte, or digits begin there that are no number.
    Bytes(u32),
    /// More than 64 brackets are open at some token.
    Nesting,
    /// The first token that no program has there, or the end of the source.
    Parse(u32),
    /// The first fault of its shape, and where it stands.
    Shape(ShapeKind, u32),
    /// The first limit that its core passes.
    Past(LimitKind),
    /// The first of its goals that is not proved.
    Goal {
        /// How many goals stand before it.
        number: u32,
        /// Where it is reported.
        at: u32,
        /// The row that was to be proved.
        row: Form,
        /// What the elimination answers.
        answer: Answer,
    },
}

impl Refusal {
    /// The status that the program ends with.
    pub fn status(&self) -> u8
        ensures { result ≡ refusal_status self.now }
    {
        match self {
            Refusal::Length | Refusal::Nesting | Refusal::Past(_) => 5,
            Refusal::Bytes(_) => 7,
            Refusal::Parse(_) => 8,
            Refusal::Shape(_, _) => 9,
            Refusal::Goal { answer, .. } => status_of_goal(*answer),
        }
    }
}

/// The status of a goal with this answer.
pub fn status_of_goal(found: Answer) -> u8
    ensures { result ≡ found_status found }
{
    match found {
        Answer::Proved => 0,
        Answer::Unproved => 10,
        Answer::Limit(_) => 5,
    }
}

/// Why nothing came of a source.
#[derive(Drop)]
pub enum SourceError {
    /// It is refused for this.
    Refused(Refusal),
    /// Memory ran out.
    Memory,
}

impl From<LexError> for SourceError {
    ghost from_gives = { λ error stop. stop ≡ of_lexer error };

    fn from(error: LexError) -> SourceError {
        match error {
            LexError::Fault { at, kind: _ } => SourceError::Refused(Refusal::Bytes(at)),
            LexError::Memory => SourceError::Memory,
        }
    }
}

impl From<ParseError> for SourceError {
    ghost from_gives = { λ error stop. stop ≡ of_parser error };

    fn from(error: ParseError) -> SourceError {
        match error {
            ParseError::Nesting => SourceError::Refused(Refusal::Nesting),
            ParseError::Fault { at } => SourceError::Refused(Refusal::Parse(at)),
            ParseError::Memory => SourceError::Memory,
        }
    }
}

impl From<ShapeError> for SourceError {
    ghost from_gives = { λ error stop. stop ≡ of_shapes error };

    fn from(error: ShapeError) -> SourceError {
        match error {
            ShapeError::Fault { at, kind } => SourceError::Refused(Refusal::Shape(kind, at)),
            ShapeError::Memory => SourceError::Memory,
        }
    }
}

impl From<ElabError> for SourceError {
    ghost from_gives = { λ error stop. stop ≡ of_elaborator error };

    fn from(error: ElabError) -> SourceError {
        match error {
            ElabError::Limit(kind) => SourceError::Refused(Refusal::Past(kind)),
            ElabError::Memory => SourceError::Memory,
        }
    }
}

impl From<GoalError> for SourceError {
    ghost from_gives = { λ error stop. stop ≡ of_goals error };

    fn from(error: GoalError) -> SourceError {
        match error {
            GoalError::Goal {
                number,
                at,
                row,
                answer,
            } => SourceError::Refused(Refusal::Goal {
                number,
                at,
                row,
                answer,
            }),
            GoalError::Memory => SourceError::Memory,
        }
    }
}

impl From<Memory> for SourceError {
    ghost from_gives = { λ _ stop. stop ≡ memory };

    fn from(_error: Memory) -> SourceError {
        SourceError::Memory
    }
}

impl From<xan_lin::Memory> for SourceError {
    ghost from_gives = { λ _ stop. stop ≡ memory };

    fn from(_error: xan_lin::Memory) -> SourceError {
        SourceError::Memory
    }
}

impl From<NoRoom> for SourceError {
    ghost from_gives = { λ _ stop. stop ≡ memory };

    fn from(_error: NoRoom) -> SourceError {
        SourceError::Memory
    }
}
