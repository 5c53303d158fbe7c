ghost use Rattle.std.specs.Prelude.{◌≡◌};
ghost use Rattle.xanadu_lexer.specs.declared.error.LexError.TheVariants as error;

use thiserror::Error;
use xan_io::Memory;

/// Why a source has no tokens.
#[derive(Clone, Copy, Debug, Error)]
pub enum LexError {
    /// The first place where no token begins: its offset in bytes, and what is wrong there.
    #[error("fault")]
    Fault { at: u32, kind: LexKind },
    /// Memory ran out.
    #[error("memory")]
    Memory,
}

/// What is wrong with a source at its first fault.
#[derive(Clone, Copy, Debug)]
pub enum LexKind {
    /// A byte that begins no token, no blank and no comment.
    Byte,
    /// A run of digits that is no number: one past 9223372036854775807, or one of two digits or more that begins with 0.
    Number,
}

impl From<Memory> for LexError {
    ghost from_gives = { λ _ lexed. lexed ≡ error.Memory };

    fn from(_error: Memory) -> LexError {
        LexError::Memory
    }
}
