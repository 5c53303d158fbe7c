use thiserror::Error;

/// Why a source has no tree.
#[derive(Clone, Copy, Debug, Error)]
pub enum ParseError {
    /// More than 64 brackets are open at some token.
    #[error("nesting")]
    Nesting,
    /// The offset of the first token that no program has there, or the end of the source where the tokens only begin one.
    #[error("fault")]
    Fault { at: u32 },
    /// Memory ran out.
    #[error("memory")]
    Memory,
}
