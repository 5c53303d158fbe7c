//! Why bytes spell no program.
use thiserror::Error;

/// Why some bytes were not read as a program.
#[derive(Clone, Copy, Debug, Error)]
pub enum TextError {
    /// The bytes spell no program. The first `at` of them begin the text of one, and one more begins none.
    #[error("fault at {at}")]
    Fault {
        /// How many bytes are good.
        at: u64,
    },
    /// Memory ran out.
    #[error("memory")]
    Memory,
}
