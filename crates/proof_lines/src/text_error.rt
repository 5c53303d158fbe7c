//! Why bytes spell no lines.
use thiserror::Error;

/// Why some bytes were not read as lines.
#[derive(Clone, Copy, Debug, Error)]
pub enum LineTextError {
    /// The bytes spell no lines. The first `at` of them begin some, and one more begins none.
    #[error("fault at {at}")]
    Fault {
        /// How many bytes are good.
        at: u64,
    },
    /// Memory ran out.
    #[error("memory")]
    Memory,
}
