//! Why there are no goals.

use xan_lin::LimitKind;

/// Why a core has no goals.
#[derive(Clone, Copy, Drop)]
pub enum ElabError {
    /// The first limit that the core passes.
    Limit(LimitKind),
    /// Memory ran out.
    Memory,
}
