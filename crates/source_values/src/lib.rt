//! Values, blocks and variables of a run of a source, and what constructs make of them.
//!
//! Contracts see them as those of the meaning of a core, in `typed_core`. What a construct makes of values is exactly its definition, or
//! memory ran out. It stands on `typed_core` for the meaning's values, on `xanadu_tree` for operators, and on `xan_io` for how a run ends.
#![tactic(auto)]

mod acts;
mod arguments;
mod cells;
mod halt;
mod values;
mod variables;

pub use acts::{join, negate, relate};
pub use arguments::place_arguments;
pub use cells::{Block, MOST_WORDS, Store};
pub use halt::Halt;
pub use values::{Tag, Value};
pub use variables::{Variables, set_all};
