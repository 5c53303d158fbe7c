//! The code over places: what lowering makes of a source, before places become registers and slots.
//!
//! Its instructions are those of the text, over the places of a function, numbered from 0. `specs/` says what such code does, what it is for
//! it to be typed, which places are live, and which functions need slots. It stands on `operation_rules`, where each operation's effect and
//! rule are said once.
#![tactic(auto)]

mod assignment;
mod function;
mod instruction;
mod labels;
mod laws;
mod marks;
mod place_lists;
mod typed;

pub use crate::assignment::{Assignment, REGISTERS};
pub use crate::function::{LowFun, Lowered, PLACES};
pub use crate::instruction::{LowInstr, Op22};
pub use crate::labels::{is_live_at, live_at_labels};
pub use crate::laws::{
    found_places_are_live, low_runs_are_steady, marks_at_labels_are_live,
    steady_tables_have_all_live_places, table_ranges_are_intervals,
};
pub use crate::marks::live_positions;
pub use crate::place_lists::parts;
pub use crate::typed::{Edge, ProvedRow, Typed};
