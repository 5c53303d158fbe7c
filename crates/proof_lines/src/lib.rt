//! The checker of proof lines, and their text.
//!
//! Lines prove that rows entail a goal: each gives a row that holds wherever the rows hold and the goal does not, and the last row cannot
//! hold. [`check_lines`] is Ok exactly where the lines prove the goal, and else answers the first bad line and its first reason;
//! [`read_lines`] and [`write_lines`] read and write their one spelling; [`read_form`] and [`read_line`] are readers of its parts. What lines
//! prove is entailed over all integers. The check takes no memory: the rows of the lines lie in a pool. It stands on `index_sorts`, `xan_lin`, `xan_pool` and `xan_read`.
#![tactic(auto)]

mod bad_line;
mod cells;
mod checker;
mod columns;
mod form_text;
mod hypotheses;
mod laws;
mod line;
mod line_text;
mod row;
mod text_error;
mod told;
mod writing;

pub use crate::bad_line::{BadLine, Why};
pub use crate::checker::check_lines;
pub use crate::form_text::read_form;
pub use crate::laws::{a_text_spells_one_list, checked_is_proved, proved_goals_are_entailed};
pub use crate::line::Line;
pub use crate::line_text::{read_line, read_lines};
pub use crate::text_error::LineTextError;
pub use crate::writing::write_lines;
