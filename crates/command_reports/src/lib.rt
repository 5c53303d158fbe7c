//! What a command line asks for, and what is said of how it came out: words, answers, refusals, lines and statuses.
//!
//! [`read_command`] reads the words. [`say`] puts the line of an [`Answer`], [`say_end`] that of the end of a run, and [`list`] a line for each goal of a source; all answer the
//! status to end with, and their contracts say that exactly the lines of the report are put, or a part of them where the output fails. What a
//! source can be refused for is [`Refusal`], and each pass's error becomes one by `?`. `xanadu_driver` stands on it.
#![tactic(auto)]

mod answer;
mod goal_lines;
mod lines;
mod listing;
mod refusal;
mod run_end;
mod words;
mod workspace;

pub use crate::answer::{Answer, Counts};
pub use crate::lines::say;
pub use crate::listing::{Listing, list};
pub use crate::refusal::{Refusal, SourceError};
pub use crate::run_end::{RunEnd, say_end};
pub use crate::words::{Command, read_command};
pub use crate::workspace::{NoRoom, Workspace};
