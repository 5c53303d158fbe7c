//! What a run may have, by the options among the words of a command line, and what it is given.
//!
//! A command that runs something takes a name, arguments, and three options: `--heap N`, `--depth N`, and one that says how long the run may
//! go on, whose name is the command's own. [`sort_words`] tells options from values, and [`read_request`] reads the values. It stands on
//! `xan_read` for numbers and on `xan_io` for arguments.
#![tactic(auto)]

pub mod limits;
mod options;
mod request;
mod words;

pub use options::{Given, Limits, Options, is_none_given};
pub use request::{Request, read_request};
pub use words::{Sorted, WordsError, sort_words};
