//! The outside of both programs: files, output, names, arguments, and how a run ends.
//!
//! Two traits, [`Files`] and [`Sink`], say what a program may learn of its files and its output: what they hold, where that is told,
//! and how many calls have failed. There are files and a sink in memory, whose calls fail as a test wants, and those of the host.
//! It also owns the words in which a promise about a whole run is stated: the outcome of a run, the faults of its arguments, and what
//! it means that two programs agree. It stands on `xan_read` and `xan_seq`.
#![tactic(auto)]

mod agreement;
mod arg;
mod arguments;
mod files;
mod host_files;
mod host_sink;
mod lines;
mod mem_files;
mod mem_sink;
mod memory;
mod name;
mod safe_files;
mod sink;
mod store;
mod words;

pub use agreement::simulation_agrees;
pub use arg::Arg;
pub use arguments::{ArgError, read_arg, words_spell_one_argument};
pub use files::{FileFault, FileRead, Files, READ_MOST};
pub use host_files::HostFiles;
pub use host_sink::HostSink;
pub use lines::put_number;
pub use mem_files::MemFiles;
pub use mem_sink::MemSink;
pub use memory::Memory;
pub use name::Name;
pub use safe_files::SafeFiles;
pub use sink::{Sink, SinkFault};
pub use words::{is_value, words_behind_name};
