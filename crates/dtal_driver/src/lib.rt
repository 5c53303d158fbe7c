//! The verifier and the machine as a whole: from the words of a command line to a status and lines.
//!
//! [`dtal_top`] reads the text of one name. `verify` says whether its program is accepted, `run` runs it and prints its numbers. Its
//! contract says when each status comes and what is said, that an accepted program is safe in every run, and that what is printed is the
//! program's output. It stands on the assembly language, its reader, verifier, assembler and machine, on the law of safety, and on the
//! files and the sink that it is given.
#![tactic(auto)]

mod answer;
mod counts;
mod lines;
mod load;
mod run;
mod text;
mod top;
mod words;

pub use top::dtal_top;
