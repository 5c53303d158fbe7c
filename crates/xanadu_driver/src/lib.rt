//! The compiler as a whole: from the words of its command line to a status, a line and a text.
//!
//! [`xanadu_top`] reads the source of one name and writes the text of another, or lists the goals of a source. Its contract says when each
//! status comes, what each name holds afterwards, what is said, and that a built text is accepted and does what its source does. It stands on
//! the lexer, the parser, the shapes, elaboration, the solver, the building of programs, the assembly language, and the files and the sink
//! that it is given.
#![tactic(auto)]

mod build;
mod counting;
mod eval;
mod goals;
mod laws;
mod top;
mod translate;

pub use laws::sources_have_one_fate;
pub use top::xanadu_top;
