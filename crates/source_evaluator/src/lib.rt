//! The evaluator of the source: what a program whose goals are proved comes to.
//!
//! The meaning of a core is a recursion, in `typed_core`; here is a machine that keeps its pending work in vectors, so that its own calls are
//! no deeper than the nesting of the source, and comes to exactly the same. It stands on `typed_core` for the meaning, on `xanadu_tree` for
//! cores, and on `xan_io` for arguments and output.
#![tactic(auto)]

mod control;
mod end;
mod evaluation;
mod expressions;
mod laws;
mod machine;
mod operands;
mod run;
mod stack;
mod statements;
mod step;
mod tasks;

pub use crate::end::{EvalError, SourceEnd};
pub use crate::evaluation::eval;
pub use crate::laws::{a_step_tells_what_the_machine_comes_to, the_first_machine_is_the_run};
