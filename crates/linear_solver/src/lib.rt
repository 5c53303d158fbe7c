//! Elimination that leaves proofs.
//!
//! [`refute`] answers exactly what the elimination of variables says of a goal over the rows of a context. Where it is `Proved`, its steps
//! stand for lines that `proof_lines` accepts, so that the goal is entailed over all integers. It stands on `solver_rows`, `index_sorts`,
//! `proof_lines`, `xan_lin` and `xan_pool`.
#![tactic(auto)]

mod answer;
mod choose;
mod cone;
mod counts;
mod first;
mod forms;
mod found;
mod hints;
mod laws;
mod line_buf;
mod next;
mod numbering;
mod places;
mod rounds;
mod solver;
mod steps;
mod tracing;
mod variables;
mod workspace;

pub use crate::answer::{Answer, SOLVER_ROWS};
pub use crate::choose::{Choice, Look};
pub use crate::laws::{proved_goals_are_entailed, steps_mean_a_proof};
pub use crate::line_buf::LineBuf;
pub use crate::solver::refute;
pub use solver_rows::Step;
pub use xan_lin::Memory;
