//! Rows of the systems of an elimination, while they are made.
//!
//! A row lies in cells: its constant, and then the coefficient of each variable that bears on the goal. Beside it stand the step that gives
//! it and the signs of its coefficients. Here a form becomes a row, two rows are summed so that a variable goes out, and a row is divided by
//! what its coefficients have in common. What is made of systems of rows stands in `linear_solver`. It stands on `index_sorts`,
//! `proof_lines` and `xan_lin`.
#![tactic(auto)]

mod cells;
mod divisors;
mod hashes;
mod numbers;
mod side;
mod signs;
mod source;
mod spread;
mod step;
mod tight;

pub use crate::cells::{Cells, WIDTH, are_same, coefficients, combine, constant_of, padded};
pub use crate::divisors::{Multipliers, multipliers_for};
pub use crate::hashes::hash;
pub use crate::side::Side;
pub use crate::signs::{Signs, next_column};
pub use crate::source::{Sign, Source};
pub use crate::spread::make_row;
pub use crate::step::Step;
pub use crate::tight::{NewRow, tighten};
