//! Lowering of values: the code over places of expressions.
//!
//! `specs/` says where variables, temporaries and operands are, what single instructions look like, and which code an expression has at a
//! depth, into a place. It stands on `typed_core` for the temporaries that the limits count, and on `three_address` for the code. The
//! code of tests, statements and programs is of `lowering`, above it.
#![tactic(auto)]

mod emitting;
mod kinds;
mod values;

pub use crate::emitting::{Stop, emit, emit_with, temporary, variable};
pub use crate::kinds::{kind_of, tuple_number};
pub use crate::values::{behind, comparison, in_order, operand, value};
