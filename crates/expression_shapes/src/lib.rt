//! The expressions and tests of a function's body, from their trees to those of the core, or the first fault in them.
//!
//! A site is what is declared in the program and visible in the function where an expression stands. It stands on `type_shapes` for types,
//! headers and scopes, and on `xanadu_tree` for both trees.
#![tactic(auto)]

mod conditions;
mod expressions;
mod making;
mod places;
mod site;

pub use conditions::test;
pub use expressions::{call, expression, indexed};
pub use places::place_of;
pub use site::{
    Callee, Globals, Locals, Site, Typed, check_kind, check_tuple, check_value, kind_of_variable,
    variable,
};
