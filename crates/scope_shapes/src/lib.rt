//! The shape of a source: from its tree to its core, or the first fault of scope or of simple kind.
//!
//! [`resolve`] numbers the names of a tree, checks scopes and simple kinds, and answers the core or the first fault. Statements, bodies and
//! the whole are here; types and headers are those of `type_shapes`, expressions and tests those of `expression_shapes`, and both trees
//! those of `xanadu_tree`.
#![tactic(auto)]

mod block;
mod bodies;
mod clause;
mod laws;
mod simple;
mod walk;

pub use laws::shapes_are_shaped;
pub use walk::resolve;
