//! The trees of the source language.
//!
//! A core is a program whose names are resolved to numbers: what the compiler's passes read. It keeps the rules of a program. Contracts
//! speak of its plain tree, which is the same tree over lists and says nothing of where a node lies in memory. It stands on `xan_io` and
//! `xan_seq`, and on `xanadu_lexer` for tokens.
#![tactic(auto)]

mod core_laws;
mod expr;
mod laws;
mod linear;
mod print;
mod program;
mod stmt;
mod tree;
mod types;

pub use core_laws::{clauses_are_numbered, kinds_are_unique, sums_are_shaped};
pub use expr::{CoreExpr, Op, Rel};
pub use laws::{printed_is_read_again, printed_tokens, read_trees_are_written, readings_are_alike};
pub use linear::Linear;
pub use print::print_tree;
pub use program::{Core, CoreFun};
pub use stmt::{Clause, CoreStmt, Test};
pub use tree::{
    Binder, Block, Comparison, Conjunction, Declaration, Element, Expression, FunctionDeclaration,
    Identifier, IndexExpression, IndexRelation, IndexTerm, Negation, Parameter, Postfix, Primary,
    Product, Quantifier, Relation, ResultType, Sign, Sort, Statement, Sum, Tree, Type, TypeBody,
    TypeDeclaration, Unary, WrittenClause,
};
pub use types::{CoreTy, Kind, Packing, Quant};
