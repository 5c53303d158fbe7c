//! The tree of the source language: a type for each production, its parts in the production's order, and the offset of its first token.

mod declaration;
mod expression;
mod index;
mod statement;
mod types;

pub use declaration::{
    Declaration, FunctionDeclaration, Identifier, Parameter, ResultType, Tree, TypeBody,
    TypeDeclaration,
};
pub use expression::{
    Comparison, Conjunction, Expression, Negation, Postfix, Primary, Product, Sum, Unary,
};
pub use index::{
    Binder, IndexExpression, IndexRelation, IndexTerm, Quantifier, Relation, Sign, Sort,
};
pub use statement::{Block, Statement, WrittenClause};
pub use types::{Element, Type};
