//! Quantifiers over index variables, and index expressions.

use crate::tree::declaration::Identifier;

/// Index variables in braces, and behind `|` what is assumed of them. The offset is that of the brace.
#[derive(Drop)]
pub struct Quantifier {
    /// There is at least one.
    pub binders: Vec<Binder>,
    pub relations: Vec<Relation>,
    pub at: u32,
}

/// An index variable and its sort.
#[derive(Drop)]
pub struct Binder {
    pub name: Identifier,
    pub sort: Sort,
}

/// What an index variable ranges over.
#[derive(Clone, Copy)]
pub enum Sort {
    Int,
    /// The integers from 0 on.
    Nat,
}

/// A relation between two index expressions.
#[derive(Drop)]
pub struct Relation {
    pub left: IndexExpression,
    pub relation: IndexRelation,
    pub right: IndexExpression,
}

#[derive(Clone, Copy)]
pub enum IndexRelation {
    Less,
    AtMost,
    Greater,
    AtLeast,
    Equal,
}

/// A sum of terms, each with a sign. The first has none, or a `-`.
#[derive(Drop)]
pub struct IndexExpression {
    pub negative: bool,
    pub first: IndexTerm,
    pub rest: Vec<(Sign, IndexTerm)>,
    pub at: u32,
}

#[derive(Clone, Copy)]
pub enum Sign {
    Plus,
    Minus,
}

/// A term of an index expression. A number is at least 0, and its offset stands last.
#[derive(Drop)]
pub enum IndexTerm {
    Number(i64, u32),
    /// A number times a variable.
    Product(i64, Identifier, u32),
    Variable(Identifier),
}
