//! Blocks, statements and clauses.

use crate::tree::declaration::{Identifier, Parameter};
use crate::tree::expression::Expression;
use crate::tree::index::Quantifier;

/// Statements in braces. The offset is that of the opening brace.
#[cycle(block)]
#[derive(Drop)]
pub struct Block {
    pub statements: Vec<Statement>,
    pub at: u32,
}

/// What is stated where control flow meets: the types of some variables. The offset is that of its first token.
#[derive(Drop)]
pub struct WrittenClause {
    pub quantifier: Option<Quantifier>,
    /// There is at least one.
    pub variables: Vec<Parameter>,
    pub at: u32,
}

/// A statement. The offset `at` is that of its keyword.
#[cycle(block)]
#[derive(Drop)]
pub enum Statement {
    /// `var`
    Declare {
        name: Identifier,
        value: Expression,
        at: u32,
    },
    /// `let`: the parts of a tuple, each to a name. There is at least one.
    Split {
        names: Vec<Identifier>,
        value: Expression,
        at: u32,
    },
    /// To a variable, or to a cell of it: each index stands with the offset of its `[`.
    Assign {
        target: Identifier,
        indices: Vec<(Expression, u32)>,
        value: Expression,
    },
    Call {
        function: Identifier,
        arguments: Vec<Expression>,
    },
    Print {
        value: Expression,
        at: u32,
    },
    If {
        test: Expression,
        on_true: Block,
        on_false: Option<Block>,
        join: Option<WrittenClause>,
        at: u32,
    },
    While {
        test: Expression,
        head: Option<WrittenClause>,
        body: Block,
        at: u32,
    },
    Return {
        value: Option<Expression>,
        at: u32,
    },
}
