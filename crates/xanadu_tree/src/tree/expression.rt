//! Expressions: a type for each level of precedence, the loosest first. In each, `at` is the offset of its first token.

use crate::expr::{Op, Rel};
use crate::tree::declaration::Identifier;
use crate::tree::types::Element;

/// Conjunctions with `||` between them. Each after the first stands with the offset of the operator before it.
#[cycle(expression)]
#[derive(Drop)]
pub struct Expression {
    pub first: Conjunction,
    pub rest: Vec<(Conjunction, u32)>,
    pub at: u32,
}

/// Negations with `&&` between them. Each after the first stands with the offset of the operator before it.
#[cycle(expression)]
#[derive(Drop)]
pub struct Conjunction {
    pub first: Negation,
    pub rest: Vec<(Negation, u32)>,
    pub at: u32,
}

/// A comparison, with a `!` before it or without.
#[cycle(expression)]
#[derive(Drop)]
pub struct Negation {
    pub negated: bool,
    pub operand: Comparison,
    pub at: u32,
}

/// A sum, or two sums that are compared.
#[cycle(expression)]
#[derive(Drop)]
pub struct Comparison {
    pub left: Sum,
    pub right: Option<(Rel, Box<Sum>)>,
    pub at: u32,
}

/// Products with `Add` or `Sub` between them. Each after the first stands with its operator and the offset of that.
#[cycle(expression)]
#[derive(Drop)]
pub struct Sum {
    pub first: Product,
    pub rest: Vec<(Op, Product, u32)>,
    pub at: u32,
}

/// Operands with `Mul`, `Div` or `Mod` between them. Each after the first stands with its operator and the offset of that.
#[cycle(expression)]
#[derive(Drop)]
pub struct Product {
    pub first: Unary,
    pub rest: Vec<(Op, Unary, u32)>,
    pub at: u32,
}

/// An operand, with a `-` before it or without.
#[cycle(expression)]
#[derive(Drop)]
pub struct Unary {
    pub negative: bool,
    pub operand: Postfix,
    pub at: u32,
}

/// A primary, with indices in brackets behind it. Each index stands with the offset of its `[`.
#[cycle(expression)]
#[derive(Drop)]
pub struct Postfix {
    pub primary: Primary,
    pub indices: Vec<(Expression, u32)>,
    pub at: u32,
}

/// The least expressions. The `u32` that stands last is the offset of the first token.
#[cycle(expression)]
#[derive(Drop)]
pub enum Primary {
    /// At least 0.
    Number(i64, u32),
    Truth(bool, u32),
    Variable(Identifier),
    Call(Identifier, Vec<Expression>),
    /// A tuple of a declared type. There is at least one part.
    Make(Identifier, Vec<Expression>),
    Length(Box<Expression>, u32),
    /// An array of cells of this type, with this length and this value in each cell.
    New {
        element: Element,
        length: Box<Expression>,
        fill: Box<Expression>,
        at: u32,
    },
    /// An expression in parentheses.
    Group(Box<Expression>, u32),
}
