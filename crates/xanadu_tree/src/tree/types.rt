//! Types as they are written. The `u32` that stands last is the offset of the type's first token.

use crate::tree::declaration::Identifier;
use crate::tree::index::IndexExpression;

/// The type of an array's cells.
#[derive(Drop)]
pub enum Element {
    Int(u32),
    Bool(u32),
    Named(Identifier),
}

/// A type, with its index where one is written.
#[derive(Drop)]
pub enum Type {
    /// A number.
    Int(u32),
    /// A number that equals the index.
    IntOf(IndexExpression, u32),
    Bool(u32),
    Named(Identifier),
    /// An array of such cells, with its length where that is written.
    Array(Element, Option<IndexExpression>),
}
