//! A program and its declarations.

use crate::tree::index::Quantifier;
use crate::tree::statement::Block;
use crate::tree::types::Type;
use xan_io::Name;

/// A name as it is written, and the offset of its first byte. It begins with a small letter, or with a capital one where it names a type.
#[derive(Drop)]
pub struct Identifier {
    pub name: Name,
    pub at: u32,
}

/// A whole source: its declarations in order. The offset is that of the first token, or the length of the source where there is none.
#[derive(Drop)]
pub struct Tree {
    pub declarations: Vec<Declaration>,
    pub at: u32,
}

#[derive(Drop)]
pub enum Declaration {
    Type(TypeDeclaration),
    Function(FunctionDeclaration),
}

/// `type` NAME `=` .. `;`. The offset is that of `type`.
#[derive(Drop)]
pub struct TypeDeclaration {
    pub name: Identifier,
    pub quantifier: Option<Quantifier>,
    pub body: TypeBody,
    pub at: u32,
}

/// What a type declaration declares.
#[derive(Drop)]
pub enum TypeBody {
    /// A cell type: the type of each cell of an array.
    Cell(Type),
    /// A tuple type, by the types of its parts in parentheses. There is at least one.
    Tuple(Vec<Type>),
}

/// `fun` name .. with its body. The offset is that of `fun`.
#[derive(Drop)]
pub struct FunctionDeclaration {
    pub name: Identifier,
    pub quantifier: Option<Quantifier>,
    pub parameters: Vec<Parameter>,
    pub result: ResultType,
    pub body: Block,
    pub at: u32,
}

/// A name and its type, of a function's parameter or of a clause's variable.
#[derive(Drop)]
pub struct Parameter {
    pub name: Identifier,
    pub ty: Type,
}

/// What a function gives. The offset is that of its first token.
#[derive(Drop)]
pub enum ResultType {
    /// No value.
    Unit {
        at: u32,
    },
    Value {
        quantifier: Option<Quantifier>,
        ty: Type,
        at: u32,
    },
}
