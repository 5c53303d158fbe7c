use crate::linear::Linear;
use xan_seq::Seq;

/// The index variables that a type, a function, a result or a clause quantifies over, numbered from the first of its own, and what is
/// assumed of them: each row is a form that is at least 0.
#[derive(Drop)]
pub struct Quant {
    pub count: u32,
    pub rows: Seq<Linear>,
}

/// A type with its index. Types are numbered: 0 is the cell of a number, 1 that of a truth value, then the declared ones from 2 on.
#[derive(Drop)]
pub enum CoreTy {
    /// A number that equals the form.
    Int(Linear),
    /// A truth value.
    Bool,
    /// An array of cells of this type number, whose length equals the form.
    Array(u32, Linear),
    /// A tuple of this type number.
    Named(u32),
}

/// A type without its index.
#[derive(Clone, Copy)]
pub enum Kind {
    Int,
    Bool,
    /// An array of cells of this type number.
    Array(u32),
    /// A tuple of this type number.
    Named(u32),
    /// No value: what a call of a unit function gives.
    Unit,
}

/// A declared type: a tuple type, or a cell type with one part. It is closed by its own quantifier.
#[derive(Drop)]
pub struct Packing {
    pub quant: Quant,
    pub parts: Seq<CoreTy>,
    pub tuple: bool,
}
