//! Functions and programs.

use crate::instruction::LowInstr;
use state_types::{Signature, TypeTable};
use xan_io::Name;
use xan_seq::Seq;

/// How many places an activation has.
pub const PLACES: u16 = 240;

/// A function of the code over places.
#[derive(Drop)]
pub struct LowFun {
    /// Its name.
    pub name: Name,
    /// Its type.
    pub sig: Signature,
    /// How many places it uses: those below this number.
    pub places: u16,
    /// Its instructions, from position 0 on.
    pub code: Seq<LowInstr>,
    /// The position of each label, from label 1 on.
    pub labels: Seq<u32>,
}

/// A program of the code over places.
#[derive(Drop)]
pub struct Lowered {
    /// Its functions.
    pub funs: Seq<LowFun>,
    /// The closed types.
    pub table: TypeTable,
    /// The number of the function with which a run begins.
    pub main: u32,
}
