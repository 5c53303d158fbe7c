//! The core of a program, which keeps the rules of a core.

ghost use Rattle.std.specs.Prelude.{◌≡◌};
ghost use Rattle.xanadu_tree.specs.PlainOf.{CoreParts, plain_core};
ghost use Rattle.xanadu_tree.specs.Shaped.{Shaped};

use crate::stmt::CoreStmt;
use crate::types::{CoreTy, Kind, Packing, Quant};
use std::marker::Model;
use xan_io::Name;
use xan_seq::Seq;

/// A program whose names are resolved: its declared types, which are numbered from 2 on, its functions, and which of them is `main`.
///
/// A core is a program: it keeps the rules of scopes, of simple kinds, and of what index variables may be named (`docs/language.md`).
#[derive(Drop)]
pub struct Core {
    types: Seq<Packing>,
    funs: Seq<CoreFun>,
    main: u32,
}

impl Model for Core {
    ghost use Rattle.std.specs.Coded.{codes};
    ghost use Rattle.xanadu_tree.specs.PlainOf.{CoreParts, plain_core};
    ghost use Rattle.xanadu_tree.specs.Shaped.{Shaped};
    ghost use Rattle.xanadu_tree.specs.contracts.stmt.CoreStmt as statement;

    ghost Value = { CoreParts };

    ghost coded = { Prim.hlevel (codes, statement.the_row.coded) };

    ghost view = { λ core. record { types = core.types; funs = core.funs; main = core.main } };

    ghost invariant = { λ core. Shaped (plain_core (record { types = core.types; funs = core.funs; main = core.main })) };
}

impl Core {
    /// The core of these declared types and functions, `main` the number of the function of that name. They keep the rules.
    pub fn new(types: Seq<Packing>, funs: Seq<CoreFun>, main: u32) -> Core
        requires { Shaped (plain_core (record { types = types; funs = funs; main = main })) }
        ensures { result ≡ record { types = types; funs = funs; main = main } }
    {
        Core { types, funs, main }
    }

    /// The declared types.
    pub fn types(&self) -> &[Packing]
        ensures { result.now ≡ self.now.types }
    {
        self.types.as_slice()
    }

    /// The functions. That they, the types and `main` keep the rules of a core is a clause here.
    pub fn funs(&self) -> &[CoreFun]
        ensures funs { result.now ≡ self.now.funs }
        ensures rules { Shaped (plain_core self.now) }
    {
        self.funs.as_slice()
    }

    /// The number of `main`.
    pub fn main(&self) -> u32
        ensures { result ≡ self.now.main }
    {
        self.main
    }
}

/// A function. Its first variables are its parameters, in order, and then each declared one in the order of the text.
#[derive(Drop)]
pub struct CoreFun {
    pub name: Name,
    /// The function's own index variables, which its parameters name.
    pub quant: Quant,
    pub params: Seq<CoreTy>,
    /// The result's own index variables, numbered after the function's.
    pub result_quant: Quant,
    pub result: CoreTy,
    /// The kind of each variable.
    pub kinds: Seq<Kind>,
    pub body: Vec<CoreStmt>,
    /// The offset of its `fun`.
    pub at: u32,
}
