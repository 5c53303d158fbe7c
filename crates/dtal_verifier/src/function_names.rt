//! The names of the functions so far, each looked up at once.

ghost use Rattle.std.specs.Prelude.{◌≡◌, [], IfOk};
ghost use Rattle.dtal_verifier.specs.Views.{IsAdded};

use indexmap::IndexSet;
use std::alloc::Global;
use std::marker::Model;
use xan_lin::Memory;

/// Different names, which contracts see as their list.
#[derive(Drop)]
pub(crate) struct FunctionNames<'a> {
    names: IndexSet<&'a [u8]>,
}

impl<'a> Model for FunctionNames<'a> {
    ghost use Rattle.std.specs.Prelude.{List, ℕ, map};
    ghost use Rattle.std.specs.Coded.{codes};

    ghost Value = { List (List ℕ) };

    ghost coded = { Prim.hlevel codes };

    ghost view = { λ table. map (λ name. name.now) table.names.keys };
}

impl<'a> FunctionNames<'a> {
    /// No names.
    pub(crate) fn new(alloc: Global) -> FunctionNames<'a>
        ensures { result ≡ [] }
    {
        FunctionNames {
            names: IndexSet::new(alloc),
        }
    }

    /// One name more, where none is the same. Whether it is new.
    pub(crate) fn add(&mut self, name: &'a [u8]) -> Result<bool, Memory>
        ensures { IfOk result (λ is_new. IsAdded self.old name.now is_new self.new) }
    {
        let Ok(is_new) = self.names.insert(name) else {
            return Err(Memory);
        };
        Ok(is_new)
    }
}
