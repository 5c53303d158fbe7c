//! Different names in the order of the text, numbered from 0.

ghost use Rattle.std.specs.Prelude.{◌≡◌, []};
ghost use Rattle.xan_io.specs.declared.memory.Memory.{Memory as NoMemory};
ghost use Rattle.type_shapes.specs.Code.{Gives, Steps};
ghost use Rattle.type_shapes.specs.Names.{place, added};

use crate::error::{ShapeError, ShapeKind};
use indexmap::IndexSet;
use std::alloc::Global;
use std::marker::Model;
use xanadu_tree::Identifier;

/// Names, which contracts see as their list.
#[derive(Drop)]
pub struct Table<'a> {
    names: IndexSet<&'a [u8]>,
}

impl<'a> Model for Table<'a> {
    ghost use Rattle.std.specs.Prelude.{List, ℕ, map};
    ghost use Rattle.std.specs.Coded.{codes};

    ghost Value = { List (List ℕ) };

    ghost coded = { Prim.hlevel codes };

    ghost view = { λ table. map (λ name. name.now) table.names.keys };
}

impl<'a> Table<'a> {
    /// No names.
    pub fn new(alloc: Global) -> Table<'a>
        ensures { result ≡ [] }
    {
        Table {
            names: IndexSet::new(alloc),
        }
    }

    /// The number of a name.
    pub fn place(&self, name: &[u8]) -> Option<usize>
        ensures { result ≡ place name.now self.now }
    {
        self.names.get_index_of(name)
    }

    /// One name more, which has the next number; or the fault that it is named twice.
    pub fn add(&mut self, name: &'a Identifier) -> Result<(), ShapeError>
        ensures { Gives (λ _. self.new) result (added name.now self.old) }
    {
        if self.names.insert(name.name.bytes())? {
            return Ok(());
        }
        Err(ShapeError::Fault {
            at: name.at,
            kind: ShapeKind::NamedTwice,
        })
    }
}
