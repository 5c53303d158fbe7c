//! What names mean at a place of the text.

ghost use Rattle.std.specs.Prelude.{◌≡◌, ◌∷◌, [], length, drop, OnOk};
ghost use Rattle.type_shapes.specs.Names.{meaning, first};

use indexmap::IndexMap;
use std::alloc::Global;
use std::marker::Model;
use xan_io::Memory;

/// A name, the number that it is declared to mean, and what it meant before.
#[derive(Drop)]
struct Declared<'a> {
    name: &'a [u8],
    number: u32,
    before: Option<u32>,
}

/// Names with the numbers that they mean, which contracts see as their list, the latest first.
#[derive(Drop)]
pub struct Scope<'a> {
    /// What each name means now: nothing, where its declarations are taken back.
    meanings: IndexMap<&'a [u8], Option<u32>>,
    /// The declarations, the latest last.
    declarations: Vec<Declared<'a>>,
}

impl<'a> Model for Scope<'a> {
    ghost use Rattle.std.specs.Prelude.{List, ℕ, reverse};
    ghost use Rattle.std.specs.Coded.{codes};
    ghost use Rattle.type_shapes.specs.ScopeOf.{seen, IsKept};

    ghost Value = { List (List ℕ × ℕ) };

    ghost coded = { Prim.hlevel codes };

    ghost view = { λ scope. seen (reverse scope.declarations.items) };

    ghost invariant = { λ scope. IsKept scope.meanings.entries (reverse scope.declarations.items) };
}

impl<'a> Scope<'a> {
    /// No names.
    pub fn new(alloc: Global) -> Scope<'a>
        ensures { result ≡ [] }
    {
        Scope {
            meanings: IndexMap::new(alloc),
            declarations: Vec::new(alloc),
        }
    }

    /// How many declarations there are.
    pub fn len(&self) -> usize
        ensures { result ≡ length self.now }
    {
        self.declarations.len()
    }

    /// What a name means.
    pub fn meaning(&self, name: &[u8]) -> Option<u32>
        ensures { result ≡ meaning name.now self.now }
    {
        match self.meanings.get(name) {
            Some(current) => *current,
            None => None,
        }
    }

    /// Declares a name, which hides an earlier one.
    pub fn declare(&mut self, name: &'a [u8], number: u32) -> Result<(), Memory>
        ensures { OnOk result (self.new ≡ (name.now, number) ∷ self.old) }
    {
        let before = self.meaning(name);
        self.declarations.push(Declared {
            name,
            number,
            before,
        })?;
        match self.meanings.insert(name, Some(number)) {
            Ok(_) => Ok(()),
            Err(_) => {
                self.declarations.pop();
                Err(Memory)
            }
        }
    }

    /// Takes back the latest declaration.
    fn undo(&mut self)
        ensures { self.new ≡ drop 1 self.old }
    {
        if let Some(latest) = self.declarations.pop() {
            let Ok(_) = self.meanings.insert(latest.name, latest.before) else {
                unreachable!();
            };
        }
    }

    /// Takes back all declarations but the first `count`.
    #[tactic(auto, unfolding(crate::specs::Names::first))]
    pub fn release(&mut self, count: usize)
        ensures { self.new ≡ first count self.old }
    {
        for _ in count..self.len() {
            self.undo();
        }
    }
}
