//! The variables that bear on a row, as they are found.
ghost use Rattle.std.specs.Prelude.{◌≡◌, ◌+◌, ◌<◌, ◌≤◌, [], ◌∷◌, ◌++◌, length, false, true, if◌then◌else◌, IfOk, ℕ};
ghost use Rattle.std.specs.List.{slice_index_or};
ghost use Rattle.proof_lines.specs.Variables.{is_among, with_variable};
ghost use Rattle.linear_solver.specs.Cone.{touches};
ghost use Rattle.linear_solver.specs.FoundVariables.{AreMarked};

use crate::cone::is_among;
use std::alloc::Global;
use std::marker::Model;
use xan_lin::{Memory, Term};

// How many variables a walk over the hypotheses of a goal can come to find.
const MOST_FOUND: usize = 8272;

// How many variables have a place in the map: those of a context.
const MAPPED: usize = 1024;

/// Variables in the order in which they are found, and a map of those that are among them. It is seen as their list. The room is taken once.
#[derive(Drop)]
pub(crate) struct Found {
    vars: Vec<u32>,
    // Whether each of a context's variables is there.
    map: [bool; 1024],
}

impl Model for Found {
    ghost use Rattle.std.specs.Prelude.{ℕ, List};
    ghost use Rattle.linear_solver.specs.FoundVariables.{IsFound};

    ghost Value = { List ℕ };

    ghost view = { λ found. found.vars.items };

    ghost invariant = { IsFound };
}

impl Found {
    /// No variables, and room for all that can be found.
    pub(crate) fn new(alloc: Global) -> Result<Found, Memory>
        ensures { IfOk result (λ found. found ≡ []) }
    {
        let Ok(vars) = Vec::with_capacity(alloc, MOST_FOUND) else {
            return Err(Memory);
        };
        let map = no_marks();
        Ok(Found { vars, map })
    }

    /// The variables.
    pub(crate) fn all(&self) -> &[u32]
        ensures { result.now ≡ self.now }
    {
        self.vars.as_slice()
    }

    /// How many there are.
    pub(crate) fn count(&self) -> usize
        ensures { result ≡ length self.now }
    {
        self.vars.len()
    }

    /// Gives up all variables.
    pub(crate) fn clear(&mut self)
        ensures { self.new ≡ [] }
    {
        self.vars.clear();
        self.map = no_marks();
    }

    /// Whether the variable is there.
    pub(crate) fn has(&self, var: u32) -> bool
        ensures { result ≡ is_among var self.now }
    {
        let place = var as usize;
        if place < MAPPED {
            return self.map[place];
        }
        is_among(var, self.vars.as_slice())
    }

    /// Whether one of the terms has one of the variables.
    pub(crate) fn touches(&self, terms: &[Term]) -> bool
        ensures { result ≡ touches self.now terms.now }
    {
        terms.iter().any(|term| self.has(term.var))
    }

    /// Adds the variable, unless it is there.
    pub(crate) fn add(&mut self, var: u32)
        requires { length self.old < 8272 }
        ensures { self.new ≡ with_variable self.old var }
    {
        if !self.has(var) {
            self.put(var);
        }
    }

    // Puts a variable that is not there.
    fn put(&mut self, var: u32)
        requires { length self.old < 8272 }
        ensures { self.new ≡ self.old ++ var ∷ [] }
    {
        let Ok(()) = self.vars.push(var) else {
            unreachable!()
        };
        mark(&mut self.map, var);
    }
}

// No variable is marked.
fn no_marks() -> [bool; 1024]
    ensures { (var : ℕ) → slice_index_or result var false ≡ false }
{
    [false; MAPPED]
}

// Marks the variable, where it has a place in the map.
fn mark(map: &mut [bool; 1024], var: u32)
    ensures { AreMarked map.old var map.new }
{
    let place = var as usize;
    if place < MAPPED {
        map[place] = true;
    }
}
