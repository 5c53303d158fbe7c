//! Which variable has which column of the cells.
ghost use Rattle.std.specs.Prelude.{◌≡◌, ◌+◌, ◌<◌, ◌≤◌, ◌↔◌, [], ◌∷◌, ◌++◌, length, nat_lt, Some, true, false, IsTrue, OnSome, MatchOption, slice_get, ◌==◌};
ghost use Rattle.std.specs.List.{position};
ghost use Rattle.proof_lines.specs.Variables.{with_variable};
ghost use Rattle.proof_lines.specs.Cells.{AreDifferent};

use arrayvec::ArrayVec;
use std::marker::Model;

/// The most variables that have a column.
pub(crate) const MOST_COLUMNS: usize = 64;

// How many places for hints there are.
const HINTS: usize = 256;

/// The variables that have a column, the first of them column 0. No variable has two. It is seen as the list of the variables.
#[derive(Drop)]
pub(crate) struct Columns {
    vars: ArrayVec<u32, 64>,
    // The column in which a variable of this number modulo `HINTS` was found last. It is only a guess.
    hints: [u8; 256],
}

impl Model for Columns {
    ghost use Rattle.std.specs.Prelude.{ℕ, List};
    ghost use Rattle.proof_lines.specs.Cells.{AreDifferent};

    ghost Value = { List ℕ };

    ghost view = { λ columns. columns.vars.items };

    ghost invariant = { λ columns. AreDifferent columns.vars.items };
}

impl Columns {
    /// No columns.
    pub(crate) fn new() -> Columns
        ensures { result ≡ [] }
    {
        Columns {
            vars: ArrayVec::new(),
            hints: [0; HINTS],
        }
    }

    /// How many variables have a column.
    pub(crate) fn count(&self) -> usize
        ensures { result ≡ length self.now }
    {
        self.vars.len()
    }

    /// The column of the variable, which gets a new one where it has none. `None` comes where it has none and all 64 are taken.
    pub(crate) fn column(&mut self, var: u32) -> Option<usize>
        ensures found { MatchOption result (nat_lt 64 (length (with_variable self.old var)) ≡ true) (λ column. slice_get self.new column ≡ Some var) }
        ensures variables { OnSome result (self.new ≡ with_variable self.old var) }
        ensures few { length self.new ≤ 64 }
        ensures different { AreDifferent self.new }
    {
        let hint = var as usize % HINTS;
        let guess = self.hints[hint] as usize;
        if is_at(self.vars.as_slice(), guess, var) {
            return Some(guess);
        }
        let column = found_or_added(&mut self.vars, var)?;
        self.hints[hint] = column as u8;
        Some(column)
    }
}

// Whether the variable has this column.
fn is_at(vars: &[u32], column: usize, var: u32) -> bool
    ensures { IsTrue result ↔ (slice_get vars.now column ≡ Some var) }
{
    match vars.get(column) {
        Some(found) => *found == var,
        None => false,
    }
}

// The column of the variable, if it has one.
fn place_of(vars: &[u32], var: u32) -> Option<usize>
    ensures { result ≡ position (λ other. other == var) vars.now }
{
    vars.iter().position(|other| *other == var)
}

// The column of the variable, which is put behind the others where it is not among them and there is room.
fn found_or_added(vars: &mut ArrayVec<u32, 64>, var: u32) -> Option<usize>
    ensures found { MatchOption result (nat_lt 64 (length (with_variable vars.old.items var)) ≡ true) (λ column. (slice_get vars.new.items column ≡ Some var) × (column < 64)) }
    ensures variables { OnSome result (vars.new.items ≡ with_variable vars.old.items var) }
    ensures few { length vars.new.items ≤ 64 }
    ensures different { AreDifferent vars.old.items → AreDifferent vars.new.items }
{
    if let Some(column) = place_of(vars.as_slice(), var) {
        return Some(column);
    }
    if vars.is_full() {
        return None;
    }
    let column = vars.len();
    vars.push(var);
    Some(column)
}
