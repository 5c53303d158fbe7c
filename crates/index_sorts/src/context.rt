//! The context and its calls.
ghost use Rattle.std.specs.Prelude.{◌≡◌, ◌≤◌, ◌⊎◌, ◌↔◌, IsTrue, IfOk, IfErr, OnOk, OnErr, Ok, Err, length, All};
ghost use Rattle.index_sorts.specs.Context.{NamesBelow, new_context, fresh_from, with_variables};
ghost use Rattle.index_sorts.specs.Known.{IsKnown, knows, with_row};

use crate::compare::is_known;
use crate::error::ContextError;
use std::alloc::Global;
use std::marker::Model;
use xan_lin::{Form, Memory};

// The most variables that a context has.
const MOST_VARIABLES: u32 = 1024;

// The most rows that a context lists.
const MOST_ROWS: usize = 512;

/// Index variables, numbered from 0, and the rows that are taken to hold of them. It has at most 1,024 variables and at most 512 rows,
/// and a row names only variables of the context. It is seen as the number of its variables and the list of its rows.
#[derive(Drop)]
pub struct Context {
    vars: u32,
    rows: Vec<Form>,
}

impl Model for Context {
    ghost use Rattle.index_sorts.specs.Context.{IndexContext, IsContext};

    ghost Value = { IndexContext };

    ghost view = { λ context. record { vars = context.vars; rows = context.rows.items } };

    ghost invariant = { λ context. IsContext (record { vars = context.vars; rows = context.rows.items }) };
}

impl Context {
    /// The context of so many variables and no rows. `Variables` comes exactly where they are more than 1,024. It takes no memory.
    pub fn new(alloc: Global, vars: u32) -> Result<Context, ContextError>
        ensures { result ≡ new_context vars }
    {
        if vars > MOST_VARIABLES {
            return Err(ContextError::Variables);
        }
        Ok(Context {
            vars,
            rows: Vec::new(alloc),
        })
    }

    /// How many variables there are.
    pub fn vars(&self) -> u32
        ensures vars { result ≡ self.now.vars }
        ensures few { result ≤ 1024 }
    {
        self.vars
    }

    /// The rows, in the order in which they came.
    pub fn rows(&self) -> &[Form]
        ensures rows { result.now ≡ self.now.rows }
        ensures few { length result.now ≤ 512 }
        ensures named { All (NamesBelow self.now.vars) result.now }
    {
        self.rows.as_slice()
    }

    /// Whether the row is known: it has no variable and its constant is at least 0, or it is one of the rows.
    pub fn knows(&self, row: &Form) -> bool
        ensures test { result ≡ knows self.now row.now }
        ensures known { IsTrue result ↔ IsKnown self.now row.now }
    {
        is_known(row, self.rows.as_slice())
    }

    /// Adds so many variables and answers the number of the first. `Variables` comes exactly where there would be more than 1,024, and
    /// then nothing changes. It takes no memory.
    pub fn fresh(&mut self, count: u32) -> Result<u32, ContextError>
        ensures first { result ≡ fresh_from self.old count }
        ensures more { OnOk result (self.new ≡ with_variables self.old count) }
        ensures unchanged { OnErr result (self.new ≡ self.old) }
    {
        if count > MOST_VARIABLES - self.vars {
            return Err(ContextError::Variables);
        }
        let first = self.vars;
        self.vars += count;
        Ok(first)
    }

    /// Puts the row behind the others, unless it is known already. `Rows` comes exactly where it is not known and 512 rows stand, and
    /// `Variables` never. After a refusal nothing has changed.
    #[tactic(auto, unfolding(crate::specs::Known::with_row))]
    pub fn add(&mut self, row: Form) -> Result<(), ContextError>
        requires { NamesBelow self.old.vars row }
        ensures added { OnOk result (with_row self.old row ≡ Ok self.new) }
        ensures refused { IfErr result (λ error. (error ≡ ContextError.Memory) ⊎ (with_row self.old row ≡ Err error)) }
        ensures unchanged { OnErr result (self.new ≡ self.old) }
        ensures variables { self.new.vars ≡ self.old.vars }
    {
        if self.knows(&row) {
            return Ok(());
        }
        if self.rows.len() >= MOST_ROWS {
            return Err(ContextError::Rows);
        }
        let Ok(()) = self.rows.push(row) else {
            return Err(ContextError::Memory);
        };
        Ok(())
    }

    /// An equal context.
    pub fn copy(&self) -> Result<Context, Memory>
        ensures { IfOk result (λ context. context ≡ self.now) }
    {
        let rows = copied_rows(self.rows.as_slice(), *self.rows.allocator())?;
        Ok(Context {
            vars: self.vars,
            rows,
        })
    }
}

// The same rows in a vector of their own.
fn copied_rows(rows: &[Form], alloc: Global) -> Result<Vec<Form>, Memory>
    ensures { IfOk result (λ copied. copied.items ≡ rows.now) }
{
    let Ok(mut copied) = Vec::with_capacity(alloc, rows.len()) else {
        return Err(Memory);
    };
    for row in rows {
        let Ok(()) = copied.push(row.copy()) else {
            return Err(Memory);
        };
    }
    Ok(copied)
}
