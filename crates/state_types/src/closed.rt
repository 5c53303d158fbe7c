//! Types that quantify index variables of their own.

ghost use Rattle.std.specs.Prelude.{◌≡◌, ◌↔◌, All, IfOk, IsTrue};
ghost use Rattle.xan_lin.specs.Linear.{NamesBelow};
ghost use Rattle.state_types.specs.Tables.{IsClosed};
ghost use Rattle.state_types.specs.Types.{TypeBelow};

use crate::copying::{copied_forms, copied_types};
use crate::types::{Ty, form_names_below};
use std::alloc::Global;
use xan_lin::{Form, Memory};
use xan_seq::Seq;

/// A closed type: for some values of its variables, numbered from 0, its rows hold and its parts have their types. It is the type of the
/// cells of an array, and has one part then, or of a tuple.
#[derive(Drop)]
pub struct Packed {
    /// How many variables it has.
    pub vars: u32,
    /// The rows that hold of them.
    pub rows: Seq<Form>,
    /// The types of its parts.
    pub parts: Seq<Ty>,
    /// Whether it is a tuple type.
    pub tuple: bool,
}

/// The type of a function: for all values of its variables for which the rows hold, it takes parameters of these types. Its result has its
/// type for some values of the result's own variables, numbered from `vars` on, for which the result's rows hold.
#[derive(Drop)]
pub struct Signature {
    /// How many variables it has.
    pub vars: u32,
    /// The rows that hold of them.
    pub rows: Seq<Form>,
    /// The types of the parameters.
    pub params: Seq<Ty>,
    /// How many variables the result has of its own.
    pub result_vars: u32,
    /// The rows that hold of the result.
    pub result_rows: Seq<Form>,
    /// The type of the result.
    pub result: Ty,
}

// Whether the rows name only variables less than `vars`.
fn rows_name_below(rows: &[Form], vars: u32) -> bool
    ensures { IsTrue result ↔ All (NamesBelow vars) rows.now }
{
    rows.iter().all(|row| form_names_below(row, vars))
}

// The same of types.
fn types_name_below(types: &[Ty], vars: u32) -> bool
    ensures { IsTrue result ↔ All (TypeBelow vars) types.now }
{
    types.iter().all(|ty| ty.names_below(vars))
}

impl Packed {
    /// Whether its rows and its parts name only its own variables.
    pub fn is_closed(&self) -> bool
        ensures { IsTrue result ↔ IsClosed self.now }
    {
        let vars = self.vars;
        rows_name_below(self.rows.as_slice(), vars) && types_name_below(self.parts.as_slice(), vars)
    }

    /// An equal closed type.
    pub fn copy(&self, alloc: Global) -> Result<Packed, Memory>
        ensures { IfOk result (λ packed. packed ≡ self.now) }
    {
        Ok(Packed {
            vars: self.vars,
            rows: copied_forms(alloc, self.rows.as_slice())?,
            parts: copied_types(alloc, self.parts.as_slice())?,
            tuple: self.tuple,
        })
    }
}

impl Signature {
    /// An equal signature.
    pub fn copy(&self, alloc: Global) -> Result<Signature, Memory>
        ensures { IfOk result (λ signature. signature ≡ self.now) }
    {
        Ok(Signature {
            vars: self.vars,
            rows: copied_forms(alloc, self.rows.as_slice())?,
            params: copied_types(alloc, self.params.as_slice())?,
            result_vars: self.result_vars,
            result_rows: copied_forms(alloc, self.result_rows.as_slice())?,
            result: self.result.copy(),
        })
    }
}
