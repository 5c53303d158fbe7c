//! Tables of closed types.

ghost use Rattle.std.specs.Prelude.{◌≡◌, ◌<◌, ◌≤◌, [], ◌∷◌, ◌++◌, length, All, OnOk, OnErr, IfOk, IfSome, option_map, slice_get};
ghost use Rattle.state_types.specs.Tables.{IsClosed, cell_of, closed_at, int_cell, bool_cell};

use crate::closed::Packed;
use crate::types::{Ty, TypeId};
use std::alloc::Global;
use std::marker::Model;
use xan_lin::{Form, Memory};
use xan_seq::Seq;

/// Closed types, numbered from 0: at most 65,536, each of which names only variables of its own. It is seen as the list of them.
#[derive(Drop)]
pub struct TypeTable {
    types: Vec<Packed>,
}

impl Model for TypeTable {
    ghost use Rattle.std.specs.Prelude.{List};
    ghost use Rattle.std.specs.Coded.{codes};
    ghost use Rattle.state_types.specs.contracts.closed.Packed as packed;
    ghost use Rattle.state_types.specs.declared.closed.Packed.{Packed as Plain};

    ghost Value = { List Plain };

    ghost coded = { Prim.hlevel (codes, packed.the_row.coded) };

    ghost use Rattle.state_types.specs.Tables.{IsTable};

    ghost view = { λ table. table.types.items };

    ghost invariant = { λ table. IsTable table.types.items };
}

// The closed type of one part and no rows.
fn cell(alloc: Global, vars: u32, part: Ty) -> Result<Packed, Memory>
    ensures { IfOk result (λ made. made ≡ cell_of vars part) }
{
    let mut parts = Vec::new(alloc);
    let Ok(()) = parts.push(part) else {
        return Err(Memory);
    };
    Ok(Packed {
        vars,
        rows: Seq::from_vec(Vec::new(alloc)),
        parts: Seq::from_vec(parts),
        tuple: false,
    })
}

impl TypeTable {
    /// The table of type 0, the cells that are any number, and type 1, the cells that are a truth value.
    pub fn new(alloc: Global) -> Result<TypeTable, Memory>
        ensures { IfOk result (λ table. table ≡ int_cell ∷ bool_cell ∷ []) }
    {
        let mut types = Vec::new(alloc);
        let Ok(()) = types.push(cell(alloc, 1, Ty::Int(Form::variable(0)))?) else {
            return Err(Memory);
        };
        let Ok(()) = types.push(cell(alloc, 0, Ty::Bool)?) else {
            return Err(Memory);
        };
        Ok(TypeTable { types })
    }

    /// Puts the type behind the others and answers its number. There are fewer than 65,536 types, and its rows and parts name only its
    /// own variables. After a refusal nothing has changed.
    pub fn add(&mut self, packed: Packed) -> Result<TypeId, Memory>
        requires few { length self.old < 65536 }
        requires closed { IsClosed packed }
        ensures number { IfOk result (λ id. id ≡ length self.old) }
        ensures added { OnOk result (self.new ≡ self.old ++ packed ∷ []) }
        ensures unchanged { OnErr result (self.new ≡ self.old) }
    {
        let id = self.types.len() as u32;
        let Ok(()) = self.types.push(packed) else {
            return Err(Memory);
        };
        Ok(id)
    }

    /// How many types there are.
    pub fn len(&self) -> u32
        ensures len { result ≡ length self.now }
        ensures few { result ≤ 65536 }
    {
        self.types.len() as u32
    }

    /// The type of this number, or `None` where there is none.
    pub fn get(&self, id: TypeId) -> Option<&Packed>
        ensures found { option_map (λ packed. packed.now) result ≡ slice_get self.now id }
        ensures closed { IfSome result (λ packed. IsClosed packed.now) }
    {
        self.types.get(id as usize)
    }

    // The type of this number, which is in the table.
    pub(crate) fn at(&self, id: TypeId) -> &Packed
        requires { id < length self.now }
        ensures found { result.now ≡ closed_at self.now id }
        ensures closed { IsClosed result.now }
    {
        &self.types[id as usize]
    }

    /// An equal table.
    pub fn copy(&self) -> Result<TypeTable, Memory>
        ensures { IfOk result (λ table. table ≡ self.now) }
    {
        let types = copied_packings(*self.types.allocator(), self.types.as_slice())?;
        Ok(TypeTable { types })
    }
}

// The same types in a vector of their own.
fn copied_packings(alloc: Global, types: &[Packed]) -> Result<Vec<Packed>, Memory>
    ensures { IfOk result (λ copied. copied.items ≡ types.now) }
{
    let mut copied = Vec::new(alloc);
    for packed in types {
        let Ok(()) = copied.push(packed.copy(alloc)?) else {
            return Err(Memory);
        };
    }
    Ok(copied)
}
