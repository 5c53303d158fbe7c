//! State types.

ghost use Rattle.std.specs.Prelude.{◌≡◌, IfOk};

use crate::place_map::Places;
use index_sorts::Context;
use xan_lin::Memory;

/// What is known where a program stands: the index variables with the rows that hold of them, and the types of places.
#[derive(Drop)]
pub struct StateType {
    /// The variables, and the rows that hold of them.
    pub ctx: Context,
    /// The types of places.
    pub places: Places,
}

impl StateType {
    /// An equal state type.
    pub fn copy(&self) -> Result<StateType, Memory>
        ensures { IfOk result (λ state. state ≡ self.now) }
    {
        Ok(StateType {
            ctx: self.ctx.copy()?,
            places: self.places.copy()?,
        })
    }
}
