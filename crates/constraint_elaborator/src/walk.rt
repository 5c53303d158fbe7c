//! The call.

ghost use Rattle.std.specs.Prelude.{◌≡◌, [], Ok};
ghost use Rattle.header_elaborator.specs.Code.{Gives};
ghost use Rattle.constraint_elaborator.specs.Top.{Elaborates, elaboration};
ghost use Rattle.typed_core.specs.Goals.{elaborated};
ghost use Rattle.xanadu_tree.specs.PlainOf.{plain_core};
ghost use Rattle.xanadu_tree.specs.Shaped.{Shaped};

use crate::bodies::{Made, functions};
use crate::error::ElabError;
use header_elaborator::{Stop, few_declarations, signatures, table_of};
use state_types::{Signature, TypeTable};
use std::alloc::Global;
use typed_core::{
    Elaborated, shaped_cores_fit, shaped_cores_never_stray, shaped_declarations_are_closed,
};
use xan_seq::Seq;
use xanadu_tree::Core;

/// All that elaboration makes of a core.
#[derive(Drop)]
pub(crate) struct Parts {
    table: TypeTable,
    sigs: Vec<Signature>,
    made: Made,
}

/// What elaboration makes of a core, or why it stops.
#[tactic(auto, unfolding(typed_core::specs::Goals::elaborated))]
fn parts_of(alloc: Global, core: &Core) -> Result<Parts, Stop>
    ensures { Gives elaboration result (elaborated (plain_core core.now)) }
{
    few_declarations(core)?;
    let table = table_of(alloc, core.types())?;
    let sigs = signatures(alloc, core.funs())?;
    shaped_declarations_are_closed();
    let made = functions(alloc, &table, sigs.as_slice(), core.funs())?;
    Ok(Parts { table, sigs, made })
}

/// The goals of a core, with its closed types, its signatures and the notes of its bodies. `Limit` comes exactly at the first limit that
/// the core passes: how many declarations there are, then types, headers, and bodies.
pub fn elaborate(alloc: Global, core: Core) -> Result<Elaborated, ElabError>
    ensures { Elaborates core result }
{
    shaped_cores_fit();
    shaped_cores_never_stray();
    let _funs = core.funs();
    match parts_of(alloc, &core) {
        Ok(parts) => Ok(Elaborated::new(
            core,
            parts.table,
            Seq::from_vec(parts.sigs),
            Seq::from_vec(parts.made.notes),
            Seq::from_vec(parts.made.goals),
        )),
        Err(Stop::Past(kind)) => Err(ElabError::Limit(kind)),
        Err(Stop::Memory) => Err(ElabError::Memory),
        Err(Stop::Misfit | Stop::Stray) => unreachable!(),
    }
}
