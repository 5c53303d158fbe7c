//! What elaboration makes of a core.

ghost use Rattle.std.specs.Prelude.{◌≡◌};
ghost use Rattle.typed_core.specs.Proving.{ElaboratedParts, IsElaboration, elaboration_of};

use crate::goal::GoalAt;
use crate::note::Note;
use state_types::{Signature, TypeTable};
use std::marker::Model;
use xan_seq::Seq;
use xanadu_tree::Core;

/// A core with its closed types and signatures, and the notes and goals of its bodies, both in the order of elaboration. It keeps that
/// all of them are those of the core.
#[derive(Drop)]
pub struct Elaborated {
    core: Core,
    table: TypeTable,
    sigs: Seq<Signature>,
    notes: Seq<Note>,
    goals: Seq<GoalAt>,
}

impl Model for Elaborated {
    ghost use Rattle.std.specs.Coded.{codes};
    ghost use Rattle.typed_core.specs.Proving.{ElaboratedParts, IsElaboration, elaboration_of};
    ghost use Rattle.xanadu_tree.specs.contracts.program.Core as program;
    ghost use Rattle.state_types.specs.contracts.closed.Signature as signature;
    ghost use Rattle.typed_core.specs.contracts.note.Note as noted;
    ghost use Rattle.typed_core.specs.contracts.goal.GoalAt as goal_at;

    ghost Value = { ElaboratedParts };

    ghost coded = { Prim.hlevel (codes, program.the_row.coded, signature.the_row.coded, noted.the_row.coded, goal_at.the_row.coded) };

    ghost view = { λ it. record { core = it.core; made = elaboration_of it.table it.sigs it.notes it.goals } };

    ghost invariant = { λ it. IsElaboration it.core (elaboration_of it.table it.sigs it.notes it.goals) };
}

impl Elaborated {
    /// The core with these parts, which are those of the definition for it.
    pub fn new(
        core: Core,
        table: TypeTable,
        sigs: Seq<Signature>,
        notes: Seq<Note>,
        goals: Seq<GoalAt>,
    ) -> Elaborated
        requires { IsElaboration core (elaboration_of table sigs notes goals) }
        ensures { result ≡ record { core = core; made = elaboration_of table sigs notes goals } }
    {
        Elaborated {
            core,
            table,
            sigs,
            notes,
            goals,
        }
    }

    /// The core. That all else is what elaboration makes of it is a clause here.
    pub fn core(&self) -> &Core
        ensures core { result.now ≡ self.now.core }
        ensures elaborated { IsElaboration self.now.core self.now.made }
    {
        &self.core
    }

    /// The closed types: 0 and 1, and then the declared ones.
    pub fn table(&self) -> &TypeTable
        ensures { result.now ≡ self.now.made.table }
    {
        &self.table
    }

    /// The signatures of the functions.
    pub fn sigs(&self) -> &[Signature]
        ensures { result.now ≡ self.now.made.sigs }
    {
        self.sigs.as_slice()
    }

    /// The notes, in the order of elaboration.
    pub fn notes(&self) -> &[Note]
        ensures { result.now ≡ self.now.made.notes }
    {
        self.notes.as_slice()
    }

    /// The goals, in the order of elaboration.
    pub fn goals(&self) -> &[GoalAt]
        ensures { result.now ≡ self.now.made.goals }
    {
        self.goals.as_slice()
    }
}
