//! The steps of an elimination, and the room to trace them back.
ghost use Rattle.std.specs.Prelude.{◌≡◌, ◌+◌, ◌<◌, ◌≤◌, [], ◌∷◌, ◌++◌, length, take, IfOk, vec_capacity};
ghost use Rattle.linear_solver.specs.Tracing.{traced};

use crate::tracing::{kept, needed, up_to};
use solver_rows::Step;
use std::alloc::Global;
use std::marker::Model;
use std::mem;
use xan_lin::Memory;

/// How many steps there is room for.
pub(crate) const MOST_STEPS: usize = 257_026;

/// Steps with room for 257,026 of them, which no elimination passes. The room is taken once and kept. They are seen as their list.
#[derive(Drop)]
pub(crate) struct Steps {
    steps: Vec<Step>,
    // Room for those that are kept, for a mark on each, and for the new number of each.
    kept: Vec<Step>,
    marks: Vec<bool>,
    numbers: Vec<u32>,
}

impl Model for Steps {
    ghost use Rattle.std.specs.Prelude.{List};
    ghost use Rattle.solver_rows.specs.declared.step.Step.{Step};
    ghost use Rattle.linear_solver.specs.Buffers.{IsBuffer};

    ghost Value = { List Step };

    ghost view = { λ steps. steps.steps.items };

    ghost invariant = { IsBuffer };
}

impl Steps {
    /// No steps.
    pub(crate) fn new(alloc: Global) -> Result<Steps, Memory>
        ensures { IfOk result (λ steps. steps ≡ []) }
    {
        let Ok(steps) = Vec::with_capacity(alloc, MOST_STEPS) else {
            return Err(Memory);
        };
        let Ok(kept) = Vec::with_capacity(alloc, MOST_STEPS) else {
            return Err(Memory);
        };
        let Ok(marks) = Vec::with_capacity(alloc, MOST_STEPS) else {
            return Err(Memory);
        };
        let Ok(numbers) = Vec::with_capacity(alloc, MOST_STEPS) else {
            return Err(Memory);
        };
        Ok(Steps {
            steps,
            kept,
            marks,
            numbers,
        })
    }

    /// The steps.
    pub(crate) fn all(&self) -> &[Step]
        ensures steps { result.now ≡ self.now }
        ensures few { length result.now ≤ 257026 }
    {
        self.steps.as_slice()
    }

    /// Gives up all steps.
    pub(crate) fn clear(&mut self)
        ensures { self.new ≡ [] }
    {
        self.steps.clear();
    }

    /// Puts a step behind the others, for which there is room, and answers its number.
    pub(crate) fn push(&mut self, step: Step) -> u32
        requires { length self.old < 257026 }
        ensures number { result ≡ length self.old }
        ensures pushed { self.new ≡ self.old ++ step ∷ [] }
    {
        let number = self.steps.len();
        let Ok(()) = self.steps.push(step) else {
            unreachable!()
        };
        number as u32
    }

    /// Leaves the steps from which the step of this number is made, counted anew.
    #[tactic(auto, unfolding(crate::specs::Tracing::traced))]
    pub(crate) fn trace(&mut self, line: u32)
        ensures { self.new ≡ traced self.old line }
    {
        let front = up_to(self.steps.as_slice(), line);
        needed(front, line, &mut self.marks);
        kept(
            front,
            self.marks.as_slice(),
            &mut self.numbers,
            &mut self.kept,
        );
        mem::swap(&mut self.steps, &mut self.kept);
    }
}
