//! The buffer of steps.
ghost use Rattle.std.specs.Prelude.{◌≡◌, ◌+◌, ◌^◌, ◌<◌, ◌≤◌, [], ◌∷◌, ◌++◌, length, IfOk, OnOk, OnErr};
ghost use Rattle.std.specs.List.{slice_index_or};
ghost use Rattle.xan_lin.specs.Subst.{zero_form};
ghost use Rattle.linear_solver.specs.Meaning.{lines_meant, line_meant};
ghost use Rattle.linear_solver.specs.Elimination.{refutation};
ghost use Rattle.linear_solver.specs.Solving.{Answers};

use crate::answer::Answer;
use crate::cone::find_cone;
use crate::found::Found;
use crate::rounds::in_cone;
use crate::steps::Steps;
use crate::workspace::Workspace;
use index_sorts::Context;
use proof_lines::Line;
use solver_rows::Step;
use std::alloc::Global;
use std::marker::Model;
use xan_lin::{Form, LimitKind, Memory};
use xan_pool::RowPool;

/// A buffer with room for 257,026 steps, which no elimination passes, and for all else that an elimination needs beside its pool. It is seen
/// as the list of its steps. The room is taken once and kept.
#[derive(Drop)]
pub struct LineBuf {
    steps: Steps,
    work: Workspace,
    // The variables that bear on a goal, as they are found.
    found: Found,
}

impl Model for LineBuf {
    ghost use Rattle.std.specs.Prelude.{List};
    ghost use Rattle.solver_rows.specs.declared.step.Step.{Step};
    ghost use Rattle.linear_solver.specs.LineBuffers.{IsLineBuf};

    ghost Value = { List Step };

    ghost view = { λ buffer. buffer.steps };

    ghost invariant = { IsLineBuf };
}

impl LineBuf {
    /// An empty buffer.
    pub fn new(alloc: Global) -> Result<LineBuf, Memory>
        ensures { IfOk result (λ buffer. buffer ≡ []) }
    {
        let found = Found::new(alloc)?;
        let steps = Steps::new(alloc)?;
        let work = Workspace::new(alloc)?;
        Ok(LineBuf { steps, work, found })
    }

    /// Its steps.
    pub fn steps(&self) -> &[Step]
        ensures steps { result.now ≡ self.now }
        ensures few { length result.now ≤ 257026 }
    {
        self.steps.all()
    }

    /// The lines that the steps mean over this context. A step that names a hypothesis past its rows means the row 0.
    pub fn lines(&self, alloc: Global, ctx: &Context) -> Result<Vec<Line>, Memory>
        ensures { IfOk result (λ lines. lines.items ≡ lines_meant ctx.now.rows self.now) }
    {
        lines_of(alloc, ctx.rows(), self.steps())
    }

    /// The elimination of the hypotheses and the opposite of the goal, which may stop at a limit. It leaves the steps that show it.
    #[tactic(auto, unfolding(crate::specs::Elimination::refutation))]
    pub(crate) fn eliminate(
        &mut self,
        pool: &mut RowPool,
        hyps: &[Form],
        goal: &Form,
    ) -> Result<Answer, LimitKind>
        requires width { pool.old.width ≡ 65 }
        requires room { length pool.old.rows + 4001 ≤ pool.old.capacity }
        requires few_rows { length hyps.now ≤ 512 }
        ensures answer { Answers result self.new (refutation hyps.now goal.now) }
        ensures unchanged { pool.new ≡ pool.old }
    {
        self.steps.clear();
        let Ok(start) = goal.negated_row() else {
            return Err(LimitKind::Magnitude);
        };
        if !find_cone(hyps, &start, &mut self.found) {
            return Err(LimitKind::Cone);
        }
        self.work.begin(pool, self.found.all());
        let answer = in_cone(hyps, &start, &mut self.work, &mut self.steps);
        self.work.end(pool);
        answer
    }
}

// The lines that the steps mean over these hypotheses.
fn lines_of(alloc: Global, hyps: &[Form], steps: &[Step]) -> Result<Vec<Line>, Memory>
    ensures { IfOk result (λ lines. lines.items ≡ lines_meant hyps.now steps.now) }
{
    let Ok(mut lines) = Vec::with_capacity(alloc, steps.len()) else {
        return Err(Memory);
    };
    match put_lines(hyps, steps, &mut lines) {
        Ok(()) => Ok(lines),
        Err(stop) => Err(stop),
    }
}

// Puts the lines that the steps mean over these hypotheses to an empty list.
fn put_lines(hyps: &[Form], steps: &[Step], lines: &mut Vec<Line>) -> Result<(), Memory>
    requires { lines.old.items ≡ [] }
    ensures { IfOk result (λ _. lines.new.items ≡ lines_meant hyps.now steps.now) }
{
    'steps: for step in steps {
        let Ok(()) = lines.push(line_of(hyps, step)) else {
            return Err(Memory);
        };
    }
    Ok(())
}

// The line that a step means.
fn line_of(hyps: &[Form], step: &Step) -> Line
    ensures { result ≡ line_meant hyps.now step.now }
{
    match step {
        Step::Hyp(row) => Line::Hyp(hypothesis(hyps, *row)),
        Step::Goal => Line::Goal,
        Step::Comb {
            left_by,
            left,
            right_by,
            right,
        } => Line::Comb {
            left_by: *left_by,
            left: *left,
            right_by: *right_by,
            right: *right,
        },
        Step::Cut { row, by } => Line::Cut { row: *row, by: *by },
    }
}

// The hypothesis of this number, or 0.
fn hypothesis(hyps: &[Form], row: u32) -> Form
    ensures { result ≡ slice_index_or hyps.now row zero_form }
{
    match hyps.get(row as usize) {
        Some(form) => form.copy(),
        None => zero_form(),
    }
}

// The form 0.
#[tactic(auto, unfolding(xan_lin::specs::Linear::sized, xan_lin::specs::Terms::sum_terms))]
fn zero_form() -> Form
    ensures { result ≡ zero_form }
{
    match Form::from_terms(&[], 0) {
        Ok(form) => form,
        Err(_) => unreachable!(),
    }
}
