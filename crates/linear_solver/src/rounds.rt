//! The rounds of the elimination.
ghost use Rattle.std.specs.Prelude.{◌≡◌, ◌≤◌, [], length, true};
ghost use Rattle.proof_lines.specs.Cells.{are_among};
ghost use Rattle.linear_solver.specs.Elimination.{ended, rounds, in_cone};
ghost use Rattle.linear_solver.specs.Solving.{Answers};
ghost use Rattle.linear_solver.specs.Region.{AreClosed, HasRoom};

use crate::answer::Answer;
use crate::choose::{Look, look_at};
use crate::first::first_rows;
use crate::next::next_rows;
use crate::steps::Steps;
use crate::variables::column_of;
use crate::workspace::Workspace;
use xan_lin::{Form, LimitKind};

/// The most rounds: each takes a variable away, of at most 64.
pub(crate) const MOST_ROUNDS: usize = 64;

/// The elimination of the variables from the hypotheses and the opposite of the goal. Where it proves, the steps are left that show it.
pub(crate) fn in_cone(
    hyps: &[Form],
    start: &Form,
    work: &mut Workspace,
    steps: &mut Steps,
) -> Result<Answer, LimitKind>
    requires few { length work.old.vars ≤ 64 }
    requires few_rows { length hyps.now ≤ 512 }
    requires closed { AreClosed work.old.vars hyps.now }
    requires among { are_among work.old.vars start.now.terms ≡ true }
    requires none { work.old.rows ≡ [] }
    requires empty { work.old.made ≡ [] }
    requires room { HasRoom work.old }
    requires no_steps { steps.old ≡ [] }
    ensures answer { Answers result steps.new (in_cone work.old.vars hyps.now start.now) }
    ensures kept { work.new.pool ≡ work.old.pool }
{
    first_rows(hyps, start, work);
    work.turn(steps);
    rounds(work, steps)
}

// The rounds from the system on.
fn rounds(work: &mut Workspace, steps: &mut Steps) -> Result<Answer, LimitKind>
    requires few { length steps.old ≤ 1026 }
    requires empty { work.old.made ≡ [] }
    requires room { HasRoom work.old }
    ensures answer { Answers result steps.new (rounds 64 work.old.vars steps.old work.old.rows) }
    ensures kept { work.new.pool ≡ work.old.pool }
{
    'rounds: for _round in 0..MOST_ROUNDS {
        let var = match look_at(work) {
            Look::Take(var) => var,
            other => return ended(other, steps),
        };
        let column = column_of(work.vars(), var);
        match next_rows(column, work) {
            Ok(()) => work.turn(steps),
            Err(kind) => return Err(kind),
        }
    }
    let look = look_at(work);
    ended(look, steps)
}

// What ends the elimination at a system.
fn ended(look: Look, steps: &mut Steps) -> Result<Answer, LimitKind>
    ensures { Answers result steps.new (ended steps.old look) }
{
    match look {
        Look::Full => Err(LimitKind::System),
        Look::Refuted(line) => {
            steps.trace(line);
            Ok(Answer::Proved)
        }
        Look::Spent | Look::Take(_) => Ok(Answer::Unproved),
    }
}
