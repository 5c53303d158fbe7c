//! The first system.
ghost use Rattle.std.specs.Prelude.{◌≡◌, ◌≤◌, [], length, true, if◌then◌else◌};
ghost use Rattle.proof_lines.specs.Cells.{are_among};
ghost use Rattle.solver_rows.specs.declared.step.Step.TheVariants.{Hyp};
ghost use Rattle.solver_rows.specs.declared.source.Source.TheVariants.{New};
ghost use Rattle.solver_rows.specs.SystemRows.{tight};
ghost use Rattle.linear_solver.specs.Systems.{settle};
ghost use Rattle.linear_solver.specs.Elimination.{bears, with_hyps, first_rows};
ghost use Rattle.linear_solver.specs.Region.{AreClosed, HasRoom};

use crate::cone::touches;
use crate::workspace::Workspace;
use solver_rows::{NewRow, Source, Step, make_row};
use xan_lin::Form;

/// Makes the first system: the hypotheses that bear on the goal, and the opposite of the goal.
#[tactic(auto, unfolding(crate::specs::Elimination::first_rows))]
pub(crate) fn first_rows(hyps: &[Form], start: &Form, work: &mut Workspace)
    requires few { length hyps.now ≤ 512 }
    requires closed { AreClosed work.old.vars hyps.now }
    requires among { are_among work.old.vars start.now.terms ≡ true }
    requires none { work.old.rows ≡ [] }
    requires empty { work.old.made ≡ [] }
    requires room { HasRoom work.old }
    ensures { work.new ≡ record work.old { made = first_rows work.old.vars hyps.now start.now } }
{
    with_hyps(hyps, work);
    let mut row = NewRow::blank();
    make_row(work.vars(), start, Source::New(Step::Goal), &mut row);
    work.settle(&row);
}

// Puts the hypotheses that bear on the goal.
#[tactic(auto, unfolding(crate::specs::Elimination::with_hyps))]
fn with_hyps(hyps: &[Form], work: &mut Workspace)
    requires few { length hyps.now ≤ 512 }
    requires closed { AreClosed work.old.vars hyps.now }
    requires none { work.old.rows ≡ [] }
    requires empty { work.old.made ≡ [] }
    requires room { HasRoom work.old }
    ensures { work.new ≡ record work.old { made = with_hyps work.old.vars 0 hyps.now [] } }
{
    'rows: for (at, row) in hyps.iter().enumerate() {
        with_hyp(at as u32, row, work);
    }
}

// Puts the hypothesis of this number, where it bears on the goal.
fn with_hyp(at: u32, row: &Form, work: &mut Workspace)
    requires closed { bears work.old.vars row.now ≡ true → are_among work.old.vars row.now.terms ≡ true }
    requires none { length work.old.rows ≤ 2000 }
    requires few { length work.old.made ≤ 2000 }
    requires room { HasRoom work.old }
    ensures { work.new ≡ record work.old { made = (if bears work.old.vars row.now then settle work.old.made (tight (New (Hyp at)) row.now) else work.old.made) } }
{
    if bears(work.vars(), row) {
        let mut made = NewRow::blank();
        make_row(work.vars(), row, Source::New(Step::Hyp(at)), &mut made);
        work.settle(&made);
    }
}

// Whether the hypothesis bears on the goal.
fn bears(vars: &[u32], row: &Form) -> bool
    ensures { result ≡ bears vars.now row.now }
{
    row.terms().is_empty() || touches(vars, row.terms())
}
