//! The lines of the goals of a source, each put as one piece, with what the elimination answers to the goal. It takes no memory.

ghost use Rattle.std.specs.Prelude.{◌≡◌, ◌≤◌, IfOk, OnOk, OnErr};
ghost use Rattle.std.specs.List.{concat};
ghost use Rattle.std.specs.Io.KnownBytes.{append_known};
ghost use Rattle.xan_io.specs.Faults.{Rose};
ghost use Rattle.xan_io.specs.Written.{AppendsPrefix};
ghost use Rattle.goal_table.specs.Unproved.{answer_to};
ghost use Rattle.command_reports.specs.Answers.{found_status, goal_line};
ghost use Rattle.command_reports.specs.Said.{Says};
ghost use Rattle.command_reports.specs.Goals.{goal_lines, goals_status, or_later};
ghost use Rattle.command_reports.specs.Listing.{HasPool, HasRoom};
ghost use Rattle.command_reports.specs.Report.{Listed, report_of};

use crate::answer::Answer;
use crate::goal_lines::line_of_goal;
use crate::refusal::status_of_goal;
use crate::workspace::Workspace;
use goal_table::answer;
use typed_core::{Elaborated, GoalAt};
use xan_io::{Sink, SinkFault};

/// The goals of a source, with what it takes to answer them.
#[derive(Drop)]
pub struct Listing {
    pub base: Elaborated,
    pub work: Workspace,
}

/// Puts a line for each goal, and gives the status by the first that is not proved, or 4 where a line was not put whole.
pub fn list<O: Sink>(out: &mut O, mut listing: Listing) -> u8
    requires { HasRoom listing }
    ensures { Says (report_of (Listed listing.base.made.goals)) result (O.faults out.old) (O.faults out.new) (O.written out.old) (O.written out.new) }
{
    match put_goals(out, listing.base.goals(), &mut listing.work) {
        Ok(status) => status,
        Err(_fault) => Answer::WriteFailed.status(),
    }
}

/// Puts the lines of the goals, and gives the status by the first that is not proved.
fn put_goals<O: Sink>(out: &mut O, goals: &[GoalAt], work: &mut Workspace) -> Result<u8, SinkFault>
    requires { HasPool work.old.pool }
    ensures status { IfOk result (λ status. status ≡ goals_status goals.now) }
    ensures appended { OnOk result (O.written out.new ≡ append_known (O.written out.old) (concat (goal_lines 0 goals.now))) }
    ensures counted { OnOk result (O.faults out.new ≡ O.faults out.old) }
    ensures prefix { OnErr result (AppendsPrefix (O.written out.old) (O.written out.new) (concat (goal_lines 0 goals.now))) }
    ensures failed { OnErr result (Rose (O.faults out.old) (O.faults out.new)) }
{
    let mut status = 0;
    'goals: for (number, goal) in goals.iter().enumerate() {
        let found = put_goal(out, number as u64, goal, work)?;
        status = first_status(status, found);
    }
    Ok(status)
}

/// The status so far, or where all is well so far, that of the next goal.
fn first_status(status: u8, next: u8) -> u8
    ensures { result ≡ or_later status next }
{
    if status == 0 { next } else { status }
}

/// Puts the line of one goal, before which so many stand, and gives its status.
fn put_goal<O: Sink>(
    out: &mut O,
    number: u64,
    goal: &GoalAt,
    work: &mut Workspace,
) -> Result<u8, SinkFault>
    requires { HasPool work.old.pool }
    ensures room { HasPool work.new.pool }
    ensures status { IfOk result (λ status. status ≡ found_status (answer_to goal.now)) }
    ensures appended { OnOk result (O.written out.new ≡ append_known (O.written out.old) (goal_line number goal.now.at goal.now.row (answer_to goal.now))) }
    ensures counted { OnOk result (O.faults out.new ≡ O.faults out.old) }
    ensures prefix { OnErr result (AppendsPrefix (O.written out.old) (O.written out.new) (goal_line number goal.now.at goal.now.row (answer_to goal.now))) }
    ensures failed { OnErr result (Rose (O.faults out.old) (O.faults out.new)) }
{
    let found = answer(goal, &mut work.pool, &mut work.buf);
    let line = line_of_goal(number, goal.at, &goal.row, found);
    out.put(line.as_bytes())?;
    Ok(status_of_goal(found))
}
