//! How the rows of a reduced system get their steps.
ghost use Rattle.std.specs.Prelude.{◌≡◌, ◌+◌, ◌*◌, ◌<◌, ◌≤◌, [], ◌∷◌, ◌++◌, length, vec_capacity};
ghost use Rattle.linear_solver.specs.Numbering.{with_source, source_line, with_cut, cut_line, steps_with, line_with};
ghost use Rattle.linear_solver.specs.Region.{numbered_sides, stored_at};

use crate::places::{Stored, put_stored};
use crate::steps::Steps;
use solver_rows::{Side, Source, Step};

/// The rows as steps give them: each in order gets its steps, for which there is room.
#[tactic(auto, unfolding(crate::specs::Region::numbered_sides))]
pub(crate) fn number(made: &[Stored], done: &mut Vec<Stored>, steps: &mut Steps)
    requires none { done.old.items ≡ [] }
    requires room { length made.now ≤ vec_capacity done.old }
    requires few { length steps.old + 2 * length made.now ≤ 257026 }
    ensures exact { numbered_sides steps.old [] made.now ≡ record { steps = steps.new; sides = done.new.items } }
    ensures few { length steps.new ≤ length steps.old + 2 * length made.now }
    ensures capacity { vec_capacity done.old ≤ vec_capacity done.new }
{
    let mut rest = made;
    'rows: while let [row, later @ ..] = rest {
        let line = put_steps(steps, row.side.source, &row.side.by);
        put_stored(done, &stored_at(line, row));
        rest = later;
    }
}

// The row that a step gives.
fn stored_at(line: u32, row: &Stored) -> Stored
    ensures { result ≡ stored_at line row.now }
{
    let source = Source::Line(line);
    Stored {
        side: Side {
            source,
            by: 1,
            signs: row.side.signs,
        },
        constant: row.constant,
        place: row.place,
    }
}

// Puts the steps of a row, and answers the number of the one that gives it.
fn put_steps(steps: &mut Steps, source: Source, by: &i64) -> u32
    requires { length steps.old + 2 ≤ 257026 }
    ensures steps { steps.new ≡ steps_with steps.old source by.now }
    ensures number { result ≡ line_with steps.old source by.now }
    ensures few { length steps.new ≤ length steps.old + 2 }
{
    let line = put_source(steps, source);
    put_cut(steps, line, by)
}

// Puts the step of a row, unless it is there.
fn put_source(steps: &mut Steps, source: Source) -> u32
    requires { length steps.old < 257026 }
    ensures steps { steps.new ≡ with_source steps.old source }
    ensures number { result ≡ source_line steps.old source }
{
    match source {
        Source::Line(line) => line,
        Source::New(step) => steps.push(step),
    }
}

// Puts the step that divides a row by a number above 1.
fn put_cut(steps: &mut Steps, line: u32, by: &i64) -> u32
    requires { length steps.old < 257026 }
    ensures steps { steps.new ≡ with_cut steps.old line by.now }
    ensures number { result ≡ cut_line steps.old line by.now }
{
    if *by > 1 {
        steps.push(Step::Cut { row: line, by: *by })
    } else {
        line
    }
}
