//! What a look at a system shows.
ghost use Rattle.std.specs.Prelude.{◌≡◌, ◌≤◌, ◌<◌, length, None};
ghost use Rattle.linear_solver.specs.Choosing.{is_before, better, choice_of, candidate, best_from, refuted_by, look_at, cannot_hold};
ghost use Rattle.std.specs.List.{slice_index_or};
ghost use Rattle.linear_solver.specs.Systems.{with_sign};
ghost use Rattle.solver_rows.specs.declared.source.Sign.TheVariants.{Positive, Negative};
ghost use Rattle.linear_solver.specs.Region.{no_row};

use crate::counts::{Counts, count_all};
use crate::workspace::Workspace;

/// The most rows of a system.
pub(crate) const MOST_ROWS: usize = 2000;

/// What a look at a system shows.
#[derive(Clone, Copy, Drop)]
pub enum Look {
    /// It has too many rows.
    Full,
    /// The row that the step of this number gives cannot hold.
    Refuted(u32),
    /// No variable is left.
    Spent,
    /// This variable is to be taken next.
    Take(u32),
}

/// A variable, and how many pairs of a positive and a negative row it has.
#[derive(Clone, Copy, Drop)]
pub struct Choice {
    /// The variable.
    pub var: u32,
    /// How many pairs there are.
    pub pairs: u64,
}

/// What a look at the system shows.
#[tactic(auto, unfolding(crate::specs::Choosing::look_at))]
pub(crate) fn look_at(work: &Workspace) -> Look
    ensures { result ≡ look_at work.now.vars work.now.rows }
{
    if work.count() > MOST_ROWS {
        return Look::Full;
    }
    if let Some(line) = refuted_by(work) {
        return Look::Refuted(line);
    }
    match best(work) {
        Some(choice) => Look::Take(choice.var),
        None => Look::Spent,
    }
}

// The step that gives the first row that cannot hold.
#[tactic(auto, unfolding(crate::specs::Choosing::refuted_by))]
fn refuted_by(work: &Workspace) -> Option<u32>
    ensures { result ≡ refuted_by work.now.rows }
{
    'rows: for at in 0..work.count() {
        if cannot_hold(work, at) {
            return Some(work.line(at));
        }
    }
    None
}

// Whether a row has no variable and its constant is negative.
fn cannot_hold(work: &Workspace, at: usize) -> bool
    requires { at < length work.now.rows }
    ensures { result ≡ cannot_hold (slice_index_or work.now.rows at no_row) }
{
    work.signs(at).are_none() && *work.constant(at) < 0
}

// The choice of a variable that so many rows have, and 0 rows do not.
fn choice_of(var: u32, positive: usize, negative: usize) -> Option<Choice>
    requires positive { positive ≤ 2000 }
    requires negative { negative ≤ 2000 }
    ensures { result ≡ choice_of var positive negative }
{
    if positive + negative == 0 {
        return None;
    }
    Some(Choice {
        var,
        pairs: positive as u64 * negative as u64,
    })
}

// The choice of the variable of this column, where the system has it.
#[tactic(auto, unfolding(crate::specs::Choosing::candidate))]
fn candidate(work: &Workspace, counts: &Counts, column: usize) -> Option<Choice>
    requires few { length work.now.rows ≤ 2000 }
    requires column { column < length work.now.vars }
    requires positive { slice_index_or counts.now.positive column 0 ≡ length (with_sign Positive (slice_index_or work.now.vars column 0) work.now.rows) }
    requires negative { slice_index_or counts.now.negative column 0 ≡ length (with_sign Negative (slice_index_or work.now.vars column 0) work.now.rows) }
    ensures { result ≡ candidate (slice_index_or work.now.vars column 0) work.now.rows }
{
    let vars = work.vars();
    choice_of(
        vars[column],
        counts.positive[column] as usize,
        counts.negative[column] as usize,
    )
}

// Whether the first choice comes before the second.
fn is_before(choice: Choice, other: Choice) -> bool
    ensures { result ≡ is_before choice other }
{
    choice.pairs < other.pairs || choice.pairs == other.pairs && choice.var < other.var
}

// The better choice of two.
fn better(best: Option<Choice>, next: Option<Choice>) -> Option<Choice>
    ensures { result ≡ better best next }
{
    let Some(choice) = best else {
        return next;
    };
    let Some(other) = next else {
        return best;
    };
    if is_before(other, choice) { next } else { best }
}

// The best choice of the variables.
#[tactic(auto, unfolding(crate::specs::Choosing::best_from))]
fn best(work: &Workspace) -> Option<Choice>
    requires { length work.now.rows ≤ 2000 }
    ensures { result ≡ best_from work.now.rows None work.now.vars }
{
    let counts = count_all(work);
    let count = work.vars().len();
    let mut best = None;
    'columns: for column in 0..count {
        best = better(best, candidate(work, &counts, column));
    }
    best
}
