//! How many rows of a system have a positive coefficient, and how many a negative one, of all variables in one pass.
ghost use Rattle.std.specs.Prelude.{◌≡◌, ℕ, ◌≤◌, ◌<◌, ◌+◌, length};
ghost use Rattle.std.specs.Int.{bit_at};
ghost use Rattle.std.specs.List.{slice_index_or};
ghost use Rattle.linear_solver.specs.Systems.{with_sign};
ghost use Rattle.solver_rows.specs.declared.source.Sign.TheVariants.{Positive, Negative};

use crate::workspace::Workspace;
use solver_rows::next_column;

/// How many rows have a positive coefficient, and how many a negative one, by column.
#[derive(Drop)]
pub(crate) struct Counts {
    pub(crate) positive: [u32; 64],
    pub(crate) negative: [u32; 64],
}

/// The counts of all variables.
pub(crate) fn count_all(work: &Workspace) -> Counts
    requires { length work.now.rows ≤ 2000 }
    ensures positive { (column : ℕ) → column < length work.now.vars
        → slice_index_or result.positive column 0 ≡ length (with_sign Positive (slice_index_or work.now.vars column 0) work.now.rows) }
    ensures negative { (column : ℕ) → column < length work.now.vars
        → slice_index_or result.negative column 0 ≡ length (with_sign Negative (slice_index_or work.now.vars column 0) work.now.rows) }
{
    let _vars = work.vars();
    let mut positive = zeros();
    let mut negative = zeros();
    'rows: for at in 0..work.count() {
        let signs = work.signs(at);
        add_columns(signs.positive, &mut positive);
        add_columns(signs.negative, &mut negative);
    }
    Counts { positive, negative }
}

// No rows.
fn zeros() -> [u32; 64]
    ensures { (column : ℕ) → slice_index_or result column 0 ≡ 0 }
{
    [0; 64]
}

// Counts one more in each of these columns.
fn add_columns(columns: u64, counts: &mut [u32; 64])
    requires small { (column : ℕ) → slice_index_or counts.old column 0 ≤ 2000 }
    ensures { (column : ℕ) → slice_index_or counts.new column 0 ≡ slice_index_or counts.old column 0 + bit_at columns column }
{
    let mut column = next_column(columns, 0);
    'columns: while column < 64 {
        counts[column] += 1;
        column = next_column(columns, column + 1);
    }
}
