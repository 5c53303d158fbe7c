//! A pool with a row of others, and room for no more than an elimination wants.
ghost use Rattle.std.specs.Prelude.{◌≡◌, ◌+◌, ◌≤◌, length, MatchOption};

use linear_solver::SOLVER_ROWS;
use std::alloc::Global;
use xan_pool::{Mark, RowId, RowPool};

// The row of others.
const HELD: [i64; 65] = [i64::MIN; 65];

/// A pool with one row, and exactly so many free ones as an elimination wants.
pub(crate) fn held_pool(alloc: Global) -> Option<RowPool>
    ensures { MatchOption result (Unit {0}) (λ pool. (pool.width ≡ 65) × (length pool.rows + 4001 ≤ pool.capacity)) }
{
    let mut pool = RowPool::new(alloc, SOLVER_ROWS as usize + 1, 65).ok()?;
    pool.push(&HELD).ok()?;
    Some(pool)
}

/// Whether that row is the only one, and as it was.
pub(crate) fn is_held(pool: &RowPool) -> bool {
    pool.mark() == Mark(1) && pool.row(RowId(0)) == HELD.as_slice()
}
