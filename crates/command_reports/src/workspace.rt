//! What it takes to answer goals: made once a command, behind the limits.

ghost use Rattle.std.specs.Prelude.{◌≡◌, IfOk};
ghost use Rattle.command_reports.specs.Listing.{HasPool};

use linear_solver::{LineBuf, SOLVER_ROWS};
use std::alloc::Global;
use xan_pool::RowPool;

/// Room for the rows and the steps of one elimination.
#[derive(Drop)]
pub struct Workspace {
    pub pool: RowPool,
    pub buf: LineBuf,
}

/// Memory ran out.
#[derive(Clone, Copy, Drop)]
pub struct NoRoom;

impl From<xan_lin::Memory> for NoRoom {
    fn from(_error: xan_lin::Memory) -> NoRoom {
        NoRoom
    }
}

impl From<xan_pool::Memory> for NoRoom {
    fn from(_error: xan_pool::Memory) -> NoRoom {
        NoRoom
    }
}

impl Workspace {
    /// An empty one.
    pub fn new(alloc: Global) -> Result<Workspace, NoRoom>
        ensures { IfOk result (λ work. HasPool work.pool) }
    {
        let pool = RowPool::new(alloc, SOLVER_ROWS as usize, 65)?;
        let buf = LineBuf::new(alloc)?;
        Ok(Workspace { pool, buf })
    }
}
