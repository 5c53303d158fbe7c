//! Sources as rows of tables.

mod goals;
mod limits;

use constraint_elaborator::{ElabError, elaborate};
use goal_table::{GoalError, prove_all};
use linear_solver::LineBuf;
use scope_shapes::resolve;
use std::alloc::Global;
use typed_core::{Elaborated, Proved};
use xan_pool::RowPool;
use xanadu_lexer::lex;
use xanadu_parser::parse;
use xanadu_tree::Core;

/// The core of a source. `None` where it has none.
fn core_of(alloc: Global, source: &[u8]) -> Option<Core> {
    if source.len() > 1_048_576 {
        return None;
    }
    let Ok(tokens) = lex(alloc, source) else {
        return None;
    };
    let Ok(tree) = parse(alloc, tokens.as_slice(), source.len() as u32) else {
        return None;
    };
    resolve(alloc, &tree, source.len() as u32).ok()
}

/// What `elaborate` answers for a source that has a core.
fn elaborated(alloc: Global, source: &[u8]) -> Option<Result<Elaborated, ElabError>> {
    Some(elaborate(alloc, core_of(alloc, source)?))
}

/// What `prove_all` answers for a source that passes no limit of elaboration. `None` also where memory runs out.
fn proved(alloc: Global, source: &[u8]) -> Option<Result<Proved, GoalError>> {
    let base = elaborated(alloc, source)?.ok()?;
    let mut pool = RowPool::new(alloc, 4001, 65).ok()?;
    let mut buf = LineBuf::new(alloc).ok()?;
    Some(prove_all(alloc, base, &mut pool, &mut buf))
}
