//! Sources through all passes up to typed code.

mod carried;
mod drawing;

use constraint_elaborator::elaborate;
use goal_table::prove_all;
use linear_solver::LineBuf;
use lowering::lower;
use scope_shapes::resolve;
use std::alloc::Global;
use three_address::Typed;
use type_carrier::carry;
use typed_core::Proved;
use xan_pool::RowPool;
use xanadu_lexer::lex;
use xanadu_parser::parse;
use xanadu_tree::Core;

/// The core of a source. `None` where it has none.
fn core_of(alloc: Global, source: &[u8]) -> Option<Core> {
    if source.len() > 1_048_576 {
        return None;
    }
    let Ok(tokens) = lex(alloc, source) else {
        return None;
    };
    let Ok(tree) = parse(alloc, tokens.as_slice(), source.len() as u32) else {
        return None;
    };
    resolve(alloc, &tree, source.len() as u32).ok()
}

/// A source with its goals proved.
fn proved(alloc: Global, source: &[u8]) -> Option<Proved> {
    let base = elaborate(alloc, core_of(alloc, source)?).ok()?;
    let mut pool = RowPool::new(alloc, 4001, 65).ok()?;
    let mut buf = LineBuf::new(alloc).ok()?;
    prove_all(alloc, base, &mut pool, &mut buf).ok()
}

/// Its typed code.
fn typed(alloc: Global, source: &[u8]) -> Option<Typed> {
    let program = proved(alloc, source)?;
    let low = lower(alloc, &program).ok()?;
    carry(alloc, &program, low).ok()
}
