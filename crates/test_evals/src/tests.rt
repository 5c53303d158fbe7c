//! Sources as rows of tables.

mod arguments;
mod arithmetic;
mod control;
mod stores;

use constraint_elaborator::elaborate;
use goal_table::prove_all;
use linear_solver::LineBuf;
use scope_shapes::resolve;
use source_evaluator::{EvalError, SourceEnd, eval};
use std::alloc::Global;
use typed_core::Proved;
use xan_io::{Arg, MemSink, read_arg};
use xan_pool::RowPool;
use xanadu_lexer::lex;
use xanadu_parser::parse;
use xanadu_tree::Core;

/// What a run comes to.
#[derive(Clone, Copy)]
enum Came {
    Returned(i64),
    NoStore,
    Overflow,
    FuelEnded,
    Count,
    Kind(u32),
    Index(u32),
    Row(u32),
    WriteFault,
}

/// How many words of store a run may have, how many activations, and how many units.
type Limits = (u64, u64, u64);

/// As much as a command gives where nothing is said.
const USUAL: Limits = (1_048_576, 4096, 1_000_000_000);

/// A source, arguments, limits, what the run comes to, and what is put.
type Row = (
    &'static [u8],
    &'static [&'static str],
    Limits,
    Came,
    &'static [u8],
);

/// The core of a source. `None` where it has none.
fn core_of(alloc: Global, source: &[u8]) -> Option<Core> {
    if source.len() > 1_048_576 {
        return None;
    }
    let Ok(tokens) = lex(alloc, source) else {
        return None;
    };
    let Ok(tree) = parse(alloc, tokens.as_slice(), source.len() as u32) else {
        return None;
    };
    resolve(alloc, &tree, source.len() as u32).ok()
}

/// The source with its goals proved. `None` where one is not, and where memory runs out.
fn proved(alloc: Global, source: &[u8]) -> Option<Proved> {
    let base = elaborate(alloc, core_of(alloc, source)?).ok()?;
    let mut pool = RowPool::new(alloc, 4001, 65).ok()?;
    let mut buf = LineBuf::new(alloc).ok()?;
    prove_all(alloc, base, &mut pool, &mut buf).ok()
}

/// The arguments that words spell.
fn args_of(alloc: Global, words: &[&str]) -> Option<Vec<Arg>> {
    let mut args = Vec::new(alloc);
    for word in words {
        args.push(read_arg(alloc, word).ok()?).ok()?;
    }
    Some(args)
}

/// Whether this is what a run comes to.
fn is(found: Result<SourceEnd, EvalError>, wanted: Came) -> bool {
    match (found, wanted) {
        (Ok(SourceEnd::Returned(word)), Came::Returned(number)) => word == number,
        (Ok(SourceEnd::NoStore), Came::NoStore) => true,
        (Ok(SourceEnd::Overflow), Came::Overflow) => true,
        (Ok(SourceEnd::FuelEnded), Came::FuelEnded) => true,
        (Err(EvalError::ArgCount), Came::Count) => true,
        (Err(EvalError::ArgKind(at)), Came::Kind(number)) => at == number,
        (Err(EvalError::ArgIndex(at)), Came::Index(number)) => at == number,
        (Err(EvalError::EntryRow(at)), Came::Row(number)) => at == number,
        (Err(EvalError::WriteFault), Came::WriteFault) => true,
        _ => false,
    }
}

/// Whether the run of a proved program over a sink with so much room comes to this, and puts that.
fn comes(alloc: Global, program: &Proved, room: u64, row: &Row, put: &[u8]) -> Option<bool> {
    let limits = row.2;
    if limits.0 > 67_108_864 {
        return None;
    }
    let args = args_of(alloc, row.1)?;
    let mut sink = MemSink::new(alloc, room, Vec::new(alloc)).ok()?;
    let found = eval(
        alloc,
        program,
        args.as_slice(),
        limits.0,
        limits.1,
        limits.2,
        &mut sink,
    );
    Some(is(found, row.3) && sink.bytes() == put)
}

/// Whether the row is so.
fn holds(alloc: Global, row: &Row) -> Option<bool> {
    let program = proved(alloc, row.0)?;
    comes(alloc, &program, 1000, row, row.4)
}

/// How many rows are so.
fn agreeing(alloc: Global, rows: &[Row]) -> usize {
    let mut count = 0usize;
    for row in rows {
        if holds(alloc, row) == Some(true) {
            count = count.saturating_add(1);
        }
    }
    count
}
