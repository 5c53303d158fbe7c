//! A run, and what is said of it.

ghost use Rattle.std.specs.Prelude.{◌≤◌};
ghost use Rattle.source_values.specs.declared.cells.TheConstants.{MOST_WORDS};
ghost use Rattle.source_runs.specs.Runs.{RunSaid};
ghost use Rattle.xanadu_tree.specs.PlainOf.{plain_core};

use crate::end::end_of;
use command_reports::{Answer, RunEnd, say, say_end};
use run_options::Limits;
use source_evaluator::{EvalError, eval};
use source_safety::proved_programs_are_never_stuck;
use std::alloc::Global;
use typed_core::Proved;
use xan_io::{Arg, Sink};

/// The status where `out` failed; nothing more can be said then.
const CUT: u8 = 4;

/// Runs the program within limits on these arguments, puts a line for each number that it prints and then the line of its end, and gives the
/// status to end with. After a fault of `out` a part of these lines was put, and the status is 4; where memory runs out, the line `memory` stands
/// behind the numbers that were printed first.
pub fn run_source<O: Sink>(
    alloc: Global,
    program: &Proved,
    limits: Limits,
    args: &[Arg],
    out: &mut O,
) -> u8
    requires { limits.heap ≤ MOST_WORDS }
    ensures { RunSaid (plain_core program.now.base.core) limits args.now result (O.faults out.old) (O.faults out.new) (O.written out.old) (O.written out.new) }
{
    // Cites the law: no run of a proved program is stuck.
    proved_programs_are_never_stuck(program);
    match eval(
        alloc,
        program,
        args,
        limits.heap,
        limits.depth,
        limits.units,
        out,
    ) {
        Ok(end) => say_end(out, end_of(end, limits.units)),
        Err(EvalError::ArgCount) => say_end(out, RunEnd::ArgCount),
        Err(EvalError::ArgKind(argument)) => say_end(out, RunEnd::ArgKind(argument)),
        Err(EvalError::ArgIndex(argument)) => say_end(out, RunEnd::ArgIndex(argument)),
        Err(EvalError::EntryRow(row)) => say_end(out, RunEnd::EntryRow(row)),
        Err(EvalError::WriteFault) => CUT,
        Err(EvalError::Memory) => say(out, &Answer::Memory),
    }
}
