//! The evaluation of a program all of whose goals are proved.

ghost use Rattle.std.specs.Prelude.{◌≡◌, ◌≢◌, ◌≤◌, None, option_map, slice_get};
ghost use Rattle.source_evaluator.specs.Evaluating.{Evaluated};
ghost use Rattle.source_values.specs.declared.cells.TheConstants.{MOST_WORDS};
ghost use Rattle.typed_core.specs.Meaning.{source_fault, source_outcome};
ghost use Rattle.xan_io.specs.Outcome.{Stuck};
ghost use Rattle.xanadu_tree.specs.PlainOf.{plain_core};

use crate::end::{EvalError, SourceEnd, end, refuse};
use crate::run::{begin, run};
use argument_checks::check_arguments;
use source_safety::proved_programs_are_never_stuck;
use std::alloc::Global;
use typed_core::Proved;
use xan_io::{Arg, Sink};
use xanadu_tree::Core;

/// What has this number.
fn find<T>(all: &[T], number: u32) -> Option<&T>
    ensures { option_map (λ x. x.now) result ≡ slice_get all.now number }
{
    all.get(number as usize)
}

/// The run on arguments without a fault.
fn start<S: Sink>(
    alloc: Global,
    core: &Core,
    args: &[Arg],
    heap: u64,
    depth: u64,
    fuel: u64,
    sink: &mut S,
) -> Result<SourceEnd, EvalError>
    requires heap_bound { heap ≤ MOST_WORDS }
    requires clean { source_fault (plain_core core.now) args.now ≡ None }
    requires safe { (source_outcome (plain_core core.now) args.now heap depth fuel).how ≢ Stuck }
    ensures { Evaluated None (source_outcome (plain_core core.now) args.now heap depth fuel) (S.written sink.old) (S.written sink.new) (S.faults sink.old)
        (S.faults sink.new) result }
{
    if depth == 0 {
        return Ok(SourceEnd::NoStore);
    }
    let funs = core.funs();
    let Some(fun) = find(funs, core.main()) else {
        unreachable!()
    };
    match begin(alloc, fun, args, heap, fuel) {
        Ok(machine) => run(funs, depth, machine, sink),
        Err(halt) => end(halt),
    }
}

/// Evaluates the program on these arguments, with so many words of store, activations at once and units of fuel, and puts a line for each number
/// that it prints.
///
/// What is answered, and what is put, is exactly what the source means: the first fault of the arguments, or the end of the run. There is no
/// answer for a run that is stuck, since the goals are proved. Where the sink fails a part of the lines was put, and where memory runs out whole
/// lines.
pub fn eval<S: Sink>(
    alloc: Global,
    program: &Proved,
    args: &[Arg],
    heap: u64,
    depth: u64,
    fuel: u64,
    sink: &mut S,
) -> Result<SourceEnd, EvalError>
    requires { heap ≤ MOST_WORDS }
    ensures { Evaluated (source_fault (plain_core program.now.base.core) args.now) (source_outcome (plain_core program.now.base.core) args.now heap depth fuel)
        (S.written sink.old) (S.written sink.new) (S.faults sink.old) (S.faults sink.new) result }
{
    proved_programs_are_never_stuck(program);
    let base = program.base();
    let core = base.core();
    let _funs = core.funs();
    let Some(sig) = find(base.sigs(), core.main()) else {
        unreachable!()
    };
    match check_arguments(alloc, sig, args) {
        Ok(()) => start(alloc, core, args, heap, depth, fuel, sink),
        Err(error) => Err(refuse(error)),
    }
}
