//! A run, from where it begins to its end.

ghost use Rattle.std.specs.Prelude.{◌≡◌, ◌≢◌, ◌≤◌, ℤ, List, [], map, None};
ghost use Rattle.source_values.specs.Halts.{Gives};
ghost use Rattle.source_values.specs.declared.cells.TheConstants.{MOST_WORDS};
ghost use Rattle.source_evaluator.specs.Evaluating.{BeginsIn, Evaluated, begun};
ghost use Rattle.source_evaluator.specs.Pending.{meaning};
ghost use Rattle.source_evaluator.specs.Views.{state_of};
ghost use Rattle.typed_core.specs.Meaning.{outcome_of};
ghost use Rattle.xan_io.specs.Outcome.{Stuck};
ghost use Rattle.xanadu_tree.specs.PlainOf.{plain_fun};

use crate::end::{EvalError, SourceEnd, end};
use crate::machine::{Event, Machine};
use crate::stack::Stack;
use crate::step::step;
use crate::tasks::Task;
use source_values::{Halt, Store, Variables, place_arguments};
use std::alloc::Global;
use xan_io::{Arg, Sink, put_number};
use xanadu_tree::CoreFun;

/// The machine where `main` begins, with these arguments.
pub(crate) fn begin<'a>(
    alloc: Global,
    fun: &'a CoreFun,
    args: &[Arg],
    heap: u64,
    units: u64,
) -> Result<Machine<'a>, Halt>
    requires { heap ≤ MOST_WORDS }
    ensures { Gives state_of result (begun (plain_fun fun.now) args.now heap units) }
{
    let mut store = Store::new(alloc, heap);
    let values = place_arguments(alloc, args, &mut store)?;
    let env = Variables::new(alloc, values.as_slice(), fun.kinds.as_slice().len())?;
    let mut work = Stack::new(alloc);
    work.push(Task::Statements(fun.body.as_slice()))?;
    Ok(Machine {
        work,
        values: Stack::new(alloc),
        env,
        callers: Stack::new(alloc),
        units,
        store,
    })
}

/// Runs the machine to its end, and puts a line for each number that it prints. It is never stuck.
pub(crate) fn run<'a, S: Sink>(
    funs: &'a [CoreFun],
    depth: u64,
    mut machine: Machine<'a>,
    sink: &mut S,
) -> Result<SourceEnd, EvalError>
    requires safe { (outcome_of (meaning (map plain_fun funs.now) depth (state_of machine) [])).how ≢ Stuck }
    requires begins { BeginsIn (map plain_fun funs.now) (state_of machine) }
    ensures { Evaluated None (outcome_of (meaning (map plain_fun funs.now) depth (state_of machine.entry) [])) (S.written sink.old) (S.written sink.new)
        (S.faults sink.old) (S.faults sink.new) result }
{
    'turns: loop {
        match step(funs, depth, &mut machine) {
            Ok(Event::Goes) => {}
            Ok(Event::Says(number)) => match put_number(sink, &number) {
                Ok(()) => {}
                Err(_fault) => return Err(EvalError::WriteFault),
            },
            Ok(Event::Returns(word)) => return Ok(SourceEnd::Returned(word)),
            Err(halt) => return end(halt),
        }
    }
}
