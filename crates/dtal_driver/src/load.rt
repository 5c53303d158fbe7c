//! From an accepted program to a machine at the start of its run: its object, and the words of its arguments.

ghost use Rattle.std.specs.Prelude.{IfOk, IfErr};
ghost use Rattle.dtal_code.specs.Acceptance.{Accepted};
ghost use Rattle.dtal_driver.specs.Causes.{IsLoaded, IsNotLoaded};
ghost use Rattle.dtal_driver.specs.Words.{IsWithin};

use crate::answer::Answer;
use dtal_assembler::assemble;
use dtal_code::DtalProgram;
use dtal_machine::{Machine, main_signature};
use dtal_safety::accepted_programs_run_safely;
use run_options::Limits;
use std::alloc::Global;
use xan_io::Arg;

/// The machine of a program at the start of a run on these arguments, or why there is none. It takes all memory of the run.
pub fn load(
    alloc: Global,
    program: &DtalProgram,
    limits: Limits,
    args: &[Arg],
) -> Result<Machine, Answer>
    requires accepted { Accepted program.now }
    requires within { IsWithin limits }
    ensures loaded { IfOk result (IsLoaded program.now limits args.now) }
    ensures not_loaded { IfErr result (IsNotLoaded program.now limits args.now) }
{
    // Cites the law: no run of an accepted program is stuck.
    accepted_programs_run_safely();
    let object = assemble(alloc, program)?;
    let signature = main_signature(program, &object);
    let loaded = Machine::load(alloc, signature, object, args, limits.heap, limits.depth);
    match loaded {
        Ok(machine) => Ok(machine),
        Err(error) => Err(Answer::from(error)),
    }
}
