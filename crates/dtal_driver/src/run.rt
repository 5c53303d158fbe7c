//! The run of a machine, whose numbers go out as they are printed.

ghost use Rattle.std.specs.Prelude.{◌≡◌, ◌≤◌, [], ◌++◌, OnOk, OnErr, IfOk};
ghost use Rattle.std.specs.Io.KnownBytes.{append_known};
ghost use Rattle.xan_io.specs.Faults.{Rose};
ghost use Rattle.xan_io.specs.Written.{AppendsPrefix};
ghost use Rattle.dtal_machine.specs.Steps.{IsLive, run_on};
ghost use Rattle.dtal_driver.specs.Answers.{number_lines};
ghost use Rattle.dtal_driver.specs.Report.{answer_of, how_of};

use crate::answer::Answer;
use dtal_machine::{Event, Machine};
use xan_io::{Sink, SinkFault, put_number};

/// How the run of an accepted program has come out. It wants no memory.
#[derive(Clone, Copy)]
pub enum End {
    /// It has returned this number.
    Returned(i64),
    /// The store or the activations did not suffice.
    NoStore,
    /// A result does not fit a word.
    Overflow,
    /// All its steps are made, and it goes on.
    Spent,
}

impl End {
    /// What is answered of it, where the run may make so many steps.
    pub fn answer(self, steps: u64) -> Answer
        ensures { result ≡ answer_of steps self }
    {
        match self {
            End::Returned(word) => Answer::Returned(word),
            End::NoStore => Answer::NoStore,
            End::Overflow => Answer::Overflow,
            End::Spent => Answer::StepsEnded(steps),
        }
    }
}

/// Runs the machine to its end, or for so many steps, and puts a line for each number that it prints. After a fault a prefix of these lines
/// is put.
pub fn run<O: Sink>(mut machine: Machine, out: &mut O, steps: u64) -> Result<End, SinkFault>
    requires { IsLive machine.now }
    ensures ended { IfOk result (λ end. (run_on machine steps []).how ≡ how_of end) }
    ensures appended { OnOk result (O.written out.new ≡ append_known (O.written out.old) (number_lines (run_on machine steps []).printed)) }
    ensures counted { OnOk result (O.faults out.new ≡ O.faults out.old) }
    ensures prefix { OnErr result (AppendsPrefix (O.written out.old) (O.written out.new) (number_lines (run_on machine steps []).printed)) }
    ensures failed { OnErr result (Rose (O.faults out.old) (O.faults out.new)) }
    ensures never_falls { O.faults out.old ≤ O.faults out.new }
{
    for step in 0..steps {
        let _ = step;
        match machine.step() {
            Event::Going => {}
            Event::Print(number) => put_number(out, &number)?,
            Event::Returned(word) => return Ok(End::Returned(word)),
            Event::NoStore => return Ok(End::NoStore),
            Event::Overflow => return Ok(End::Overflow),
        }
    }
    Ok(End::Spent)
}
