//! The machine.

ghost use Rattle.std.specs.Prelude.{◌≡◌, ◌≤◌, Some};
ghost use Rattle.dtal_code.specs.declared.program.DtalProgram.{DtalProgram};
ghost use Rattle.dtal_machine.specs.Acting.{end_how};
ghost use Rattle.dtal_machine.specs.Loading.{HasProgram, IsProgramOf, Loads, loaded};
ghost use Rattle.dtal_machine.specs.Steps.{stepped, moved, event, end_event};
ghost use Rattle.dtal_machine.specs.Stacks.{told_by, ended_by};
ghost use Rattle.dtal_machine.specs.declared.limits.TheConstants.{MOST_HEAP, MOST_DEPTH};

use crate::advance::advance;
use crate::arguments::check_arguments;
use crate::done::Acted;
use crate::entry::begin;
use crate::event::{End, Event, tell_end};
use crate::loading::LoadError;
use crate::run::Run;
use dtal_code::Object;
use state_types::Signature;
use std::alloc::Global;
use std::marker::Model;
use xan_io::Arg;
use xan_seq::Seq;

/// A machine that runs the object of an accepted program. It is given no program: its instructions are those that the object's words code.
///
/// Contracts see the code that it runs, and the state in which the run goes on or the end that it has come to.
#[derive(Drop)]
pub struct Machine {
    words: Seq<u64>,
    starts: Seq<u64>,
    run: Run,
    ended: Option<End>,
}

impl Model for Machine {
    ghost use Rattle.dtal_machine.specs.Steps.{Loaded};

    ghost Value = { Loaded };

    ghost use Rattle.dtal_machine.specs.CodedWords.{code_in};
    ghost use Rattle.dtal_machine.specs.Kept.{stands_at, IsKept};
    ghost use Rattle.dtal_machine.specs.Stacks.{state_of};

    ghost view = { λ m. record { code = code_in m.words m.starts; now = stands_at m.ended (state_of m.run) } };

    ghost invariant = { λ m. IsKept m.ended m.words m.starts m.run };
}

impl Machine {
    /// The machine at the start of a run on these arguments, or the first fault.
    ///
    /// Some accepted program has this object, and its function `main` has this signature. The store may have `heap` words, and there may be
    /// `depth` activations at once. All memory of the run is taken here.
    pub fn load(
        alloc: Global,
        sig: &Signature,
        object: Object,
        args: &[Arg],
        heap: u64,
        depth: u64,
    ) -> Result<Machine, LoadError>
        requires program { HasProgram object sig.now }
        requires heap_bound { heap ≤ MOST_HEAP }
        requires depth_bound { depth ≤ MOST_DEPTH }
        ensures { (program : DtalProgram) → IsProgramOf object sig.now program → Loads (loaded program args.now heap depth) result }
    {
        match check_arguments(alloc, sig, args) {
            Err(error) => Err(error),
            Ok(()) => {
                if depth == 0 {
                    return Err(LoadError::NoStore);
                }
                let start = object.starts.as_slice()[object.main as usize];
                match begin(alloc, start, args, heap, depth) {
                    Err(error) => Err(error),
                    Ok(run) => Ok(Machine {
                        words: object.words,
                        starts: object.starts,
                        run,
                        ended: None,
                    }),
                }
            }
        }
    }

    /// Makes one step and tells what it did. After an end it tells that end again, and changes nothing.
    ///
    /// It takes no memory and refuses nothing: a run of an accepted program is never stuck.
    pub fn step(&mut self) -> Event
        ensures told { event (stepped self.old) ≡ Some result }
        ensures state { self.new ≡ moved self.old }
    {
        match self.ended {
            Some(end) => tell_end(end),
            None => {
                let acted = advance(self.words.as_slice(), self.starts.as_slice(), &mut self.run);
                note_end(acted, &mut self.ended);
                tell(acted)
            }
        }
    }
}

// Notes an end.
fn note_end(acted: Acted, ended: &mut Option<End>)
    ensures { ended.new ≡ ended_by acted ended.old }
{
    match acted {
        Acted::GoesOn | Acted::Prints(_) => {}
        Acted::Ends(end) => *ended = Some(end),
    }
}

// What a step tells.
fn tell(acted: Acted) -> Event
    ensures { told_by acted ≡ Some result }
{
    match acted {
        Acted::GoesOn => Event::Going,
        Acted::Prints(number) => Event::Print(number),
        Acted::Ends(end) => tell_end(end),
    }
}
