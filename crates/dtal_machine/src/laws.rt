//! Laws of machines.

ghost use Rattle.std.specs.Prelude.{◌≡◌, ℕ, suc, ℤ, List, [], ◌∷◌, ◌++◌, Some, Ok, Err};
ghost use Rattle.xan_io.specs.declared.arg.Arg.{Arg};
ghost use Rattle.xan_io.specs.Outcome.{Running, Returned, NoStore, Overflow};
ghost use Rattle.dtal_code.specs.declared.program.DtalProgram.{DtalProgram};
ghost use Rattle.dtal_machine.specs.Steps.{Loaded, IsLive, event, stepped, moved, run_on};
ghost use Rattle.dtal_machine.specs.Loading.{loaded, IsRunOf};

use crate::event::Event;
use crate::loading::LoadError;

/// The run of a loaded machine is the program's run, and each step takes it on by what its event says: for whoever runs a machine.
pub fn steps_make_the_run()
    ensures begins { (program : DtalProgram) (args : List Arg) (heap depth steps : ℕ) (machine : Loaded) → loaded program args heap depth ≡ Ok machine
        → IsRunOf program args heap depth steps (run_on machine steps []) }
    ensures live { (program : DtalProgram) (args : List Arg) (heap depth : ℕ) (machine : Loaded) → loaded program args heap depth ≡ Ok machine
        → IsLive machine.now }
    ensures spent { (machine : Loaded) (printed : List ℤ) → IsLive machine.now → run_on machine 0 printed ≡ record { printed = printed; how = Running } }
    ensures without_store { (program : DtalProgram) (args : List Arg) (heap depth steps : ℕ) → loaded program args heap depth ≡ Err LoadError.NoStore
        → IsRunOf program args heap depth steps (record { printed = []; how = NoStore }) }
    ensures going { (machine : Loaded) (steps : ℕ) (printed : List ℤ) → event (stepped machine) ≡ Some Event.Going
        → (run_on machine (suc steps) printed ≡ run_on (moved machine) steps printed) × IsLive (moved machine).now }
    ensures print { (machine : Loaded) (steps : ℕ) (printed : List ℤ) (number : ℤ) → event (stepped machine) ≡ Some (Event.Print number)
        → (run_on machine (suc steps) printed ≡ run_on (moved machine) steps (printed ++ number ∷ [])) × IsLive (moved machine).now }
    ensures returned { (machine : Loaded) (steps : ℕ) (printed : List ℤ) (word : ℤ) → event (stepped machine) ≡ Some (Event.Returned word)
        → run_on machine (suc steps) printed ≡ record { printed = printed; how = Returned word } }
    ensures no_store { (machine : Loaded) (steps : ℕ) (printed : List ℤ) → event (stepped machine) ≡ Some Event.NoStore
        → run_on machine (suc steps) printed ≡ record { printed = printed; how = NoStore } }
    ensures overflow { (machine : Loaded) (steps : ℕ) (printed : List ℤ) → event (stepped machine) ≡ Some Event.Overflow
        → run_on machine (suc steps) printed ≡ record { printed = printed; how = Overflow } }
{}
