//! What is accepted runs safely.

ghost use Rattle.std.specs.Prelude.{◌≡◌, ◌≢◌, ℕ, ℤ, true, List, Option, Some, Ok, length};
ghost use Rattle.std.specs.List.{All};
ghost use Rattle.xan_io.specs.Outcome.{Stuck};
ghost use Rattle.xan_io.specs.declared.arg.Arg.{Arg};
ghost use Rattle.operation_rules.specs.FlatWords.{is_whole};
ghost use Rattle.state_types.specs.declared.state.StateType.{StateType};
ghost use Rattle.dtal_code.specs.Acceptance.{Accepted};
ghost use Rattle.dtal_code.specs.Machine.{State, On, Off};
ghost use Rattle.dtal_code.specs.ObjectCode.{Code, code_of};
ghost use Rattle.dtal_code.specs.Running.{step, comes_to};
ghost use Rattle.dtal_code.specs.Runs.{program_entry};
ghost use Rattle.dtal_code.specs.Safety.{touched, IsSafe, RunsSafely};
ghost use Rattle.dtal_code.specs.Allocated.{IsAllocated, words_after};
ghost use Rattle.dtal_code.specs.declared.program.DtalProgram.{DtalProgram};
ghost use Rattle.dtal_safety.specs.Fitting.{StateFits};

/// Every run of an accepted program is safe: on all arguments, with any size of the store and any number of activations, after any number of
/// steps. It is not stuck, and where it goes on it stands at an instruction that exists, whose step is not stuck and touches only addresses that
/// are allocated behind it. Arguments with a fault begin no run.
pub fn accepted_programs_run_safely()
    ensures { (program : DtalProgram) (args : List Arg) (heap depth steps : ℕ) → Accepted program
        → RunsSafely (code_of program) (program_entry program args heap depth) steps }
{}

/// The state with which a run of an accepted program begins fits the state types of the program.
pub fn first_states_fit()
    ensures { (program : DtalProgram) (accepted : Accepted program) (args : List Arg) (heap depth : ℕ) (state : State)
        → program_entry program args heap depth ≡ Ok (Some state) → StateFits program accepted.states state }
{}

/// A state that fits is safe.
pub fn fitting_states_are_safe()
    ensures { (program : DtalProgram) (accepted : Accepted program) (state : State) → StateFits program accepted.states state
        → IsSafe (code_of program) state }
{}

/// What a step leaves of a state that fits, where the run goes on, fits too.
pub fn steps_keep_fitting()
    ensures { (program : DtalProgram) (accepted : Accepted program) (state next : State) (printed : Option ℤ)
        → StateFits program accepted.states state → step (code_of program) state ≡ On printed next → StateFits program accepted.states next }
{}

/// So does each state that a run comes to from one that fits: there are no more used words and no more activations than there may be, and each
/// activation has 256 places.
pub fn reached_states_fit()
    ensures fit { (program : DtalProgram) (accepted : Accepted program) (steps : ℕ) (state last : State) → StateFits program accepted.states state
        → comes_to (code_of program) steps state ≡ Some last → StateFits program accepted.states last }
    ensures places { (program : DtalProgram) (states : List (List StateType)) (state : State) → StateFits program states state
        → All (λ act. length act.places ≡ 256) state.activations }
{}

/// Whatever the code is: where the used words are divided into blocks, each address that a step touches is allocated behind it, unless the step
/// is stuck.
pub fn touched_addresses_are_allocated()
    ensures { (code : Code) (state : State) → is_whole state.words ≡ true → step code state ≢ Off Stuck
        → All (IsAllocated (words_after state (step code state))) (touched code state) }
{}
