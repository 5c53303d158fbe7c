//! What a machine comes to is what the source means: laws that functions without code carry.

ghost use Rattle.std.specs.Prelude.{◌≡◌, ◌==◌, ℕ, ℤ, List, length, true};
ghost use Rattle.source_evaluator.specs.Pending.{R, Tells, first_machine, meaning};
ghost use Rattle.source_evaluator.specs.Steps.{Machine, stepped};
ghost use Rattle.typed_core.specs.Meaning.{no_log};
ghost use Rattle.typed_core.specs.SourceFreely.{free_body};
ghost use Rattle.typed_core.specs.SourceValues.{Value};
ghost use Rattle.xanadu_tree.specs.Plain as core;

/// A step changes nothing of what a machine comes to: it goes on, or prints a number that is then printed, or it returns what `main` returns,
/// or it ends as the run does.
pub fn a_step_tells_what_the_machine_comes_to()
    ensures { (funs : List core.Fun) (depth : ℕ) (m : Machine) (printed : List ℤ)
        → Tells funs depth printed (stepped funs depth m) (meaning funs depth m printed) }
{}

/// The body of `main` comes to what the first machine does.
pub fn the_first_machine_is_the_run()
    ensures { (funs : List core.Fun) (depth main : ℕ) (f : core.Fun) (values : List Value) (st : R) → (length values == length f.params) ≡ true
        → free_body no_log funs depth 1 main f values st ≡ meaning funs depth (first_machine f values st) st.printed }
{}
