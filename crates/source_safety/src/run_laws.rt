//! What goes well in whole runs of a core that keeps the rules of a core and all of whose goals hold.

ghost use Rattle.std.specs.Prelude.{◌≡◌, ℕ, ℤ, List, [], Ok, Some, None, All};
ghost use Rattle.operation_rules.specs.Entry.{placed};
ghost use Rattle.proof_lines.specs.declared.line.Line.{Line};
ghost use Rattle.source_safety.specs.Standing.{GoalsHold, CallsFare, Fares};
ghost use Rattle.source_safety.specs.Recorded.{Reach, IsReached, every_statement, log_of};
ghost use Rattle.source_safety.specs.Whole.{BeginsWell, GivesResult, IsNeverStuck};
ghost use Rattle.typed_core.specs.Goals.{Elaboration, elaborated};
ghost use Rattle.typed_core.specs.Meaning.{source_fault, source_run};
ghost use Rattle.typed_core.specs.Proving.{ProveAll};
ghost use Rattle.typed_core.specs.Reached.{IsBefore};
ghost use Rattle.typed_core.specs.SourceCalls.{called};
ghost use Rattle.typed_core.specs.SourceOperands.{no_cells};
ghost use Rattle.typed_core.specs.SourceRuns.{Recorder, Run};
ghost use Rattle.typed_core.specs.SourceValues.{Blocks, separate};
ghost use Rattle.xan_io.specs.declared.arg.Arg.{Arg};
ghost use Rattle.xanadu_tree.specs.Plain as core;
ghost use Rattle.xanadu_tree.specs.Shaped.{Shaped};

/// Arguments without a fault fit `main`: the rows of its signature hold for the values that they give to its variables, and they have the types
/// of its parameters in the store in which their arrays are.
pub fn arguments_fit()
    ensures { (program : core.Program) (made : Elaboration) (args : List Arg) (heap : ℕ) (words : List ℤ) (new : Blocks) → Shaped program
        → elaborated program ≡ Ok made → source_fault program args ≡ None
        → placed (separate no_cells) args (record { blocks = []; heap = heap }) ≡ Some (words, new) → BeginsWell program made args words new }
{}

/// Calls go well, with any bound and however many activations there are: what comes of a call from arguments that fit is a value of the type of
/// the function's result, and no call is stuck.
pub fn calls_fare<L>()
    ensures { (recorder : Recorder L) (program : core.Program) (made : Elaboration) (depth bound live : ℕ) → Shaped program
        → elaborated program ≡ Ok made → GoalsHold made.goals → CallsFare made.table made.sigs (called recorder program.funs depth bound live) }
{}

/// So do runs from arguments without a fault: what a run gives has the type of the result of `main`, and none is stuck, whatever is recorded.
pub fn runs_fare<L>()
    ensures { (recorder : Recorder L) (log : L) (program : core.Program) (made : Elaboration) (args : List Arg) (bound heap depth fuel : ℕ) → Shaped program
        → elaborated program ≡ Ok made → GoalsHold made.goals → source_fault program args ≡ None
        → Fares (λ v (new : Run L). GivesResult program made args v new.store) (source_run recorder log bound program args heap depth fuel) }
{}

/// A core all of whose goals are proved is never stuck, for all arguments, sizes of the store, depths and units of fuel.
pub fn proved_sources_are_never_stuck()
    ensures { (program : core.Program) (made : Elaboration) (lines : List (List Line)) → Shaped program → elaborated program ≡ Ok made
        → ProveAll made.goals lines → IsNeverStuck program }
{}

/// A run stands at each statement that it reaches as elaboration says in front of it: under some assignment the rows that are known there hold, and
/// each visible variable has a value of its type, and so has each cell and part of a block. Each statement is named by where it stands.
pub fn reached_statements_stand()
    ensures all { (program : core.Program) (made : Elaboration) (args : List Arg) (bound heap depth fuel : ℕ) → Shaped program
        → elaborated program ≡ Ok made → GoalsHold made.goals → source_fault program args ≡ None
        → All (IsReached program made) (log_of (source_run every_statement [] bound program args heap depth fuel)) }
    ensures before { (program : core.Program) (made : Elaboration) (reach : Reach) (it : IsReached program made reach)
        → IsBefore program reach.fun it.reached it.there }
{}
