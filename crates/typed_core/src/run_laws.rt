//! What holds of the runs of cores, and of their stores.

ghost use Rattle.std.specs.Prelude.{◌≡◌, ℕ, ◌<◌, List, Option};
ghost use Rattle.operation_rules.specs.Stored.{IsStores};
ghost use Rattle.typed_core.specs.Meaning.{source_run};
ghost use Rattle.typed_core.specs.Printed.{CallsPrintOn, PrintsOn};
ghost use Rattle.typed_core.specs.SourceCalls.{called};
ghost use Rattle.typed_core.specs.SourceFreely.{free_call, free_statement, free_block, freely_called, freely_behind, freely_branched, freely_turned, freely_run};
ghost use Rattle.typed_core.specs.SourceOperands.{value};
ghost use Rattle.typed_core.specs.SourceRuns.{Calls, Run, Env, Place, Recorder};
ghost use Rattle.typed_core.specs.SourceStatements.{statement, block};
ghost use Rattle.typed_core.specs.SourceTests.{holds};
ghost use Rattle.typed_core.specs.SourceValues.{Tag, Value, separate};
ghost use Rattle.xan_io.specs.declared.arg.Arg.{Arg};
ghost use Rattle.xanadu_tree.specs.declared.stmt.Clause.{Clause};
ghost use Rattle.xanadu_tree.specs.Plain as core;

/// Of the run of a core the bound does not matter, where it is greater than the units of fuel: with any two such bounds the run comes to the
/// same, and its log is the same.
pub fn more_bound_changes_nothing<L>()
    ensures { (recorder : Recorder L) (log : L) (bound other : ℕ) (program : core.Program) (args : List Arg) (heap depth fuel : ℕ)
        → fuel < bound → fuel < other
        → source_run recorder log bound program args heap depth fuel ≡ source_run recorder log other program args heap depth fuel }
{}

/// Separate blocks are a kind of store: a written cell changes no header and no other cell, and a block that is made changes nothing else.
pub fn separate_blocks_are_stores()
    ensures { (tags : ℕ → Tag) → IsStores (separate tags) }
{}

/// What the parts of a run do needs no bound: a call, a statement with those behind it, branches and the turns of a loop do what their own
/// parts do, each under one more than the units that are left as its bound; and a whole run does so under any greater bound.
pub fn meaning_needs_no_bound<L>()
    ensures calls { (recorder : Recorder L) (funs : List core.Fun) (depth live fun : ℕ) (values : List Value) (st : Run L)
        → free_call recorder funs depth live fun values st ≡ freely_called recorder funs depth live fun values st }
    ensures blocks { (recorder : Recorder L) (funs : List core.Fun) (depth live fun : ℕ) (place : Place) (number : ℕ) (s : core.Stmt) (ss : core.Stmts) (env : Env) (st : Run L)
        → free_block recorder funs depth live fun place number (core.AStmt s ss) env st ≡ freely_behind recorder funs depth live fun place number s ss env st }
    ensures branches { (recorder : Recorder L) (funs : List core.Fun) (depth live fun : ℕ) (place : Place) (test : core.Test) (on_true on_false : core.Stmts)
        (join : Option Clause) (at : ℕ) (env : Env) (st : Run L)
        → free_statement recorder funs depth live fun place (core.If test on_true on_false join at) env st
        ≡ freely_branched recorder funs depth live fun place test on_true on_false env st }
    ensures turns { (recorder : Recorder L) (funs : List core.Fun) (depth live fun : ℕ) (place : Place) (test : core.Test) (head : Option Clause) (inner : core.Stmts)
        (at : ℕ) (env : Env) (st : Run L)
        → free_statement recorder funs depth live fun place (core.While test head inner at) env st
        ≡ freely_turned recorder funs depth live fun place test head inner at env st }
    ensures runs { (recorder : Recorder L) (log : L) (bound : ℕ) (program : core.Program) (args : List Arg) (heap depth fuel : ℕ) → fuel < bound
        → source_run recorder log bound program args heap depth fuel ≡ freely_run recorder log program args heap depth fuel }
{}

/// Along a run what is printed only becomes more, also where it ends: each part leaves in front what was printed before it.
pub fn output_only_grows<L>()
    ensures calls { (recorder : Recorder L) (funs : List core.Fun) (depth bound live fun : ℕ) (values : List Value) (st : Run L)
        → PrintsOn st (called recorder funs depth bound live fun values st) }
    ensures values { (call : Calls L) (env : Env) (e : core.Expr) (st : Run L) → CallsPrintOn call → PrintsOn st (value call env e st) }
    ensures tests { (call : Calls L) (env : Env) (test : core.Test) (st : Run L) → CallsPrintOn call → PrintsOn st (holds call env test st) }
    ensures statements { (recorder : Recorder L) (call : Calls L) (fun bound : ℕ) (place : Place) (s : core.Stmt) (env : Env) (st : Run L) → CallsPrintOn call
        → PrintsOn st (statement recorder call fun bound place s env st) }
    ensures blocks { (recorder : Recorder L) (call : Calls L) (fun bound : ℕ) (place : Place) (number : ℕ) (ss : core.Stmts) (env : Env) (st : Run L) → CallsPrintOn call
        → PrintsOn st (block recorder call fun bound place number ss env st) }
{}
