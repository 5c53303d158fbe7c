//! What goes well where all goals hold.

ghost use Rattle.std.specs.Prelude.{◌≡◌, ℕ, ◌<◌, ◌≤◌, ℤ, Bool, List, ◌++◌, length, Option, Ok, All};
ghost use Rattle.operation_rules.specs.Sound.{IsSetting};
ghost use Rattle.source_safety.specs.Standing.{GoalsHold, Stands, Goes, Gives, GiveAll, Operands, CallsFare, Fares, Leaves, Brings, side_state};
ghost use Rattle.state_types.specs.Naming.{ValuesBelow};
ghost use Rattle.state_types.specs.declared.types.Ty.{Ty};
ghost use Rattle.typed_core.specs.Constructs.{setting_of};
ghost use Rattle.typed_core.specs.Joins.{Joint, joined, entered};
ghost use Rattle.typed_core.specs.Operands.{operand, operands};
ghost use Rattle.typed_core.specs.SourceOperands.{value, values};
ghost use Rattle.typed_core.specs.SourceRuns.{Calls, Env, Place, Recorder, Run};
ghost use Rattle.typed_core.specs.SourceStatements.{statement};
ghost use Rattle.typed_core.specs.SourceTests.{holds};
ghost use Rattle.typed_core.specs.SourceValues.{Value, Blocks};
ghost use Rattle.typed_core.specs.States.{Site, State, point};
ghost use Rattle.typed_core.specs.Statements.{assigned, split, store, done, going_on, printed, returning};
ghost use Rattle.typed_core.specs.Tests.{Sides, tested};
ghost use Rattle.xanadu_tree.specs.Plain as core;
ghost use Rattle.xanadu_tree.specs.declared.stmt.Clause.{Clause};
ghost use Rattle.xanadu_tree.specs.declared.types.CoreTy.{CoreTy};

/// An expression that was elaborated, whose goals hold, goes well from where its state stands: no part of it is stuck, and its value has its type
/// under an assignment that begins with the one before.
pub fn expressions_fare<L>()
    ensures { (site : Site) (call : Calls L) (env : Env) (e : core.Expr) (st more : State) (t : Ty) (assignment : List ℤ) (run : Run L)
        → IsSetting (setting_of site) → CallsFare site.table site.sigs call → operand site e st ≡ Ok (t, more) → GoalsHold more.goals
        → Stands site st env assignment run.store
        → Fares (λ v (new : Run L). Gives site more env assignment run.store t v new.store) (value call env e run) }
{}

/// So it is with operands, from left to right: the values that wait, those of the operands before them, keep their types while the others are
/// evaluated, also where blocks are made meanwhile and cells are written.
pub fn operands_fare<L>()
    ensures { (site : Site) (call : Calls L) (env : Env) (es : core.Exprs) (types all : List Ty) (st more : State) (assignment : List ℤ) (run : Run L)
        (before : List Value) → IsSetting (setting_of site) → CallsFare site.table site.sigs call → operands site es types st ≡ Ok (all, more)
        → GoalsHold more.goals → Operands site st env assignment run.store types before
        → Fares (λ vs (new : Run L). GiveAll site more env assignment run.store all (before ++ vs) new.store) (values call env es run) }
{}

/// So it is with a test: it is decided, and the rows of the side that it takes hold there, over all index variables so far.
pub fn tests_fare<L>()
    ensures { (site : Site) (call : Calls L) (env : Env) (test : core.Test) (st : State) (sides : Sides) (assignment : List ℤ) (run : Run L)
        → IsSetting (setting_of site) → CallsFare site.table site.sigs call → tested site test st ≡ Ok sides → GoalsHold sides.after.goals
        → Stands site st env assignment run.store
        → Fares (λ truth (new : Run L). Goes site (side_state truth sides) env assignment run.store new.store) (holds call env test run) }
{}

/// So it is with an assignment to a variable of the function, with a split of a tuple into variables, with a store into a cell, with a call as a
/// statement, with a print, and with a return, behind which the value has the type of the function's result, where the function's own index
/// variables have the values that they had.
pub fn simple_statements_fare<L>()
    ensures assignments { (site : Site) (recorder : Recorder L) (call : Calls L) (fun bound : ℕ) (place : Place) (env : Env) (st more : State)
        (assignment : List ℤ) (run : Run L) (x : ℕ) (e : core.Expr) → IsSetting (setting_of site) → CallsFare site.table site.sigs call
        → assigned site x e st ≡ Ok more → GoalsHold more.goals → Stands site st env assignment run.store → x < length env
        → Fares (Leaves site more (length env) assignment run.store) (statement recorder call fun bound place (core.Set x e) env run) }
    ensures splits { (site : Site) (recorder : Recorder L) (call : Calls L) (fun bound : ℕ) (place : Place) (env : Env) (st more : State)
        (assignment : List ℤ) (run : Run L) (xs : List ℕ) (e : core.Expr) (at : ℕ) → IsSetting (setting_of site) → CallsFare site.table site.sigs call
        → split site xs e st ≡ Ok more → GoalsHold more.goals → Stands site st env assignment run.store → All (λ x. x < length env) xs
        → Fares (Leaves site more (length env) assignment run.store) (statement recorder call fun bound place (core.Split xs e at) env run) }
    ensures stores { (site : Site) (recorder : Recorder L) (call : Calls L) (fun bound : ℕ) (place : Place) (env : Env) (st more : State)
        (assignment : List ℤ) (run : Run L) (array index e : core.Expr) (at : ℕ) → IsSetting (setting_of site) → CallsFare site.table site.sigs call
        → store site array index e at st ≡ Ok more → GoalsHold more.goals → Stands site st env assignment run.store
        → Fares (Leaves site more (length env) assignment run.store) (statement recorder call fun bound place (core.Store array index e at) env run) }
    ensures calls { (site : Site) (recorder : Recorder L) (call : Calls L) (fun bound : ℕ) (place : Place) (env : Env) (st more : State)
        (assignment : List ℤ) (run : Run L) (e : core.Expr) → IsSetting (setting_of site) → CallsFare site.table site.sigs call
        → done site e st ≡ Ok more → GoalsHold more.goals → Stands site st env assignment run.store
        → Fares (Leaves site more (length env) assignment run.store) (statement recorder call fun bound place (core.Do e) env run) }
    ensures prints { (site : Site) (recorder : Recorder L) (call : Calls L) (fun bound : ℕ) (place : Place) (env : Env) (st more : State)
        (assignment : List ℤ) (run : Run L) (e : core.Expr) → IsSetting (setting_of site) → CallsFare site.table site.sigs call
        → printed site e st ≡ Ok more → GoalsHold more.goals → Stands site st env assignment run.store
        → Fares (Leaves site more (length env) assignment run.store) (statement recorder call fun bound place (core.Print e) env run) }
    ensures gives { (site : Site) (recorder : Recorder L) (call : Calls L) (fun bound : ℕ) (place : Place) (env : Env) (st more : State)
        (assignment : List ℤ) (run : Run L) (e : Option core.Expr) (at : ℕ) → IsSetting (setting_of site) → CallsFare site.table site.sigs call
        → returning site e at st ≡ Ok more → GoalsHold more.goals → Stands site st env assignment run.store
        → Fares (Leaves site more (length env) assignment run.store) (statement recorder call fun bound place (core.Return e at) env run) }
{}

/// A run that comes to a join by a way in whose goals hold stands at the state that is stated there, under an assignment that begins with the one
/// under which it stood before the blocks that meet. So it does where a branch completes and nothing is stated, and its end goes on.
pub fn joins_fare()
    ensures entered { (site : Site) (clause : Clause) (changed : ℕ → Bool) (at : ℕ) (st latest end here start more : State) (joint : Joint) (before env : Env)
        (assignment : List ℤ) (old new : Blocks) → joined site clause changed (point st) latest ≡ Ok (joint, start)
        → entered site at joint (point end) here ≡ Ok more → GoalsHold more.goals → st.ctx.vars ≤ latest.ctx.vars
        → ValuesBelow latest.ctx.vars latest.naming → Stands site st before assignment old
        → Goes site end env assignment old new → Brings changed clause.vars st.types end.types → Goes site start env assignment old new }
    ensures goes_on { (site : Site) (changed : ℕ → Bool) (vars : List (ℕ × CoreTy)) (st latest end : State) (before env : Env) (assignment : List ℤ)
        (old new : Blocks) → st.ctx.vars ≤ latest.ctx.vars → end.ctx.vars ≤ latest.ctx.vars → Stands site st before assignment old
        → Goes site end env assignment old new → Brings changed vars st.types end.types
        → Goes site (going_on (point st) (point end) latest) env assignment old new }
{}
