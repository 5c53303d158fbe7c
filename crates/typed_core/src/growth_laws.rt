//! How states grow along a walk, and what is named there.

ghost use Rattle.std.specs.Prelude.{◌≡◌, ◌≤◌, ℕ, false, Some, Ok, All, slice_get};
ghost use Rattle.state_types.specs.PlaceTypes.{type_at};
ghost use Rattle.state_types.specs.Tables.{IsClosed};
ghost use Rattle.state_types.specs.Types.{TypeBelow};
ghost use Rattle.state_types.specs.declared.types.Ty.{Ty};
ghost use Rattle.typed_core.specs.Goals.{Elaboration, elaborated};
ghost use Rattle.typed_core.specs.Growth.{Later, Grown, SidesGrown, NamesSoFar, SidesNamed};
ghost use Rattle.typed_core.specs.Joins.{changes_any};
ghost use Rattle.typed_core.specs.Operands.{operand};
ghost use Rattle.typed_core.specs.Reached.{IsBefore, StandsIn};
ghost use Rattle.typed_core.specs.Segments.{IsFunctionSegment, IsSegment};
ghost use Rattle.typed_core.specs.States.{Site, State};
ghost use Rattle.typed_core.specs.Statements.{block};
ghost use Rattle.typed_core.specs.Tests.{Sides, tested};
ghost use Rattle.xan_lin.specs.Linear.{NamesBelow};
ghost use Rattle.xanadu_tree.specs.Plain as core;

/// Along an expression variables, rows, goals and notes only become more, and all that is named is there, where it was so before.
pub fn expressions_grow()
    ensures grown { (site : Site) (e : core.Expr) (st more : State) (t : Ty) → operand site e st ≡ Ok (t, more) → Grown st more }
    ensures named { (site : Site) (e : core.Expr) (st more : State) (t : Ty) → All IsClosed site.table → site.own.vars ≤ st.ctx.vars → NamesSoFar st
        → operand site e st ≡ Ok (t, more) → NamesSoFar more × TypeBelow more.ctx.vars t }
{}

/// So it is on either side of a test.
pub fn tests_grow()
    ensures grown { (site : Site) (test : core.Test) (st : State) (sides : Sides) → tested site test st ≡ Ok sides → SidesGrown st sides }
    ensures named { (site : Site) (test : core.Test) (st : State) (sides : Sides) → All IsClosed site.table → site.own.vars ≤ st.ctx.vars → NamesSoFar st
        → tested site test st ≡ Ok sides → SidesNamed sides }
{}

/// Along a block index variables, names, goals and notes only become more, and a variable that no statement changes keeps its type.
pub fn blocks_grow()
    ensures later { (site : Site) (ss : core.Stmts) (st more : State) → block site ss st ≡ Ok more → Later st more }
    ensures types { (site : Site) (ss : core.Stmts) (st more : State) (x : ℕ) → block site ss st ≡ Ok more → changes_any ss x ≡ false
        → type_at x more.types ≡ type_at x st.types }
{}

/// The rows that are known in front of a statement name only index variables so far.
pub fn rows_name_variables_so_far()
    ensures { (program : core.Program) (fun : ℕ) (reached : core.Stmt) (there : State) → IsBefore program fun reached there
        → All (NamesBelow there.ctx.vars) there.ctx.rows }
{}

/// A statement that stands in a block is elaborated from the state in front of it, and what it makes is a segment of what the block makes.
pub fn reached_statements_are_segments()
    ensures { (site : Site) (ss : core.Stmts) (st end : State) (reached : core.Stmt) (there : State) → StandsIn site ss st reached there
        → block site ss st ≡ Ok end → IsSegment site reached st there end }
{}

/// Each function of an elaborated program is elaborated from where its body begins, and what it makes is a segment of all that is made.
pub fn elaborated_functions_are_segments()
    ensures { (program : core.Program) (made : Elaboration) (fun : ℕ) (f : core.Fun) → elaborated program ≡ Ok made
        → slice_get program.funs fun ≡ Some f → IsFunctionSegment program made fun f }
{}
