//! What the rules of a core mean, as laws that functions without code carry.

ghost use Rattle.std.specs.Prelude.{◌≡◌, ℕ, List};
ghost use Rattle.xanadu_tree.specs.BodyRules.{Point, AreStatements, AreNumbered, all_indices};
ghost use Rattle.xanadu_tree.specs.KindRules.{Setting, HasKind};
ghost use Rattle.xanadu_tree.specs.Shaped.{Shaped};
ghost use Rattle.xanadu_tree.specs.declared.types.Kind.{Kind};
ghost use Rattle.xanadu_tree.specs.Plain as core;
ghost use Rattle.xanadu_tree.specs.Small.{IsSum, number_program};

/// The program of a sum keeps the rules of a core.
pub fn sums_are_shaped()
    ensures { (count : ℕ) (value : core.Expr) (return_at at : ℕ) → IsSum count value → Shaped (number_program count value return_at at) }
{}

/// An expression has at most one kind.
pub fn kinds_are_unique()
    ensures { (set : Setting) (visible : List ℕ) (e : core.Expr) (j k : Kind) → HasKind set visible e j → HasKind set visible e k → j ≡ k }
{}

/// The index variables of a body's clauses are the next numbers in the order of the text, so that no two are one.
pub fn clauses_are_numbered()
    ensures { (set : Setting) (before : Point) (body : core.Stmts) (after : Point) → AreStatements set before body after → AreNumbered before after (all_indices body) }
{}
