//! Typed operations go well.

ghost use Rattle.std.specs.Prelude.{◌≡◌, ◌≤◌, ◌+◌, ℕ, ℤ, Bool, List, Ok, All};
ghost use Rattle.index_sorts.specs.Context.{IndexContext};
ghost use Rattle.index_sorts.specs.Entails.{AllHold};
ghost use Rattle.xan_lin.specs.Linear.{NamesBelow};
ghost use Rattle.state_types.specs.Tables.{IsClosed};
ghost use Rattle.state_types.specs.Types.{TypeBelow};
ghost use Rattle.state_types.specs.declared.types.Ty.{Ty};
ghost use Rattle.operation_rules.specs.Applied.{Ruled, applied};
ghost use Rattle.operation_rules.specs.Effects.{Stores, effect};
ghost use Rattle.operation_rules.specs.FlatWords.{flat_words};
ghost use Rattle.operation_rules.specs.Named.{IsNamed, IsTypeNamed};
ghost use Rattle.operation_rules.specs.Operations.{Operation};
ghost use Rattle.operation_rules.specs.Rules.{Setting, Rule, rule};
ghost use Rattle.operation_rules.specs.Sides.{side};
ghost use Rattle.operation_rules.specs.Sound.{IsSetting, Stands, Fares};
ghost use Rattle.operation_rules.specs.Stored.{IsStores, StoreFits};

/// Where the words that an operation reads have their types under an assignment, the store fits, and the demanded rows hold, the operation is
/// not stuck, and what comes out has its types under the assignment with values of the fresh variables behind it.
pub fn operations_are_sound<S>()
    ensures { (stores : Stores S) (st : Setting) (op : Operation) (types : List Ty) (ctx : IndexContext) (r : Rule) (ruled : Ruled)
        (assignment words : List ℤ) (store : S) → IsStores stores → IsSetting st → st.own.vars ≤ ctx.vars
        → rule st op types ctx.vars ≡ Ok r → applied r ctx ≡ Ok ruled → Stands (stores.headers store) assignment ctx words types
        → StoreFits stores st.table store → AllHold assignment ruled.demands
        → Fares stores st op types store assignment ctx ruled (effect stores op words store) }
{}

/// Flat words are a kind of store: a written cell changes no header and no other cell, and a block that is appended changes nothing else.
pub fn flat_words_are_stores()
    ensures { IsStores flat_words }
{}

/// The rows that a rule takes to hold name only variables of the context with the fresh ones, where the types that are read name variables of
/// the context.
pub fn assumed_rows_are_named()
    ensures { (st : Setting) (op : Operation) (types : List Ty) (first : ℕ) (r : Rule) → All IsClosed st.table → rule st op types first ≡ Ok r
        → All (TypeBelow first) types → All (IsNamed (first + r.fresh)) r.assumed }
{}

/// The rows that a rule demands name only variables of the context, and the types that it gives those and the fresh ones, where the types that
/// are read name variables of the context.
pub fn ruled_rows_and_types_are_named()
    ensures demands { (st : Setting) (op : Operation) (types : List Ty) (first : ℕ) (r : Rule) → All IsClosed st.table → st.own.vars ≤ first
        → rule st op types first ≡ Ok r → All (TypeBelow first) types → All (NamesBelow first) r.demands }
    ensures given { (st : Setting) (op : Operation) (types : List Ty) (first : ℕ) (r : Rule) → All IsClosed st.table → st.own.vars ≤ first
        → rule st op types first ≡ Ok r → All (TypeBelow first) types → All (IsTypeNamed (first + r.fresh)) r.given }
{}

/// The rows of either side of a branch name only variables of the context, where the types that are read do.
pub fn sides_are_named()
    ensures { (taken : Bool) (op : Operation) (types : List Ty) (vars : ℕ) → All (TypeBelow vars) types → All (IsNamed vars) (side taken op types) }
{}
