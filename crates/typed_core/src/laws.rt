//! What the rules of a core mean for its elaboration, and that elaboration follows the rules of operations: laws that functions without code
//! carry.

ghost use Rattle.std.specs.Prelude.{◌≡◌, ◌≢◌, List, [], Ok, Err};
ghost use Rattle.index_sorts.specs.Context.{IndexContext};
ghost use Rattle.operation_rules.specs.Applied.{Ruled, applied};
ghost use Rattle.operation_rules.specs.declared.rule.Rule.{Rule};
ghost use Rattle.state_types.specs.declared.closed.Packed.{Packed};
ghost use Rattle.state_types.specs.declared.closed.Signature.{Signature};
ghost use Rattle.state_types.specs.declared.types.Ty.{Ty};
ghost use Rattle.typed_core.specs.Constructs.{followed};
ghost use Rattle.typed_core.specs.Goals.{elaborated};
ghost use Rattle.typed_core.specs.Headers.{AreDeclared, table_of, signatures};
ghost use Rattle.typed_core.specs.Limits.{Misfit, Stray};
ghost use Rattle.xanadu_tree.specs.Plain as core;
ghost use Rattle.xanadu_tree.specs.Shaped.{Shaped};

/// A core that keeps the rules of a core is elaborated, or stopped by a limit: no number in it names nothing, and no kind is another one
/// than is asked for.
pub fn shaped_cores_fit()
    ensures { (program : core.Program) → Shaped program → elaborated program ≢ Err Misfit }
{}

/// And terms and index variables rise in it, and each form names what is there.
pub fn shaped_cores_never_stray()
    ensures { (program : core.Program) → Shaped program → elaborated program ≢ Err Stray }
{}

/// The types and signatures of a core that keeps the rules of a core name only their own variables, which are no more than a context can have.
pub fn shaped_declarations_are_closed()
    ensures { (program : core.Program) (table : List Packed) (sigs : List Signature) → Shaped program → table_of program.types ≡ Ok table
        → signatures program.funs [] ≡ Ok sigs → AreDeclared table sigs }
{}

/// What elaboration follows of a rule is what verification applies, and the reverse.
pub fn followed_rules_are_applied()
    ensures applied { (r : Rule) (ctx more : IndexContext) (types : List Ty) → followed r ctx ≡ Ok (types, more)
        → applied r ctx ≡ Ok (record { demands = r.demands; ctx = more; types = types }) }
    ensures followed { (r : Rule) (ctx : IndexContext) (ruled : Ruled) → applied r ctx ≡ Ok ruled
        → (followed r ctx ≡ Ok (ruled.types, ruled.ctx)) × (ruled.demands ≡ r.demands) }
{}
