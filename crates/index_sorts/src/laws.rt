//! What a context knows is true of its variables.
ghost use Rattle.index_sorts.specs.Context.{IndexContext};
ghost use Rattle.index_sorts.specs.Known.{IsKnown};
ghost use Rattle.index_sorts.specs.Entails.{Entails};
ghost use Rattle.xan_lin.specs.Linear.{Linear};

/// A row that a context knows is entailed by its rows.
pub fn known_rows_are_entailed()
    ensures { (context : IndexContext) (row : Linear) → IsKnown context row → Entails context.rows row }
{}
