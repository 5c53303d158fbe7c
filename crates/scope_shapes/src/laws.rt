//! What holds of each core that a tree has.

ghost use Rattle.std.specs.Prelude.{◌≡◌, ℕ, Ok};
ghost use Rattle.scope_shapes.specs.Shape.{shape};
ghost use Rattle.xanadu_tree.specs.Plain as core;
ghost use Rattle.xanadu_tree.specs.PlainTree as plain;
ghost use Rattle.xanadu_tree.specs.Shaped.{Shaped};
ghost use Rattle.xanadu_tree.specs.Written.{IsWritten};

/// The core of a tree that some source spells keeps the rules of a core.
pub fn shapes_are_shaped()
    ensures { (tree : plain.Tree) (end : ℕ) (program : core.Program) → IsWritten tree → shape tree end ≡ Ok program → Shaped program }
{}
