//! What holds of the code of a core, as laws that functions without code carry.

ghost use Rattle.std.specs.Prelude.{◌≡◌, ℕ, suc, ◌<◌, List, length, map, slice_get, Some};
ghost use Rattle.lowering.specs.CodeBlocks.{HasJump, InBlocks};
ghost use Rattle.value_lowering.specs.Frames.{frame_of, tuple_number};
ghost use Rattle.lowering.specs.Lowered.{NamesPosition, body_of, code_of, function_of, lowered};
ghost use Rattle.lowering.specs.TestLeaves.{block_leaves, conditional_branches};
ghost use Rattle.state_types.specs.declared.closed.Signature.{Signature};
ghost use Rattle.three_address.specs.declared.instruction.LowInstr.{LowInstr};
ghost use Rattle.typed_core.specs.Places.{places_of};
ghost use Rattle.typed_core.specs.Proving.{ElaboratedParts};
ghost use Rattle.xanadu_tree.specs.KindRules.{HasKind, header};
ghost use Rattle.xanadu_tree.specs.Plain as core;
ghost use Rattle.xanadu_tree.specs.PlainOf.{plain_core};
ghost use Rattle.xanadu_tree.specs.Shaped.{Shaped, setting};
ghost use Rattle.xanadu_tree.specs.declared.types.Kind.TheVariants as kind;

/// A function has as many places as the limits count: its variables, and the temporaries that are named.
pub fn places_are_those_counted()
    ensures { (program : core.Program) (number : ℕ) (f : core.Fun) → Shaped program → slice_get program.funs number ≡ Some f
        → (body_of program f).places ≡ places_of f }
{}

/// The conditional branches of a function are the leaves of its tests.
pub fn branches_are_leaves()
    ensures { (program : core.Program) (f : core.Fun) → conditional_branches (body_of program f).code ≡ block_leaves f.body }
{}

/// The code of a function is in blocks: labels rise, each block ends with a jump or a return, and behind these stands a label or the end.
pub fn code_is_in_blocks()
    ensures { (program : core.Program) (number : ℕ) (f : core.Fun) → Shaped program → slice_get program.funs number ≡ Some f
        → InBlocks (body_of program f).code (body_of program f).labels }
{}

/// Some instruction goes to each label. Labels are numbered from 1.
pub fn labels_have_jumps()
    ensures { (program : core.Program) (number : ℕ) (f : core.Fun) → Shaped program → slice_get program.funs number ≡ Some f
        → (before : ℕ) → before < length (body_of program f).labels → HasJump (body_of program f).code (suc before) }
{}

/// Each instruction is the one with a position as its target, and the number of its label names that position.
pub fn numbers_name_their_positions()
    ensures { (program : core.Program) (f : core.Fun) (at : ℕ) (instr : LowInstr) → slice_get (code_of program f) at ≡ Some instr
        → NamesPosition (body_of program f) at instr }
{}

/// The number that stands with a tuple that is taken apart is that of its type.
pub fn kinds_are_found()
    ensures { (program : core.Program) (f : core.Fun) (visible : List ℕ) (e : core.Expr) (number : ℕ)
        → HasKind (setting program.types (map header program.funs) f) visible e (kind.Named number) → tuple_number (frame_of program f) e ≡ number }
{}

/// Each function of a core is there with its number, its signature and its code.
pub fn functions_are_found()
    ensures { (base : ElaboratedParts) (number : ℕ) (f : core.Fun) (sig : Signature) → slice_get (plain_core base.core).funs number ≡ Some f
        → slice_get base.made.sigs number ≡ Some sig → slice_get (lowered base).funs number ≡ Some (function_of (plain_core base.core) f sig) }
{}
