//! The code of a program all of whose goals are proved.

ghost use Rattle.std.specs.Prelude.{◌≡◌, ℕ, List, None};
ghost use Rattle.lowering.specs.Lowered.{lowered};
ghost use Rattle.three_address.specs.Entry.{low_entry, low_outcome};
ghost use Rattle.typed_core.specs.Meaning.{source_entry, source_fault, source_outcome};
ghost use Rattle.xan_io.specs.Agreement.{Agree, Follows};
ghost use Rattle.xan_io.specs.declared.arg.Arg.{Arg};
ghost use Rattle.xanadu_tree.specs.PlainOf.{plain_core};

use typed_core::Proved;

/// The code of a program with the lines of its goals, as `goal_table::prove_all` gives it, agrees with the program, both ways; and for
/// each number of units of fuel it comes to the program's outcome, so that whatever follows the code follows the program. It computes nothing;
/// the clauses are what it is for.
pub fn proved_code_agrees(proved: &Proved)
    ensures agrees { Agree (source_entry (plain_core proved.now.base.core)) (low_entry (lowered proved.now.base)) }
    ensures follows { (args : List Arg) (heap depth : ℕ) → source_fault (plain_core proved.now.base.core) args ≡ None → (fuel : ℕ)
        → Follows (low_outcome (lowered proved.now.base) args heap depth) fuel (source_outcome (plain_core proved.now.base.core) args heap depth fuel) }
{
    let _lines = proved.lines();
    let base = proved.base();
    let core = base.core();
    let _funs = core.funs();
}
