//! The runs of a program all of whose goals are proved.

ghost use Rattle.source_safety.specs.Whole.{IsNeverStuck};
ghost use Rattle.xanadu_tree.specs.PlainOf.{plain_core};

use typed_core::Proved;

/// A program with the lines of its goals, as `goal_table::prove_all` gives it, is never stuck, for all arguments, sizes of the store, depths and
/// units of fuel. It computes nothing; the clause is what it is for.
pub fn proved_programs_are_never_stuck(proved: &Proved)
    ensures { IsNeverStuck (plain_core proved.now.base.core) }
{
    let _lines = proved.lines();
    let base = proved.base();
    let core = base.core();
    let _funs = core.funs();
}
