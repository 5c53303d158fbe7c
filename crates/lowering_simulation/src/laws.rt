//! What the code of a core does, beside the core.

ghost use Rattle.std.specs.Prelude.{◌≡◌, ◌≢◌, ℕ, suc, List};
ghost use Rattle.lowering.specs.Lowered.{lowered};
ghost use Rattle.lowering_simulation.specs.Results.{GivesNumber};
ghost use Rattle.proof_lines.specs.declared.line.Line.{Line};
ghost use Rattle.three_address.specs.Entry.{low_entry, low_outcome};
ghost use Rattle.typed_core.specs.Meaning.{no_log, source_entry, source_outcome, source_run};
ghost use Rattle.typed_core.specs.Proving.{ElaboratedParts, IsElaboration, ProveAll};
ghost use Rattle.xan_io.specs.Agreement.{Agree, Follows};
ghost use Rattle.xan_io.specs.Outcome.{Stuck};
ghost use Rattle.xan_io.specs.declared.arg.Arg.{Arg};
ghost use Rattle.xanadu_tree.specs.PlainOf.{plain_core};
ghost use Rattle.xanadu_tree.specs.Shaped.{Shaped};

/// The code of a core follows the core: for each number of units of fuel with which the core is not stuck, and gives a number if it returns,
/// the code comes to the same outcome; where the core has only run out of units, it does so after at least as many steps.
pub fn lowered_code_follows()
    ensures { (base : ElaboratedParts) (args : List Arg) (heap depth fuel : ℕ) → IsElaboration base.core base.made → Shaped (plain_core base.core)
        → (source_outcome (plain_core base.core) args heap depth fuel).how ≢ Stuck
        → GivesNumber (source_run no_log tt (suc fuel) (plain_core base.core) args heap depth fuel)
        → Follows (low_outcome (lowered base) args heap depth) fuel (source_outcome (plain_core base.core) args heap depth fuel) }
{}

/// The code of a core all of whose goals are proved agrees with the core: for all arguments, sizes of the store and depths their runs begin
/// alike, with the same fault of the arguments, and else the same ends come after the same output, both ways.
pub fn lowered_code_agrees()
    ensures { (base : ElaboratedParts) (lines : List (List Line)) → IsElaboration base.core base.made → Shaped (plain_core base.core)
        → ProveAll base.made.goals lines → Agree (source_entry (plain_core base.core)) (low_entry (lowered base)) }
{}
