//! Runs of small programs.

ghost use Rattle.std.specs.Prelude.{ℕ, List};
ghost use Rattle.dtal_code.specs.Runs.{program_run};
ghost use Rattle.dtal_code.specs.declared.program.DtalProgram.{DtalProgram};
ghost use Rattle.program_builder.specs.SmallEnds.{RunEnds};
ghost use Rattle.typed_core.specs.Meaning.{source_entry};
ghost use Rattle.xan_io.specs.Agreement.{Agree};
ghost use Rattle.xan_io.specs.Entry.{IsRun};
ghost use Rattle.xan_io.specs.declared.arg.Arg.{Arg};
ghost use Rattle.xanadu_tree.specs.Plain as core;
ghost use Rattle.xanadu_tree.specs.Small.{IsSmall};

/// Each run of a small program ends, with whatever number of units: it returns or leaves the words, and finds no store where there may be no
/// activation. So the run of a program that agrees with it ends at some time.
pub fn small_programs_end()
    ensures source { (source : core.Program) → IsSmall source → (args : List Arg) (heap depth : ℕ) → (fuel : ℕ) → RunEnds depth (source_entry source args heap depth) fuel }
    ensures machine { (source : core.Program) (program : DtalProgram) → IsSmall source → Agree (source_entry source) (program_run program)
        → (args : List Arg) (heap depth : ℕ) → IsRun args heap depth → (steps : ℕ) × RunEnds depth (program_run program args heap depth) steps }
{}
