//! Runs of emitted programs.

ghost use Rattle.std.specs.Prelude.{◌≡◌, ℕ, Bool, true, List, ◌<◌, nat_lt};
ghost use Rattle.std.specs.List.{Contains};
ghost use Rattle.xan_io.specs.declared.arg.Arg.{Arg};
ghost use Rattle.three_address.specs.Entry.{low_entry};
ghost use Rattle.three_address.specs.Flow.{reads_at};
ghost use Rattle.three_address.specs.declared.assignment.Assignment.{Assignment};
ghost use Rattle.three_address.specs.declared.function.LowFun.{LowFun};
ghost use Rattle.three_address.specs.declared.typed.Typed.{Typed};
ghost use Rattle.dtal_code.specs.Grammar.{InGrammar};
ghost use Rattle.dtal_code.specs.Runs.{program_run};
ghost use Rattle.dtal_emit.specs.Emitted.{emitted};
ghost use Rattle.emission_laws.specs.ApartHomes.{AreApart, AreSlots};
ghost use Rattle.emission_laws.specs.EmittedRanges.{IsRanged};
ghost use Rattle.emission_laws.specs.FollowedRuns.{AreReady, RunsFollow};

/// Where homes keep places apart, the run of the emitted program follows the run of the code over places, for all arguments and each size of
/// the store and of the stack. It begins with the same fault, or has each of its outcomes that is not stuck; where that run goes on, after at
/// least as many steps.
pub fn emitted_programs_follow()
    ensures { (typed : Typed) (homes : Assignment) (kept : ℕ → ℕ → ℕ → Bool) → AreReady typed homes (λ number at place. kept number at place ≡ true)
        → (args : List Arg) (heap depth : ℕ) → RunsFollow (low_entry typed.low args heap depth) (program_run (emitted typed homes) args heap depth) }
{}

/// Slots of their own keep all places of a function apart, where each instruction reads places of that function.
pub fn slots_keep_apart()
    ensures { (fun : LowFun) (homes : List ℕ) → AreSlots homes fun.places → ((at place : ℕ) → Contains (reads_at fun at) place → place < fun.places)
        → AreApart fun homes (λ at place. nat_lt place fun.places ≡ true) }
{}

/// The emitted program is of the grammar, and so has a text, where the parts of the typed code are in the ranges of the text and its blocks end in
/// a jump or a return.
pub fn emitted_programs_have_texts()
    ensures { (typed : Typed) (homes : Assignment) → IsRanged typed homes → InGrammar (emitted typed homes) }
{}
