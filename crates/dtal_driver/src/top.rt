//! The whole program: words in, a status out.

ghost use Rattle.std.specs.Prelude.{◌≡◌, ◌≢◌, ◌<◌, ◌⊎◌, ℕ, List, Some, None, Err, [], IfOk, IfErr};
ghost use Rattle.xan_io.specs.Faults.{Rose};
ghost use Rattle.xan_io.specs.Outcome.{Stuck};
ghost use Rattle.dtal_machine.specs.Steps.{IsLive, run_on};
ghost use Rattle.dtal_code.specs.declared.program.DtalProgram.{DtalProgram};
ghost use Rattle.dtal_code.specs.Acceptance.{Accepted};
ghost use Rattle.dtal_code.specs.Refusing.{verified};
ghost use Rattle.std.specs.Io.KnownBytes.{append_known};
ghost use Rattle.xan_io.specs.declared.arg.Arg.{Arg};
ghost use Rattle.dtal_driver.specs.Answers.{status_of, line_of};
ghost use Rattle.dtal_driver.specs.Promises.{IsStatus, IsEndOfRun, OfText, TooLongFor, NoProgramAt, RefusedAt, FaultyAt, RanTo, Ran, AcceptedText, Said, SaidInPart};
ghost use Rattle.dtal_driver.specs.Causes.{Cause, TextRose, IsText, IsLoadedFrom, Says, Went, RunSaid};
ghost use Rattle.dtal_driver.specs.Words.{IsWithin};
ghost use Rattle.dtal_driver.specs.Report.{Report, Reports, plain, report_text};
ghost use Rattle.run_options.specs.declared.options.Limits.{Limits};
ghost use Rattle.dtal_driver.specs.Words.{Meant, words_mean, text_of, Verify, Run};
ghost use Rattle.xan_io.specs.Words.{texts};

use crate::answer::Answer;
use crate::counts::accepted_answer;
use crate::lines::put_line;
use crate::load::load;
use crate::run::{End, run};
use crate::text::verified_program;
use crate::words::{Command, read_command};
use dtal_code::{Rule, Where};
use dtal_machine::Machine;
use dtal_safety::accepted_programs_run_safely;
use dtal_text::program_texts_are_read;
use run_options::{Limits, WordsError};
use std::alloc::Global;
use xan_io::{Arg, Files, Sink};

/// The status where `out` failed; nothing more can be said then.
const CUT: u8 = 4;

/// Does what the words ask for, says how it came out on `out`, and answers the status to end with.
pub fn dtal_top<F: Files, O: Sink>(alloc: Global, words: &[&str], files: &mut F, out: &mut O) -> u8
    ensures statuses { IsStatus result }

    // 2, exactly where the words mean nothing, unless memory ran out; but a fault of `out` goes before all else.
    ensures no_command { result ≡ 2 → words_mean (texts words.now) ≡ None }
    ensures words { words_mean (texts words.now) ≡ None → result ≢ 4 → result ≢ 6 → result ≡ 2 }

    // 3, only where the count of the text rose; 4, only where that of `out` rose, and wherever it grew.
    ensures read_failed { result ≡ 3 → TextRose (words_mean (texts words.now)) (F.read_faults files.old) (F.read_faults files.new) }
    ensures put_failed { result ≡ 4 → Rose (O.faults out.old) (O.faults out.new) }
    ensures put_rises { O.faults out.old < O.faults out.new → result ≡ 4 }

    // 5, 7, 11, 12, 13, 14 and 15, by what the text holds; the clause `complete` says when they come.
    ensures too_long { result ≡ 5 → OfText (words_mean (texts words.now)) (F.content files.old) (λ command bytes. TooLongFor bytes (O.written out.old) (O.written out.new)) }
    ensures no_program { result ≡ 7 → OfText (words_mean (texts words.now)) (F.content files.old) (λ command bytes. NoProgramAt bytes (O.written out.old) (O.written out.new)) }
    ensures refused { result ≡ 11 → OfText (words_mean (texts words.now)) (F.content files.old) (λ command bytes. RefusedAt bytes (O.written out.old) (O.written out.new)) }
    ensures faults { result ≡ 12 → OfText (words_mean (texts words.now)) (F.content files.old) (λ command bytes. FaultyAt command bytes (O.written out.old) (O.written out.new)) }
    ensures no_store { result ≡ 13 → OfText (words_mean (texts words.now)) (F.content files.old) (λ command bytes. RanTo command bytes End.NoStore (O.written out.old) (O.written out.new)) }
    ensures overflow { result ≡ 14 → OfText (words_mean (texts words.now)) (F.content files.old) (λ command bytes. RanTo command bytes End.Overflow (O.written out.old) (O.written out.new)) }
    ensures steps_ended { result ≡ 15 → OfText (words_mean (texts words.now)) (F.content files.old) (λ command bytes. RanTo command bytes End.Spent (O.written out.old) (O.written out.new)) }

    // No name holds anything else afterwards.
    ensures unchanged { (name : List ℕ) → F.content files.new name ≡ F.content files.old name }

    // What is said: whole lines, for a cause; after 4 a part of them. Nothing goes before the line of 6, since a run wants no memory.
    ensures said { result ≢ 4 → Said (words_mean (texts words.now)) (F.content files.old) (F.read_faults files.old) (F.read_faults files.new) result (O.written out.old) (O.written out.new) }
    ensures cut { result ≡ 4 → SaidInPart (words_mean (texts words.now)) (F.content files.old) (F.read_faults files.old) (F.read_faults files.new) (O.written out.old) (O.written out.new) }
    ensures memory { result ≡ 6 → O.written out.new ≡ append_known (O.written out.old) (line_of Answer.Memory) }

    // What `verify` accepts is safe in every run, and what `run` says is the output of a run that is safe.
    ensures accepted { (name bytes : List ℕ) → words_mean (texts words.now) ≡ Some (Verify name) → F.content files.old name ≡ Some bytes
        → result ≡ 0 → AcceptedText bytes (O.written out.old) (O.written out.new) }
    ensures ran { (name bytes : List ℕ) (limits : Limits) (args : List Arg) → words_mean (texts words.now) ≡ Some (Run name limits args) → F.content files.old name ≡ Some bytes
        → IsEndOfRun result → Ran (Run name limits args) bytes result (O.written out.old) (O.written out.new) }

    // The status and the lines are those of the report, unless a call of the outside fails or memory runs out.
    ensures reported { (command : Meant) (bytes : List ℕ) (report : Report) → words_mean (texts words.now) ≡ Some command
        → F.content files.old (text_of command) ≡ Some bytes → Reports command bytes report → result ≢ 3 → result ≢ 4 → result ≢ 6
        → (result ≡ status_of report.answer) × (O.written out.new ≡ append_known (O.written out.old) (report_text report)) }
    ensures complete { (command : Meant) (bytes : List ℕ) (report : Report) → words_mean (texts words.now) ≡ Some command
        → F.content files.old (text_of command) ≡ Some bytes → Reports command bytes report
        → (Rose (F.read_faults files.old (text_of command)) (F.read_faults files.new (text_of command)) → ⊥)
        → (Rose (O.faults out.old) (O.faults out.new) → ⊥) → (result ≡ status_of report.answer) ⊎ (result ≡ 6) }

    // So `verify` answers 0 where the program is accepted, and 11 where it is refused.
    ensures accepts { (name bytes : List ℕ) (program : DtalProgram) → words_mean (texts words.now) ≡ Some (Verify name)
        → F.content files.old name ≡ Some bytes → IsText bytes program → Accepted program
        → (Rose (F.read_faults files.old name) (F.read_faults files.new name) → ⊥)
        → (Rose (O.faults out.old) (O.faults out.new) → ⊥) → (result ≡ 0) ⊎ (result ≡ 6) }
    ensures refuses { (name bytes : List ℕ) (program : DtalProgram) (at : Where) (rule : Rule) → words_mean (texts words.now) ≡ Some (Verify name)
        → F.content files.old name ≡ Some bytes → IsText bytes program → verified program ≡ Err (record { at = at; rule = rule })
        → (Rose (F.read_faults files.old name) (F.read_faults files.new name) → ⊥)
        → (Rose (O.faults out.old) (O.faults out.new) → ⊥) → (result ≡ 11) ⊎ (result ≡ 6) }
{
    // Cites the laws: a text spells no other program, and an accepted program runs safely.
    program_texts_are_read();
    accepted_programs_run_safely();
    execute(alloc, words, files, out)
}

/// Does what the words ask for, and says how it came out.
fn execute<F: Files, O: Sink>(alloc: Global, words: &[&str], files: &mut F, out: &mut O) -> u8
    ensures unchanged { (name : List ℕ) → F.content files.new name ≡ F.content files.old name }
    ensures went { Went (words_mean (texts words.now)) (F.content files.old) (F.read_faults files.old) (F.read_faults files.new)
        result (O.faults out.old) (O.faults out.new) (O.written out.old) (O.written out.new) }
{
    match read_command(alloc, words) {
        Ok(Command::Verify(text)) => say(out, verify_text(alloc, files, text)),
        Ok(Command::Run(request)) => run_text(
            alloc,
            files,
            out,
            request.name,
            request.limits,
            request.args.as_slice(),
        ),
        Err(WordsError::NoCommand) => say(out, Answer::NoCommand),
        Err(WordsError::Memory) => say(out, Answer::Memory),
    }
}

/// Runs the program of a text within limits on these arguments, and says how it came out.
fn run_text<F: Files, O: Sink>(
    alloc: Global,
    files: &mut F,
    out: &mut O,
    text: &str,
    limits: Limits,
    args: &[Arg],
) -> u8
    requires { IsWithin limits }
    ensures unchanged { (name : List ℕ) → F.content files.new name ≡ F.content files.old name }
    ensures went { Went (Some (Run text.now limits args.now)) (F.content files.old) (F.read_faults files.old) (F.read_faults files.new)
        result (O.faults out.old) (O.faults out.new) (O.written out.old) (O.written out.new) }
{
    match load_text(alloc, files, text, limits, args) {
        Ok(machine) => run_and_say(machine, out, limits.units),
        Err(answer) => say(out, answer),
    }
}

/// What is said of a text that is verified.
fn verify_text<F: Files>(alloc: Global, files: &mut F, text: &str) -> Answer
    ensures unchanged { (name : List ℕ) → F.content files.new name ≡ F.content files.old name }
    ensures caused { Cause (Some (Verify text.now)) (F.content files.old) (F.read_faults files.old) (F.read_faults files.new) (plain result) }
{
    match verified_program(alloc, files, text) {
        Ok(verified) => accepted_answer(verified.program()),
        Err(answer) => answer,
    }
}

/// The machine of a text, at the start of a run on these arguments, or the answer where there is none. It takes all memory of the run.
fn load_text<F: Files>(
    alloc: Global,
    files: &mut F,
    text: &str,
    limits: Limits,
    args: &[Arg],
) -> Result<Machine, Answer>
    requires { IsWithin limits }
    ensures unchanged { (name : List ℕ) → F.content files.new name ≡ F.content files.old name }
    ensures loaded { IfOk result (IsLoadedFrom text.now limits args.now (F.content files.old text.now)) }
    ensures caused { IfErr result (λ answer. Cause (Some (Run text.now limits args.now)) (F.content files.old) (F.read_faults files.old) (F.read_faults files.new) (plain answer)) }
{
    let verified = verified_program(alloc, files, text)?;
    load(alloc, verified.program(), limits, args)
}

/// Runs the machine, and says how the run came out. It takes no memory.
fn run_and_say<O: Sink>(machine: Machine, out: &mut O, steps: u64) -> u8
    requires live { IsLive machine.now }
    requires goes { (run_on machine steps []).how ≢ Stuck }
    ensures said { RunSaid steps (run_on machine steps []) result (O.faults out.old) (O.faults out.new) (O.written out.old) (O.written out.new) }
{
    match run(machine, out, steps) {
        Ok(end) => say(out, end.answer(steps)),
        Err(_fault) => CUT,
    }
}

/// Puts the answer's line, and gives its status, or 4 where the line was not put whole.
fn say<O: Sink>(out: &mut O, answer: Answer) -> u8
    ensures said { Says (plain answer) result (O.faults out.old) (O.faults out.new) (O.written out.old) (O.written out.new) }
{
    match put_line(out, answer) {
        Ok(()) => answer.status(),
        Err(_fault) => CUT,
    }
}
