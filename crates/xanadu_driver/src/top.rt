//! The whole program: words in, a status out.

ghost use Rattle.std.specs.Prelude.{◌≡◌, ◌≢◌, ◌⊎◌, ℕ, List, Some};
ghost use Rattle.xanadu_driver.specs.Causes.{Went, Writes, NothingFailed};
ghost use Rattle.command_reports.specs.Said.{IsReported};
ghost use Rattle.command_reports.specs.Outside.{outside};
ghost use Rattle.command_reports.specs.Report.{Report};
ghost use Rattle.xanadu_driver.specs.Reported.{report};
ghost use Rattle.command_reports.specs.Words.{commanded, Goals};

use crate::build::build;
use crate::eval::eval;
use crate::goals::goals;
use command_reports::{Answer, Command, list, read_command, say};
use run_options::WordsError;
use std::alloc::Global;
use xan_io::{Files, Sink};

/// Does what the words ask for, says how it came out on `out`, and answers the status to end with.
///
/// The words are those behind the program's own name. The statuses are 0 (built, all goals are proved, or a number is returned), 2 (the words are
/// no command),
/// 3 (the source was not read), 4 (the text or a line was not written), 5 (a limit is passed), 6 (memory), 7 (the source has no tokens),
/// 8 (it has no tree), 9 (its shape has a fault), 10 (a goal is not proved), and of a run 12 (a fault of the arguments), 13 (the store or the
/// activations do not suffice), 14 (a result does not fit a word) and 15 (the units of fuel do not suffice).
pub fn xanadu_top<F: Files, O: Sink>(
    alloc: Global,
    words: &[&str],
    files: &mut F,
    out: &mut O,
) -> u8
    // An answer came for a cause, and its lines were put, and its status given. After a fault of `out` a part of these was put, and the
    // status is 4.
    ensures went { Went (commanded words.now) (outside F.Files O.Sink files.old out.old) (outside F.Files O.Sink files.new out.new) result }

    // No name changes but the target; the cause says what this holds.
    ensures others { (name : List ℕ) → (Writes (commanded words.now) name → ⊥) → F.content files.new name ≡ F.content files.old name }

    // The status and the lines are those of the report of a told source, but at 3, 4 and 6.
    ensures reported { (reported : Report) → report (commanded words.now) (F.content files.old) ≡ Some reported
        → result ≢ 3 → result ≢ 4 → result ≢ 6 → IsReported reported result (O.written out.old) (O.written out.new) }

    // And they are so where nothing failed, unless memory ran out.
    ensures complete { (reported : Report) → report (commanded words.now) (F.content files.old) ≡ Some reported
        → NothingFailed (commanded words.now) (outside F.Files O.Sink files.old out.old) (outside F.Files O.Sink files.new out.new)
        → (result ≡ reported.status) ⊎ (result ≡ 6) }
{
    execute(alloc, words, files, out)
}

/// Does what the words ask for, and says how it came out.
fn execute<F: Files, O: Sink>(alloc: Global, words: &[&str], files: &mut F, out: &mut O) -> u8
    ensures went { Went (commanded words.now) (outside F.Files O.Sink files.old out.old) (outside F.Files O.Sink files.new out.new) result }
    ensures others { (name : List ℕ) → (Writes (commanded words.now) name → ⊥) → F.content files.new name ≡ F.content files.old name }
{
    match read_command(alloc, words) {
        Ok(Command::Build { source, target }) => say(out, &build(alloc, files, source, target)),
        Ok(Command::Goals(source)) => list_goals(alloc, files, out, source),
        Ok(Command::Eval(request)) => eval(
            alloc,
            files,
            out,
            request.name,
            request.limits,
            request.args.as_slice(),
        ),
        Err(WordsError::NoCommand) => say(out, &Answer::NoCommand),
        Err(WordsError::Memory) => say(out, &Answer::Memory),
    }
}

/// Lists the goals of the source.
fn list_goals<F: Files, O: Sink>(alloc: Global, files: &mut F, out: &mut O, source: &str) -> u8
    ensures went { Went (Some (Goals source.now)) (outside F.Files O.Sink files.old out.old) (outside F.Files O.Sink files.new out.new) result }
    ensures others { (name : List ℕ) → F.content files.new name ≡ F.content files.old name }
{
    match goals(alloc, files, source) {
        Ok(listing) => list(out, listing),
        Err(answer) => say(out, &answer),
    }
}
