//! The command `eval`: a source whose goals are proved is run as it means.

ghost use Rattle.std.specs.Prelude.{◌≡◌, List, ℕ, IfOk, IfErr};
ghost use Rattle.command_reports.specs.Outside.{held, outside};
ghost use Rattle.command_reports.specs.Words.{most as most_of_run, Eval};
ghost use Rattle.run_options.specs.Options.{IsWithin};
ghost use Rattle.xanadu_driver.specs.Causes.{SourceCauses, Went};
ghost use Rattle.xanadu_driver.specs.Finding.{ProvesTold};
ghost use Rattle.xanadu_tree.specs.PlainOf.{plain_core};

use crate::translate::prove_source;
use command_reports::{Answer, Refusal, SourceError, say};
use header_elaborator::most;
use run_options::Limits;
use source_runs::run_source;
use std::alloc::Global;
use typed_core::Proved;
use xan_io::{Arg, FileFault, FileRead, Files, Sink};
use xan_lin::LimitKind;

/// Reads the source, runs it within limits on these arguments, and says how that came out.
pub fn eval<F: Files, O: Sink>(
    alloc: Global,
    files: &mut F,
    out: &mut O,
    source: &str,
    limits: Limits,
    args: &[Arg],
) -> u8
    requires { IsWithin most_of_run limits }
    ensures went { Went (Some (Eval source.now limits args.now)) (outside F.Files O.Sink files.old out.old) (outside F.Files O.Sink files.new out.new) result }
    ensures others { (name : List ℕ) → F.content files.new name ≡ F.content files.old name }
{
    match read_program(alloc, files, source) {
        Ok(program) => run_source(alloc, &program, limits, args, out),
        Err(answer) => say(out, &answer),
    }
}

/// Reads the source, and proves its goals.
fn read_program<F: Files>(alloc: Global, files: &mut F, source: &str) -> Result<Proved, Answer>
    ensures proved { IfOk result (λ program. ProvesTold (F.content files.old source.now) (plain_core program.base.core)) }
    ensures denied { IfErr result (SourceCauses source.now (held F.Files files.old) (held F.Files files.new)) }
    ensures others { (name : List ℕ) → F.content files.new name ≡ F.content files.old name }
{
    match files.read(alloc, source, most(LimitKind::Length)) {
        Ok(FileRead::Whole(bytes)) => match prove_source(alloc, bytes.as_slice()) {
            Ok(program) => Ok(program),
            Err(SourceError::Refused(refusal)) => Err(Answer::Refused(refusal)),
            Err(SourceError::Memory) => Err(Answer::Memory),
        },
        Ok(FileRead::TooLong) => Err(Answer::Refused(Refusal::Length)),
        Err(FileFault::Failed) => Err(Answer::ReadFailed),
        Err(FileFault::Memory) => Err(Answer::Memory),
    }
}
