//! The command `build`: from the source of one name to the text of another.

ghost use Rattle.std.specs.Prelude.{◌≡◌, ◌≢◌, ◌≤◌, ℕ, List, Some, length};
ghost use Rattle.xan_io.specs.Faults.{Rose};
ghost use Rattle.command_reports.specs.declared.answer.Counts.{Counts};
ghost use Rattle.command_reports.specs.declared.refusal.Refusal.{Refusal};
ghost use Rattle.xanadu_driver.specs.Correct.{Wrote, Cut};
ghost use Rattle.command_reports.specs.Answers.{Keeps};
ghost use Rattle.xanadu_driver.specs.Source.{IsRefused, source_most};

use crate::translate::compile;
use command_reports::{Answer, Refusal, SourceError};
use header_elaborator::most;
use std::alloc::Global;
use xan_io::{FileFault, FileRead, Files};
use xan_lin::LimitKind;

/// Reads the source, and writes its text under the other name.
pub fn build<F: Files>(alloc: Global, files: &mut F, source: &str, target: &str) -> Answer
    ensures command { result ≢ Answer.NoCommand }
    ensures others { (name : List ℕ) → name ≢ target.now → F.content files.new name ≡ F.content files.old name }
    ensures read { result ≡ Answer.ReadFailed → Rose (F.read_faults files.old source.now) (F.read_faults files.new source.now) }
    ensures write { result ≡ Answer.WriteFailed → Rose (F.write_faults files.old target.now) (F.write_faults files.new target.now) }
    ensures refused { (refusal : Refusal) → result ≡ Answer.Refused refusal → (told : List ℕ) → F.content files.old source.now ≡ Some told → IsRefused told refusal }
    ensures kept { Keeps result → F.content files.new target.now ≡ F.content files.old target.now }
    ensures cut { result ≡ Answer.WriteFailed → (told : List ℕ) → F.content files.old source.now ≡ Some told → Cut told (F.content files.old target.now) (F.content files.new target.now) }
    ensures built { (counts : Counts) → result ≡ Answer.Built counts → (told : List ℕ) → F.content files.old source.now ≡ Some told → Wrote told counts (F.content files.old target.now) (F.content files.new target.now) }
{
    match files.read(alloc, source, most(LimitKind::Length)) {
        Ok(FileRead::Whole(bytes)) => build_bytes(alloc, files, bytes.as_slice(), target),
        Ok(FileRead::TooLong) => Answer::Refused(Refusal::Length),
        Err(FileFault::Failed) => Answer::ReadFailed,
        Err(FileFault::Memory) => Answer::Memory,
    }
}

/// Writes the text of the source.
fn build_bytes<F: Files>(alloc: Global, files: &mut F, source: &[u8], target: &str) -> Answer
    requires { length source.now ≤ source_most }
    ensures command { result ≢ Answer.NoCommand }
    ensures read { result ≢ Answer.ReadFailed }
    ensures others { (name : List ℕ) → name ≢ target.now → F.content files.new name ≡ F.content files.old name }
    ensures write { result ≡ Answer.WriteFailed → Rose (F.write_faults files.old target.now) (F.write_faults files.new target.now) }
    ensures refused { (refusal : Refusal) → result ≡ Answer.Refused refusal → IsRefused source.now refusal }
    ensures kept { Keeps result → F.content files.new target.now ≡ F.content files.old target.now }
    ensures cut { result ≡ Answer.WriteFailed → Cut source.now (F.content files.old target.now) (F.content files.new target.now) }
    ensures built { (counts : Counts) → result ≡ Answer.Built counts → Wrote source.now counts (F.content files.old target.now) (F.content files.new target.now) }
{
    match compile(alloc, source) {
        Ok(text) => match files.write(alloc, target, text.bytes.as_slice()) {
            Ok(()) => Answer::Built(text.counts),
            Err(FileFault::Failed) => Answer::WriteFailed,
            Err(FileFault::Memory) => Answer::Memory,
        },
        Err(SourceError::Refused(refusal)) => Answer::Refused(refusal),
        Err(SourceError::Memory) => Answer::Memory,
    }
}
