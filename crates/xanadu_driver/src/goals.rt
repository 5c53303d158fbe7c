//! The command `goals`: the goals of a source, each with what the elimination answers.

ghost use Rattle.std.specs.Prelude.{◌≡◌, ◌≤◌, List, ℕ, length, IfOk};
ghost use Rattle.xanadu_driver.specs.Causes.{GoalsCauses};
ghost use Rattle.command_reports.specs.Listing.{HasRoom, found_of};
ghost use Rattle.xanadu_driver.specs.Finding.{Finds};
ghost use Rattle.xanadu_driver.specs.Source.{source_most};
ghost use Rattle.command_reports.specs.Outside.{held};

use crate::translate::elaborate_source;
use command_reports::{Answer, Listing, Refusal, SourceError, Workspace};
use header_elaborator::most;
use std::alloc::Global;
use xan_io::{FileFault, FileRead, Files};
use xan_lin::LimitKind;

/// Reads the source, and makes its goals.
pub fn goals<F: Files>(alloc: Global, files: &mut F, source: &str) -> Result<Listing, Answer>
    ensures caused { GoalsCauses source.now (held F.Files files.old) (held F.Files files.new) (found_of result) }
    ensures others { (name : List ℕ) → F.content files.new name ≡ F.content files.old name }
    ensures room { IfOk result HasRoom }
{
    match files.read(alloc, source, most(LimitKind::Length)) {
        Ok(FileRead::Whole(bytes)) => match list_goals(alloc, bytes.as_slice()) {
            Ok(listing) => Ok(listing),
            Err(SourceError::Refused(refusal)) => Err(Answer::Refused(refusal)),
            Err(SourceError::Memory) => Err(Answer::Memory),
        },
        Ok(FileRead::TooLong) => Err(Answer::Refused(Refusal::Length)),
        Err(FileFault::Failed) => Err(Answer::ReadFailed),
        Err(FileFault::Memory) => Err(Answer::Memory),
    }
}

/// The goals of the source, with what it takes to answer them.
fn list_goals(alloc: Global, source: &[u8]) -> Result<Listing, SourceError>
    requires { length source.now ≤ source_most }
    ensures found { Finds source.now result }
    ensures room { IfOk result HasRoom }
{
    let base = elaborate_source(alloc, source)?;
    let work = Workspace::new(alloc)?;
    Ok(Listing { base, work })
}
