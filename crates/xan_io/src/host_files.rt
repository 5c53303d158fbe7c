ghost use Rattle.std.specs.Prelude.{◌≡◌, ◌≤◌, None, IfOk};
ghost use Rattle.xan_io.specs.declared.files.TheConstants.{READ_MOST};
ghost use Rattle.xan_io.specs.Contents.{ReadsAs};

use crate::files::{FileFault, FileRead, Files};
use std::alloc::Global;
use std::io::{ErrorKind, Read};
use std::{fs, io, rt};

/// The files of the host. It does not tell what they hold.
///
/// One number counts all faults: it rises at each error of the host, also where the host takes nothing of a piece that is not empty,
/// and stays at 18446744073709551615 once it stands there. A read for which memory ran out is no such error.
#[derive(Drop)]
pub struct HostFiles<'a, R> {
    rt: &'a R,
    faults: u64,
}

impl<'a, R: rt::Files> HostFiles<'a, R> {
    /// The files that `rt` reaches.
    pub fn new(rt: &'a R) -> HostFiles<'a, R>
        ensures { result.faults ≡ 0 }
    {
        HostFiles { rt, faults: 0 }
    }
}

/// Reads the file of this name to its end, or until it has given `most` + 1 bytes.
fn read_up_to<R: rt::Files>(
    rt: &R,
    alloc: Global,
    name: &str,
    most: u64,
) -> Result<FileRead, io::Error>
    requires { most ≤ READ_MOST }
    ensures { IfOk result (ReadsAs None most) }
{
    let mut bytes = Vec::new(alloc);
    fs::open(rt, name)?.take(most + 1).read_to_end(&mut bytes)?;
    if bytes.len() as u64 > most {
        return Ok(FileRead::TooLong);
    }
    Ok(FileRead::Whole(bytes))
}

/// Running out of memory is no fault of the file: nothing was changed, and the caller may free some and read again.
fn fault_of_read(error: io::Error) -> FileFault {
    match error.kind() {
        ErrorKind::OutOfMemory => FileFault::Memory,
        _ => FileFault::Failed,
    }
}

impl<R: rt::Files> Files for HostFiles<'_, R> {
    ghost use Rattle.std.specs.Prelude.{None};

    ghost content = { λ _ _. None };

    ghost read_faults = { λ files _. files.faults };

    ghost write_faults = { λ files _. files.faults };

    /// `Failed` where the host answered an error, unless memory ran out.
    fn read(&mut self, alloc: Global, name: &str, most: u64) -> Result<FileRead, FileFault> {
        let outcome = read_up_to(self.rt, alloc, name, most).map_err(fault_of_read);
        if let Err(FileFault::Failed) = outcome {
            self.faults = self.faults.saturating_add(1);
        }
        outcome
    }

    /// `Failed` where the host answered an error, or took nothing of what was left to write.
    fn write(&mut self, _alloc: Global, name: &str, bytes: &[u8]) -> Result<(), FileFault> {
        match fs::write(self.rt, name, bytes) {
            Ok(()) => Ok(()),
            Err(_) => {
                self.faults = self.faults.saturating_add(1);
                Err(FileFault::Failed)
            }
        }
    }
}
