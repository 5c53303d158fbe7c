use crate::files::{FileFault, FileRead, Files};
use crate::memory::Memory;
use crate::store::Store;
use std::alloc::Global;

/// Files in memory of which chosen calls fail.
///
/// Its reads and writes are counted together from 0, and those whose number is in a list fail. A read of a name that no file has
/// fails too. One number counts all faults. It and the number of calls stay at 18446744073709551615 once they stand there.
#[derive(Drop)]
pub struct MemFiles {
    store: Store,
    fails: Vec<u64>,
    calls: u64,
    faults: u64,
}

impl MemFiles {
    ghost use Rattle.std.specs.Prelude.{◌≡◌, ◌≢◌, ℕ, List, None, Some, OnOk, OnErr, option_copied};
    ghost use Rattle.xan_io.specs.InMemory.{stored, SameFiles, SameOthers};

    /// No files. The calls whose numbers are in `fails` will fail.
    pub fn new(alloc: Global, fails: Vec<u64>) -> MemFiles
        ensures empty { (name : List ℕ) → stored result.store name ≡ None }
        ensures fails { result.fails ≡ fails }
        ensures calls { result.calls ≡ 0 }
        ensures faults { result.faults ≡ 0 }
    {
        MemFiles {
            store: Store::new(alloc),
            fails,
            calls: 0,
            faults: 0,
        }
    }

    /// Makes `bytes` the content of `name`. It is not counted as a call.
    pub fn set(&mut self, name: &str, bytes: &[u8]) -> Result<(), Memory>
        ensures set { OnOk result (stored self.new.store name.now ≡ Some bytes.now) }
        ensures others { SameOthers self.old.store self.new.store name.now }
        ensures memory { OnErr result (SameFiles self.old.store self.new.store) }
        ensures fails { self.new.fails ≡ self.old.fails }
        ensures calls { self.new.calls ≡ self.old.calls }
        ensures faults { self.new.faults ≡ self.old.faults }
    {
        self.store.set(name, bytes)
    }

    /// The content of `name`, or `None` exactly where there is no such file.
    pub fn content(&self, name: &str) -> Option<&[u8]>
        ensures { option_copied result ≡ stored self.now.store name.now }
    {
        self.store.content(name)
    }
}

impl Files for MemFiles {
    ghost use Rattle.std.specs.Prelude.{
      ◌≡◌,
      ◌≢◌,
      ℕ,
      ◌≤◌,
      List,
      Some,
      IsTrue,
      IsFalse,
      ◌↔◌,
      OnOk,
      IfOk,
      IsErrOf,
    };
    ghost use Rattle.xan_io.specs.declared.files.TheConstants.{READ_MOST};
    ghost use Rattle.xan_io.specs.Contents.{ReadsAs};
    ghost use Rattle.xan_io.specs.Faults.{raised};
    ghost use Rattle.xan_io.specs.InMemory.{stored, told, SameFiles, SameOthers};
    ghost use Rattle.xan_io.specs.Listed.{is_listed, first_half, read_fails, faults_after};

    ghost content = { λ files. told files.store };

    ghost read_faults = { λ files _. files.faults };

    ghost write_faults = { λ files _. files.faults };

    /// Fails exactly where the call is listed or there is no such file.
    fn read(&mut self, alloc: Global, name: &str, most: u64) -> Result<FileRead, FileFault>
        requires { most ≤ READ_MOST }
        ensures read { IfOk result (ReadsAs (told self.old.store name.now) most) }
        ensures failed { IsErrOf result FileFault.Failed ↔ IsTrue (read_fails self.old name.now) }
        ensures unchanged { SameFiles self.old.store self.new.store }
        ensures faults { self.new.faults ≡ faults_after result self.old.faults }
        ensures never_falls { self.old.faults ≤ self.new.faults }
        ensures calls { self.new.calls ≡ raised self.old.calls }
        ensures fails { self.new.fails ≡ self.old.fails }
    {
        let fails = self.fails.contains(&self.calls) || self.store.content(name).is_none();
        self.calls = self.calls.saturating_add(1);
        if fails {
            self.faults = self.faults.saturating_add(1);
            return Err(FileFault::Failed);
        }
        Ok(self.store.read(alloc, name, most)?)
    }

    /// Fails exactly where the call is listed, unless memory runs out, and then leaves the first half of the bytes, rounded down.
    fn write(&mut self, _alloc: Global, name: &str, bytes: &[u8]) -> Result<(), FileFault>
        ensures written { OnOk result (stored self.new.store name.now ≡ Some bytes.now) }
        ensures others { SameOthers self.old.store self.new.store name.now }
        ensures listed { OnOk result (IsFalse (is_listed self.old.fails.items self.old.calls)) }
        ensures failed { IsErrOf result FileFault.Failed → IsTrue (is_listed self.old.fails.items self.old.calls) }
        ensures half { IsErrOf result FileFault.Failed → stored self.new.store name.now ≡ Some (first_half bytes.now) }
        ensures memory { IsErrOf result FileFault.Memory → SameFiles self.old.store self.new.store }
        ensures faults { self.new.faults ≡ faults_after result self.old.faults }
        ensures never_falls { self.old.faults ≤ self.new.faults }
        ensures calls { self.new.calls ≡ raised self.old.calls }
        ensures fails { self.new.fails ≡ self.old.fails }
    {
        let listed = self.fails.contains(&self.calls);
        self.calls = self.calls.saturating_add(1);
        if listed {
            self.store.set(name, &bytes[..bytes.len() / 2])?;
            self.faults = self.faults.saturating_add(1);
            return Err(FileFault::Failed);
        }
        Ok(self.store.set(name, bytes)?)
    }
}
