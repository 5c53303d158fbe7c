use crate::files::{FileFault, FileRead, Files};
use crate::memory::Memory;
use crate::store::Store;
use std::alloc::Global;

/// Files in memory whose reads and writes never fail. A read of a name that no file has gives no bytes.
#[derive(Drop)]
pub struct SafeFiles {
    store: Store,
}

impl SafeFiles {
    ghost use Rattle.std.specs.Prelude.{◌≡◌, ◌≢◌, ℕ, List, None, Some, OnOk, OnErr, option_copied};
    ghost use Rattle.xan_io.specs.InMemory.{stored, SameFiles, SameOthers};

    /// No files.
    pub fn new(alloc: Global) -> SafeFiles
        ensures { (name : List ℕ) → stored result.store name ≡ None }
    {
        SafeFiles {
            store: Store::new(alloc),
        }
    }

    /// Makes `bytes` the content of `name`.
    pub fn set(&mut self, name: &str, bytes: &[u8]) -> Result<(), Memory>
        ensures set { OnOk result (stored self.new.store name.now ≡ Some bytes.now) }
        ensures others { SameOthers self.old.store self.new.store name.now }
        ensures memory { OnErr result (SameFiles self.old.store self.new.store) }
    {
        self.store.set(name, bytes)
    }

    /// The content of `name`, or `None` exactly where there is no such file.
    pub fn content(&self, name: &str) -> Option<&[u8]>
        ensures { option_copied result ≡ stored self.now.store name.now }
    {
        self.store.content(name)
    }
}

impl Files for SafeFiles {
    ghost use Rattle.std.specs.Prelude.{
      ◌≡◌,
      ◌≢◌,
      ℕ,
      ◌≤◌,
      List,
      Some,
      OnOk,
      IfOk,
      IfErr,
      OnErr,
    };
    ghost use Rattle.xan_io.specs.declared.files.TheConstants.{READ_MOST};
    ghost use Rattle.xan_io.specs.Contents.{ReadsAs};
    ghost use Rattle.xan_io.specs.InMemory.{stored, told, SameFiles, SameOthers};

    ghost content = { λ files. told files.store };

    ghost read_faults = { λ _ _. 0 };

    ghost write_faults = { λ _ _. 0 };

    /// Never fails.
    fn read(&mut self, alloc: Global, name: &str, most: u64) -> Result<FileRead, FileFault>
        requires { most ≤ READ_MOST }
        ensures read { IfOk result (ReadsAs (told self.old.store name.now) most) }
        ensures memory { IfErr result (λ fault. fault ≡ FileFault.Memory) }
        ensures unchanged { SameFiles self.old.store self.new.store }
    {
        Ok(self.store.read(alloc, name, most)?)
    }

    /// Never fails.
    fn write(&mut self, _alloc: Global, name: &str, bytes: &[u8]) -> Result<(), FileFault>
        ensures written { OnOk result (stored self.new.store name.now ≡ Some bytes.now) }
        ensures others { SameOthers self.old.store self.new.store name.now }
        ensures memory { IfErr result (λ fault. fault ≡ FileFault.Memory) }
        ensures unchanged { OnErr result (SameFiles self.old.store self.new.store) }
    {
        Ok(self.store.set(name, bytes)?)
    }
}
