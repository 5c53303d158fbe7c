ghost use Rattle.std.specs.Prelude.{◌≡◌, ◌≢◌, ℕ, List, None, Some, OnOk, OnErr, IfOk, option_copied};
ghost use Rattle.xan_io.specs.Contents.{ReadsAs};
ghost use Rattle.xan_io.specs.InMemory.{stored, told, SameFiles, SameOthers};

use crate::files::FileRead;
use crate::memory::Memory;
use std::alloc::Global;
use std::collections::BTreeMap;

/// Files in memory, by name.
#[derive(Drop)]
pub(crate) struct Store {
    alloc: Global,
    files: BTreeMap<String, Vec<u8>>,
}

impl Store {
    /// No files.
    pub(crate) fn new(alloc: Global) -> Store
        ensures { (name : List ℕ) → stored result name ≡ None }
    {
        Store {
            alloc,
            files: BTreeMap::new(alloc),
        }
    }

    /// Makes `bytes` the content of `name`.
    #[tactic(auto, using(std::proofs::lemmas::Map::Text::text_keys))]
    pub(crate) fn set(&mut self, name: &str, bytes: &[u8]) -> Result<(), Memory>
        ensures set { OnOk result (stored self.new name.now ≡ Some bytes.now) }
        ensures others { SameOthers self.old self.new name.now }
        ensures memory { OnErr result (SameFiles self.old self.new) }
    {
        let content = Vec::from_slice(self.alloc, bytes)?;
        let name = String::from_str(self.alloc, name)?;
        self.files.insert(name, content)?;
        Ok(())
    }

    /// The content of `name`, or `None` where there is no such file.
    pub(crate) fn content(&self, name: &str) -> Option<&[u8]>
        ensures { option_copied result ≡ stored self.now name.now }
    {
        let content = self.files.get(name)?;
        Some(content.as_slice())
    }

    /// What a read of `name` gives: where there is no such file, the empty content.
    pub(crate) fn read(&self, alloc: Global, name: &str, most: u64) -> Result<FileRead, Memory>
        ensures { IfOk result (ReadsAs (told self.now name.now) most) }
    {
        let content = self.content(name).unwrap_or(&[]);
        if content.len() as u64 > most {
            return Ok(FileRead::TooLong);
        }
        Ok(FileRead::Whole(Vec::from_slice(alloc, content)?))
    }
}
