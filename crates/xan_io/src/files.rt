use crate::memory::Memory;
use std::alloc::Global;

/// The most bytes that a read may ask for.
pub const READ_MOST: u64 = 1_099_511_627_776;

/// What a read gives.
#[derive(Drop)]
pub enum FileRead {
    /// The whole content.
    Whole(Vec<u8>),
    /// The content is longer than the caller would take.
    TooLong,
}

/// Why a file was not read or written.
#[derive(Clone, Copy)]
pub enum FileFault {
    /// The read or the write failed, and the count of faults of this name rose.
    Failed,
    /// Memory ran out, and nothing has changed.
    Memory,
}

impl From<Memory> for FileFault {
    ghost use Rattle.std.specs.Prelude.{◌≡◌};
    ghost use Rattle.xan_io.specs.declared.files.FileFault.TheVariants as fault;

    ghost from_gives = { λ _ e. e ≡ fault.Memory };

    fn from(_memory: Memory) -> FileFault {
        FileFault::Memory
    }
}

/// Files by name. An implementation tells what they hold, or tells nothing of it.
///
/// For each name it counts the faults of its reads, and those of its writes. No count ever falls. A count is kept in 64 bits, and
/// one that stands at 18446744073709551615 stays there.
pub trait Files {
    ghost use Rattle.std.specs.Prelude.{
      ◌≡◌,
      ◌≢◌,
      ℕ,
      ◌≤◌,
      List,
      Option,
      OnOk,
      IfOk,
      IsErrOf,
    };
    ghost use Rattle.xan_io.specs.declared.files.TheConstants.{READ_MOST};
    ghost use Rattle.xan_io.specs.Faults.{Rose, SameCounts, NoneFalls};
    ghost use Rattle.xan_io.specs.Contents.{ReadsAs, LeavesPrefix, replaced};

    /// What each name holds, where that is told. A name that no file has holds no bytes.
    ghost content: { Self → List ℕ → Option (List ℕ) };

    /// How many reads of each name have failed.
    ghost read_faults: { Self → List ℕ → ℕ };

    /// How many writes of each name have failed.
    ghost write_faults: { Self → List ℕ → ℕ };

    /// The content of `name`, placed by `alloc`, if it has at most `most` bytes. No content changes.
    fn read(&mut self, alloc: Global, name: &str, most: u64) -> Result<FileRead, FileFault>
        requires { most ≤ READ_MOST }
        ensures read { IfOk result (ReadsAs (content self.old name.now) most) }
        ensures unchanged { (other : List ℕ) → content self.new other ≡ content self.old other }
        ensures failed { IsErrOf result FileFault.Failed → Rose (read_faults self.old name.now) (read_faults self.new name.now) }
        ensures reads { NoneFalls (read_faults self.old) (read_faults self.new) }
        ensures writes { NoneFalls (write_faults self.old) (write_faults self.new) }
        ensures ok_counts { OnOk result (SameCounts (read_faults self.old) (read_faults self.new) × SameCounts (write_faults self.old) (write_faults self.new)) }
        ensures memory_counts { IsErrOf result FileFault.Memory → SameCounts (read_faults self.old) (read_faults self.new) × SameCounts (write_faults self.old) (write_faults self.new) };

    /// Makes `bytes` the content of `name`, which may be new. After `Failed` the name holds what it held or a prefix of the bytes,
    /// and after `Memory` nothing has changed. No other name changes.
    fn write(&mut self, alloc: Global, name: &str, bytes: &[u8]) -> Result<(), FileFault>
        ensures written { OnOk result (content self.new name.now ≡ replaced (content self.old name.now) bytes.now) }
        ensures others { (other : List ℕ) → other ≢ name.now → content self.new other ≡ content self.old other }
        ensures failed { IsErrOf result FileFault.Failed → Rose (write_faults self.old name.now) (write_faults self.new name.now) }
        ensures left { IsErrOf result FileFault.Failed → LeavesPrefix (content self.old name.now) (content self.new name.now) bytes.now }
        ensures memory { IsErrOf result FileFault.Memory → (other : List ℕ) → content self.new other ≡ content self.old other }
        ensures reads { NoneFalls (read_faults self.old) (read_faults self.new) }
        ensures writes { NoneFalls (write_faults self.old) (write_faults self.new) }
        ensures ok_counts { OnOk result (SameCounts (read_faults self.old) (read_faults self.new) × SameCounts (write_faults self.old) (write_faults self.new)) }
        ensures memory_counts { IsErrOf result FileFault.Memory → SameCounts (read_faults self.old) (read_faults self.new) × SameCounts (write_faults self.old) (write_faults self.new) };
}
