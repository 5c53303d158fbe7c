/// The bytes were not all written, and the sink's count of faults rose.
#[derive(Clone, Copy)]
pub struct SinkFault;

/// Where output goes. An implementation tells what was written so far, or tells nothing of it.
///
/// It counts its faults, and its count never falls. The count is kept in 64 bits, and one that stands at 18446744073709551615 stays
/// there.
pub trait Sink {
    ghost use Rattle.std.specs.Prelude.{◌≡◌, ℕ, ◌≤◌, List, Option, OnOk, OnErr};
    ghost use Rattle.std.specs.Io.KnownBytes.{append_known};
    ghost use Rattle.xan_io.specs.Faults.{Rose};
    ghost use Rattle.xan_io.specs.Written.{AppendsPrefix};

    /// The bytes that were written so far, where they are told.
    ghost written: { Self → Option (List ℕ) };

    /// How many calls have failed.
    ghost faults: { Self → ℕ };

    /// Writes `bytes` behind what was written, without memory. An `Err` has written a prefix of them.
    fn put(&mut self, bytes: &[u8]) -> Result<(), SinkFault>
        ensures appended { OnOk result (written self.new ≡ append_known (written self.old) bytes.now) }
        ensures counted { OnOk result (faults self.new ≡ faults self.old) }
        ensures prefix { OnErr result (AppendsPrefix (written self.old) (written self.new) bytes.now) }
        ensures failed { OnErr result (Rose (faults self.old) (faults self.new)) }
        ensures never_falls { faults self.old ≤ faults self.new };
}
