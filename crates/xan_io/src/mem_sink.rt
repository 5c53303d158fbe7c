ghost use Rattle.std.specs.Prelude.{◌≡◌, ◌+◌, ◌≤◌, ◌++◌, length, vec_len, vec_capacity};

use crate::memory::Memory;
use crate::sink::{Sink, SinkFault};
use std::alloc::Global;

/// A sink in memory of bounded room, of which chosen calls fail.
///
/// Its calls are counted from 0. A call whose number is in a list fails, and so does one whose bytes do not fit into the room. The
/// numbers of calls and of faults stay at 18446744073709551615 once they stand there.
#[derive(Drop)]
pub struct MemSink {
    bytes: Vec<u8>,
    room: u64,
    fails: Vec<u64>,
    calls: u64,
    faults: u64,
    ghost within: { vec_len bytes ≤ room },
    ghost taken: { room ≤ vec_capacity bytes },
}

impl MemSink {
    ghost use Rattle.std.specs.Prelude.{◌≡◌, [], IfOk};

    /// An empty sink with room for so many bytes, which takes its memory here. The calls whose numbers are in `fails` will fail.
    pub fn new(alloc: Global, room: u64, fails: Vec<u64>) -> Result<MemSink, Memory>
        ensures empty { IfOk result (λ sink. sink.bytes.items ≡ []) }
        ensures room { IfOk result (λ sink. sink.room ≡ room) }
        ensures fails { IfOk result (λ sink. sink.fails ≡ fails) }
        ensures calls { IfOk result (λ sink. sink.calls ≡ 0) }
        ensures faults { IfOk result (λ sink. sink.faults ≡ 0) }
    {
        Ok(MemSink {
            bytes: Vec::with_capacity(alloc, room as usize)?,
            room,
            fails,
            calls: 0,
            faults: 0,
        })
    }

    /// The bytes so far.
    pub fn bytes(&self) -> &[u8]
        ensures { result.now ≡ self.now.bytes.items }
    {
        self.bytes.as_slice()
    }
}

/// Appends the bytes, which fit into the capacity.
fn append(to: &mut Vec<u8>, bytes: &[u8])
    requires { vec_len to.old + length bytes.now ≤ vec_capacity to.old }
    ensures items { to.new.items ≡ to.old.items ++ bytes.now }
    ensures capacity { vec_capacity to.old ≤ vec_capacity to.new }
{
    let Ok(()) = to.extend_from_slice(bytes) else {
        unreachable!()
    };
}

impl Sink for MemSink {
    ghost use Rattle.std.specs.Prelude.{
      ◌≡◌,
      ◌+◌,
      ◌≤◌,
      ◌++◌,
      Some,
      IsErr,
      IsTrue,
      ◌↔◌,
      OnOk,
      OnErr,
    };
    ghost use Rattle.xan_io.specs.Faults.{raised};
    ghost use Rattle.xan_io.specs.ListedPuts.{put_fails, cut};

    ghost written = { λ sink. Some sink.bytes.items };

    ghost faults = { λ sink. sink.faults };

    /// Fails exactly where the call is listed or the bytes do not fit. It then appends the first half of them, rounded down, as far as
    /// it fits.
    fn put(&mut self, bytes: &[u8]) -> Result<(), SinkFault>
        ensures failed { IsErr result ↔ IsTrue (put_fails self.old bytes.now) }
        ensures appended { OnOk result (self.new.bytes.items ≡ self.old.bytes.items ++ bytes.now) }
        ensures cut { OnErr result (self.new.bytes.items ≡ self.old.bytes.items ++ cut self.old bytes.now) }
        ensures counted { OnOk result (self.new.faults ≡ self.old.faults) }
        ensures raised { OnErr result (self.new.faults ≡ raised self.old.faults) }
        ensures never_falls { self.old.faults ≤ self.new.faults }
        ensures calls { self.new.calls ≡ raised self.old.calls }
        ensures room { self.new.room ≡ self.old.room }
        ensures fails { self.new.fails ≡ self.old.fails }
    {
        let left = self.room as usize - self.bytes.len();
        let fails = self.fails.contains(&self.calls) || bytes.len() > left;
        self.calls = self.calls.saturating_add(1);
        if fails {
            append(&mut self.bytes, &bytes[..left.min(bytes.len() / 2)]);
            self.faults = self.faults.saturating_add(1);
            return Err(SinkFault);
        }
        append(&mut self.bytes, bytes);
        Ok(())
    }
}
