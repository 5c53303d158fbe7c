ghost use Rattle.std.specs.Prelude.{◌≡◌};

use crate::sink::{Sink, SinkFault};
use std::io;
use std::io::Write;

/// The standard output of the host. It does not tell what was written.
///
/// A number counts its faults: it rises at each error of the host, also where the host takes nothing of a piece that is not empty,
/// and stays at 18446744073709551615 once it stands there.
#[derive(Drop)]
pub struct HostSink<'a, R> {
    rt: &'a R,
    faults: u64,
}

impl<'a, R: Print> HostSink<'a, R> {
    /// The standard output of `rt`.
    pub fn new(rt: &'a R) -> HostSink<'a, R>
        ensures { result.faults ≡ 0 }
    {
        HostSink { rt, faults: 0 }
    }
}

impl<R: Print> Sink for HostSink<'_, R> {
    ghost use Rattle.std.specs.Prelude.{None};

    ghost written = { λ _. None };

    ghost faults = { λ sink. sink.faults };

    /// An error where the host answered one, or took nothing of what was left to write.
    fn put(&mut self, bytes: &[u8]) -> Result<(), SinkFault> {
        match io::writer(self.rt).write_all(bytes) {
            Ok(()) => Ok(()),
            Err(_) => {
                self.faults = self.faults.saturating_add(1);
                Err(SinkFault)
            }
        }
    }
}
