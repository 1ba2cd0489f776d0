// Standard output and standard error as sinks.

ghost use Rattle.std.specs.Prelude.{◌≡◌, ◌≤◌, ◌<◌, length, None, IfOk};

use crate::fault_count::FaultCount;
use base::{Failed, Sink};
use std::io::Write;

/// A writer as a sink. It tells no content. What it takes is flushed at once; a write that takes
/// nothing of a piece is a fault.
#[derive(Drop)]
pub struct StdSink<W: Write + Drop> {
    writer: W,
    faults: FaultCount,
}

impl<W: Write + Drop> StdSink<W> {
    /// What goes to that writer; no call has failed yet.
    pub fn new(writer: W) -> StdSink<W>
        ensures { result.faults.raised ≡ 0 }
    {
        StdSink {
            writer,
            faults: FaultCount::new(),
        }
    }
}

impl<W: Write + Drop> Sink for StdSink<W> {
    ghost given = { λ _. None };

    ghost writes = { λ _. 0 };

    ghost faults = { λ s. s.faults.raised };

    fn write(&mut self, bytes: &[u8]) -> Result<usize, Failed> {
        match self.writer.write(bytes) {
            Ok(count) if count > 0 || bytes.is_empty() => match self.writer.flush() {
                Ok(()) => Ok(count),
                Err(_) => Err(self.faults.raise()),
            },
            _ => Err(self.faults.raise()),
        }
    }
}
