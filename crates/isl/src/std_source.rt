// Standard input as a source.

ghost use Rattle.std.specs.Prelude.{◌≡◌, None};

use crate::fault_count::FaultCount;
use base::{Failed, Source};
use std::io::Read;

/// A reader as a source. It tells no content.
#[derive(Drop)]
pub struct StdSource<R: Read + Drop> {
    reader: R,
    faults: FaultCount,
}

impl<R: Read + Drop> StdSource<R> {
    /// What that reader gives; no call has failed yet.
    pub fn new(reader: R) -> StdSource<R>
        ensures { result.faults.raised ≡ 0 }
    {
        StdSource {
            reader,
            faults: FaultCount::new(),
        }
    }
}

impl<R: Read + Drop> Source for StdSource<R> {
    ghost left = { λ _. None };

    ghost faults = { λ s. s.faults.raised };

    fn read(&mut self, buf: &mut [u8]) -> Result<usize, Failed> {
        match self.reader.read(buf) {
            Ok(count) => Ok(count),
            Err(_) => Err(self.faults.raise()),
        }
    }
}
