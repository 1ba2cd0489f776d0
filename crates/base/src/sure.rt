// An outside in memory that never fails.

ghost use Rattle.std.specs.Prelude.{◌≡◌, ◌≤◌, length, drop, min, IfOk, IfSome};
ghost use Rattle.base.specs.Outside.{TakesFront, Took};

use crate::faults::{Failed, NoMemory};
use crate::fixed_buffer::FixedBuffer;
use crate::fronts::{from_place, put_front};
use crate::lists::Bytes;
use crate::outside::{Shelf, Sink, Source};
use std::alloc::Global;
use std::marker::Model;

/// A source of bytes that never fails. Contracts see it as the bytes that are left.
#[derive(Drop)]
pub struct SureSource {
    bytes: Bytes,
    at: usize,
}

impl Model for SureSource {
    ghost use Rattle.std.specs.Prelude.{◌≤◌, ℕ, List, length, drop};

    ghost Value = { List ℕ };

    ghost view = { λ s. drop s.at s.bytes };

    ghost invariant = { λ s. s.at ≤ length s.bytes };
}

impl SureSource {
    /// A source with all these bytes left.
    pub fn new(bytes: Bytes) -> SureSource
        ensures { result ≡ bytes }
    {
        SureSource { bytes, at: 0 }
    }
}

impl Source for SureSource {
    ghost use Rattle.std.specs.Prelude.{Some};

    ghost left = { λ rest. Some rest };

    ghost faults = { λ _. 0 };

    /// Puts as many bytes as there are, or as `buf` has room for.
    fn read(&mut self, buf: &mut [u8]) -> Result<usize, Failed>
        ensures sure { result ≡ Ok (min (length self.old) (length buf.old)) }
        ensures told { IfOk result (λ n. TakesFront self.old n buf.old buf.new) }
        ensures after { IfOk result (λ n. self.new ≡ drop n self.old) }
    {
        let count = put_front(&self.bytes.as_slice()[self.at..], buf);
        self.at += count;
        Ok(count)
    }
}

/// A sink that takes all bytes and keeps the first ones, so many as it has room for. It tells
/// what it was given until that is more.
#[derive(Drop)]
pub struct SureSink {
    kept: FixedBuffer,
    over: bool,
}

impl Model for SureSink {
    ghost use Rattle.base.specs.Sure.{SureSinkState};

    ghost Value = { SureSinkState };

    ghost view = { λ s. record {
      kept = s.kept.bytes;
      capacity = s.kept.capacity;
      over = s.over;
      writes = s.kept.writes;
    } };
}

impl SureSink {
    ghost use Rattle.base.specs.Sure.{empty_sure_sink};

    /// An empty sink that keeps `capacity` bytes, with the memory for them taken at once.
    pub fn new(alloc: Global, capacity: usize) -> Result<SureSink, NoMemory>
        ensures { IfOk result (λ sink. sink ≡ empty_sure_sink capacity) }
    {
        let kept = FixedBuffer::new(alloc, capacity)?;
        Ok(SureSink { kept, over: false })
    }

    /// The first bytes that it was given: never more than it keeps, and at least one for each
    /// call that is counted.
    pub fn bytes(&self) -> &[u8]
        ensures bytes { result.now ≡ self.now.kept }
        ensures within { length self.now.kept ≤ self.now.capacity }
        ensures writes { self.now.writes ≤ length self.now.kept }
    {
        self.kept.bytes()
    }
}

impl Sink for SureSink {
    ghost use Rattle.base.specs.Sure.{sure_sink_took, told_unless_over};

    ghost given = { told_unless_over };

    ghost writes = { λ s. s.writes };

    ghost faults = { λ _. 0 };

    /// Takes all the bytes.
    fn write(&mut self, bytes: &[u8]) -> Result<usize, Failed>
        ensures told { IfSome (told_unless_over self.new) (λ after.
            Took (told_unless_over self.old) self.old.writes (length bytes.now) bytes.now
            after self.new.writes) }
        ensures sure { result ≡ Ok (length bytes.now) }
        ensures after { self.new ≡ sure_sink_took self.old bytes.now }
    {
        let count = self.kept.put(bytes);
        if count < bytes.len() {
            self.over = true;
        }
        Ok(bytes.len())
    }
}

/// A shelf that never fails. Contracts see it as its bytes, which it holds under every name.
#[derive(Drop)]
pub struct SureShelf {
    file: Bytes,
}

impl Model for SureShelf {
    ghost use Rattle.std.specs.Prelude.{ℕ, List};

    ghost Value = { List ℕ };

    ghost view = { λ s. s.file };
}

impl SureShelf {
    /// A shelf with these bytes under every name.
    pub fn new(bytes: Bytes) -> SureShelf
        ensures { result ≡ bytes }
    {
        SureShelf { file: bytes }
    }
}

impl Shelf for SureShelf {
    ghost use Rattle.std.specs.Prelude.{Some};

    ghost holds = { λ file _. Some file };

    ghost faults = { λ _. 0 };

    /// Puts as many bytes from place `at` on as there are, or as `buf` has room for.
    fn read(&mut self, _name: &str, at: u64, buf: &mut [u8]) -> Result<usize, Failed>
        ensures sure { result ≡ Ok (min (length (drop at self.old)) (length buf.old)) }
        ensures told { IfOk result (λ n. TakesFront (drop at self.old) n buf.old buf.new) }
        ensures same { self.new ≡ self.old }
    {
        Ok(put_front(from_place(self.file.as_slice(), at), buf))
    }
}
