// A sink in memory with room for so many bytes, whose listed calls fail.

ghost use Rattle.std.specs.Prelude.{◌≡◌, ◌≤◌, ◌<◌, ◌-◌, ◌↔◌, ◌⊎◌, length, min, Some, IfOk, IsErr, OnErr, MatchResult};
ghost use Rattle.base.specs.Outside.{Rose, Took};
ghost use Rattle.base.specs.Calls.{NextFails};

use crate::calls::Calls;
use crate::faults::{Failed, NoMemory};
use crate::fixed_buffer::FixedBuffer;
use crate::lists::CallList;
use crate::outside::Sink;
use std::alloc::Global;
use std::marker::Model;

/// A sink of bytes in memory. It always tells what it was given; a listed call fails, and so does
/// one that finds it full.
#[derive(Drop)]
pub struct MemSink {
    kept: FixedBuffer,
    calls: Calls,
}

impl Model for MemSink {
    ghost use Rattle.base.specs.Memory.{SinkState};

    ghost Value = { SinkState };

    ghost view = { λ s. record {
      kept = s.kept.bytes;
      capacity = s.kept.capacity;
      writes = s.kept.writes;
      calls = s.calls;
    } };
}

impl MemSink {
    ghost use Rattle.base.specs.Memory.{empty_sink};

    /// An empty sink with room for `capacity` bytes, taken at once, whose calls of these numbers
    /// fail.
    pub fn new(alloc: Global, capacity: usize, fails: CallList) -> Result<MemSink, NoMemory>
        ensures { IfOk result (λ sink. sink ≡ empty_sink capacity fails) }
    {
        let kept = FixedBuffer::new(alloc, capacity)?;
        Ok(MemSink {
            kept,
            calls: Calls::new(fails),
        })
    }

    /// The bytes that it was given: never more than it has room for, and at least one for each
    /// call that took bytes.
    pub fn bytes(&self) -> &[u8]
        ensures bytes { result.now ≡ self.now.kept }
        ensures within { length self.now.kept ≤ self.now.capacity }
        ensures writes { self.now.writes ≤ length self.now.kept }
    {
        self.kept.bytes()
    }
}

impl Sink for MemSink {
    ghost use Rattle.std.specs.Prelude.{Some};
    ghost use Rattle.base.specs.Memory.{IsFullFor, sink_took, sink_failed};

    ghost given = { λ s. Some s.kept };

    ghost writes = { λ s. s.writes };

    ghost faults = { λ s. s.calls.faults };

    /// Takes as many bytes of the front as there is room for. Fails exactly where the call is a
    /// listed one, or where there is a byte to take and no room for it.
    fn write(&mut self, bytes: &[u8]) -> Result<usize, Failed>
        ensures bound { IfOk result (λ n. n ≤ length bytes.now) }
        ensures some { IfOk result (λ n. 0 < length bytes.now → 0 < n) }
        ensures told { MatchResult result
            (λ n. Took (Some self.old.kept) self.old.writes n bytes.now
            self.new.kept self.new.writes)
            (λ _. (Some self.new.kept ≡ Some self.old.kept) × (self.new.writes ≡ self.old.writes)) }
        ensures failed { OnErr result (Rose self.old.calls.faults self.new.calls.faults) }
        ensures count { self.old.calls.faults ≤ self.new.calls.faults }
        ensures fails { IsErr result ↔ (NextFails self.old.calls ⊎ IsFullFor self.old bytes.now) }
        ensures whole { IfOk result (λ n.
            n ≡ min (self.old.capacity - length self.old.kept) (length bytes.now)) }
        ensures after { MatchResult result
            (λ n. self.new ≡ sink_took self.old n bytes.now)
            (λ _. self.new ≡ sink_failed self.old) }
    {
        if self.calls.next_fails() {
            return Err(self.calls.fail());
        }
        if !bytes.is_empty() && self.kept.room() == 0 {
            return Err(self.calls.fail());
        }
        let count = self.kept.put(bytes);
        self.calls.pass();
        Ok(count)
    }
}
