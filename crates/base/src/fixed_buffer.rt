// A list of bytes with room for so many, taken at once, that counts what put bytes there.

ghost use Rattle.std.specs.Prelude.{◌≡◌, ◌-◌, ◌≤◌, ◌<◌, ◌^◌, length, min, IfOk};
ghost use Rattle.base.specs.Memory.{empty_buffer, with_front};

use crate::faults::NoMemory;
use std::alloc::Global;
use std::marker::Model;

/// Bytes that are kept, how many there is room for in all, and how many calls put some there.
#[derive(Drop)]
pub(crate) struct FixedBuffer {
    items: Vec<u8>,
    capacity: usize,
    writes: u64,
}

impl Model for FixedBuffer {
    ghost use Rattle.std.specs.Prelude.{◌≤◌, length, vec_capacity};
    ghost use Rattle.base.specs.Memory.{BufferState};

    ghost Value = { BufferState };

    ghost view = { λ b. record { bytes = b.items.items; capacity = b.capacity; writes = b.writes } };

    ghost invariant = { λ b.
        (length b.items.items ≤ b.capacity) × (b.capacity ≤ vec_capacity b.items)
        × (b.writes ≤ length b.items.items) };
}

impl FixedBuffer {
    /// No bytes, and room for `capacity`.
    pub(crate) fn new(alloc: Global, capacity: usize) -> Result<FixedBuffer, NoMemory>
        ensures { IfOk result (λ buffer. buffer ≡ empty_buffer capacity) }
    {
        let items = Vec::with_capacity(alloc, capacity)?;
        Ok(FixedBuffer {
            items,
            capacity,
            writes: 0,
        })
    }

    /// How many bytes more there is room for.
    pub(crate) fn room(&self) -> usize
        ensures { result ≡ self.now.capacity - length self.now.bytes }
    {
        self.capacity - self.items.len()
    }

    /// Keeps as many bytes of the front as there is room for, and answers how many. A call that keeps
    /// some is counted.
    pub(crate) fn put(&mut self, bytes: &[u8]) -> usize
        ensures count { result ≡ min (self.old.capacity - length self.old.bytes) (length bytes.now) }
        ensures after { self.new ≡ with_front self.old result bytes.now }
        ensures within { length self.new.bytes ≤ self.new.capacity }
        ensures writes { self.new.writes ≤ length self.new.bytes }
    {
        let count = self.room().min(bytes.len());
        let Ok(()) = self.items.extend_from_slice(&bytes[..count]) else {
            unreachable!()
        };
        if count > 0 {
            self.writes += 1;
        }
        count
    }

    /// The bytes that are kept.
    pub(crate) fn bytes(&self) -> &[u8]
        ensures bytes { result.now ≡ self.now.bytes }
        ensures within { length self.now.bytes ≤ self.now.capacity }
        ensures writes { self.now.writes ≤ length self.now.bytes }
    {
        self.items.as_slice()
    }
}
