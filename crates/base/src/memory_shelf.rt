// A shelf in memory with one file, whose listed calls fail.

ghost use Rattle.std.specs.Prelude.{◌≡◌, ◌≢◌, ◌≤◌, ◌↔◌, ◌⊎◌, List, ℕ, length, drop, min, IfOk, IfSome, IsErr, OnErr, MatchResult};
ghost use Rattle.base.specs.Outside.{Rose, TakesFront};
ghost use Rattle.base.specs.Calls.{no_calls, passed, failed, NextFails};

use crate::calls::Calls;
use crate::faults::Failed;
use crate::fronts::{from_place, put_front};
use crate::lists::{Bytes, CallList};
use crate::outside::Shelf;
use std::marker::Model;

/// A shelf in memory. It tells its bytes under its one name and nothing under another; a listed
/// call fails, and so does one that asks for another name.
#[derive(Drop)]
pub struct MemShelf {
    name: Bytes,
    file: Bytes,
    calls: Calls,
}

impl Model for MemShelf {
    ghost use Rattle.base.specs.Memory.{ShelfState};

    ghost Value = { ShelfState };

    ghost view = { λ s. record { name = s.name; file = s.file; calls = s.calls } };
}

impl MemShelf {
    /// A shelf with these bytes under this name, whose calls of these numbers fail.
    pub fn new(name: Bytes, bytes: Bytes, fails: CallList) -> MemShelf
        ensures name { result.name ≡ name }
        ensures file { result.file ≡ bytes }
        ensures calls { result.calls ≡ no_calls fails }
    {
        MemShelf {
            name,
            file: bytes,
            calls: Calls::new(fails),
        }
    }
}

impl Shelf for MemShelf {
    ghost use Rattle.base.specs.Memory.{told_under};

    ghost holds = { told_under };

    ghost faults = { λ s. s.calls.faults };

    /// Fails exactly where the call is a listed one or the name is another.
    fn read(&mut self, name: &str, at: u64, buf: &mut [u8]) -> Result<usize, Failed>
        ensures bound { IfOk result (λ n. n ≤ length buf.old) }
        ensures told { IfSome (told_under self.old name.now) (λ file. IfOk result
            (λ n. TakesFront (drop at file) n buf.old buf.new)) }
        ensures held { (other : List ℕ) → told_under self.new other ≡ told_under self.old other }
        ensures failed { OnErr result (Rose self.old.calls.faults self.new.calls.faults) }
        ensures count { self.old.calls.faults ≤ self.new.calls.faults }
        ensures fails { IsErr result ↔ (NextFails self.old.calls ⊎ (name.now ≢ self.old.name)) }
        ensures whole { IfOk result (λ n.
            n ≡ min (length (drop at self.old.file)) (length buf.old)) }
        ensures same { (self.new.name ≡ self.old.name) × (self.new.file ≡ self.old.file) }
        ensures calls { MatchResult result
            (λ _. self.new.calls ≡ passed self.old.calls)
            (λ _. self.new.calls ≡ failed self.old.calls) }
    {
        if self.calls.next_fails() || name.as_bytes() != self.name.as_slice() {
            return Err(self.calls.fail());
        }
        let count = put_front(from_place(self.file.as_slice(), at), buf);
        self.calls.pass();
        Ok(count)
    }
}
