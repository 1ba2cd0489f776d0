// A source in memory whose listed calls fail.

ghost use Rattle.std.specs.Prelude.{◌≡◌, ◌≤◌, ◌↔◌, length, drop, min, IfOk, IsErr, OnErr, MatchResult};
ghost use Rattle.base.specs.Outside.{Rose, TakesFront};
ghost use Rattle.base.specs.Calls.{no_calls, passed, failed, NextFails};

use crate::calls::Calls;
use crate::faults::Failed;
use crate::fronts::put_front;
use crate::lists::{Bytes, CallList};
use crate::outside::Source;
use std::marker::Model;

/// A source of bytes in memory. It always tells what is left, and a listed call fails.
#[derive(Drop)]
pub struct MemSource {
    bytes: Bytes,
    at: usize,
    calls: Calls,
}

impl Model for MemSource {
    ghost use Rattle.std.specs.Prelude.{◌≤◌, length, drop};
    ghost use Rattle.base.specs.Memory.{SourceState};

    ghost Value = { SourceState };

    ghost view = { λ s. record { rest = drop s.at s.bytes; calls = s.calls } };

    ghost invariant = { λ s. s.at ≤ length s.bytes };
}

impl MemSource {
    /// A source with all these bytes left, whose calls of these numbers fail.
    pub fn new(bytes: Bytes, fails: CallList) -> MemSource
        ensures rest { result.rest ≡ bytes }
        ensures calls { result.calls ≡ no_calls fails }
    {
        MemSource {
            bytes,
            at: 0,
            calls: Calls::new(fails),
        }
    }
}

impl Source for MemSource {
    ghost use Rattle.std.specs.Prelude.{Some};

    ghost left = { λ s. Some s.rest };

    ghost faults = { λ s. s.calls.faults };

    /// Fails exactly where the call is a listed one.
    fn read(&mut self, buf: &mut [u8]) -> Result<usize, Failed>
        ensures bound { IfOk result (λ n. n ≤ length buf.old) }
        ensures told { MatchResult result
            (λ n. TakesFront self.old.rest n buf.old buf.new
            × (self.new.rest ≡ drop n self.old.rest))
            (λ _. self.new.rest ≡ self.old.rest) }
        ensures failed { OnErr result (Rose self.old.calls.faults self.new.calls.faults) }
        ensures count { self.old.calls.faults ≤ self.new.calls.faults }
        ensures fails { IsErr result ↔ NextFails self.old.calls }
        ensures whole { IfOk result (λ n. n ≡ min (length self.old.rest) (length buf.old)) }
        ensures calls { MatchResult result
            (λ _. self.new.calls ≡ passed self.old.calls)
            (λ _. self.new.calls ≡ failed self.old.calls) }
    {
        if self.calls.next_fails() {
            return Err(self.calls.fail());
        }
        let count = put_front(&self.bytes.as_slice()[self.at..], buf);
        self.at += count;
        self.calls.pass();
        Ok(count)
    }
}
