// The outside as three traits: what is read from, written to, and held under a name.

ghost use Rattle.std.specs.Prelude.{◌≡◌, ◌≢◌, ℕ, ◌<◌, ◌≤◌, List, length, drop, Option, Some, IfOk, IfSome, OnErr, MatchResult};
ghost use Rattle.base.specs.Outside.{Rose, TakesFront, Took};

use crate::faults::Failed;

/// Something that bytes are read from, once each and in order.
pub trait Source {
    // What is left to read, where the source tells it.
    ghost left: { Self → Option (List ℕ) };

    // How many calls have failed. It never falls.
    ghost faults: { Self → ℕ };

    /// Puts bytes at the front of `buf` and answers how many; 0 of a non-empty `buf` is the end.
    /// `Failed` only where the count of faults rose; what is left is then unchanged.
    fn read(&mut self, buf: &mut [u8]) -> Result<usize, Failed>
        ensures bound { IfOk result (λ n. n ≤ length buf.old) }
        ensures told { IfSome (left self.old) (λ all. MatchResult result
            (λ n. TakesFront all n buf.old buf.new × (left self.new ≡ Some (drop n all)))
            (λ _. left self.new ≡ Some all)) }
        ensures failed { OnErr result (Rose (faults self.old) (faults self.new)) }
        ensures count { faults self.old ≤ faults self.new };
}

/// Something that bytes are given to.
pub trait Sink {
    // What it was given, where the sink tells it.
    ghost given: { Self → Option (List ℕ) };

    // How many calls took bytes, told where the bytes are told.
    ghost writes: { Self → ℕ };

    // How many calls have failed. It never falls.
    ghost faults: { Self → ℕ };

    /// Takes bytes of the front and answers how many; never 0 of a non-empty piece. A sink that
    /// tells after a write told before it. `Failed` only where the count of faults rose; what was
    /// given is then unchanged.
    fn write(&mut self, bytes: &[u8]) -> Result<usize, Failed>
        ensures bound { IfOk result (λ n. n ≤ length bytes.now) }
        ensures some { IfOk result (λ n. 0 < length bytes.now → 0 < n) }
        ensures told { MatchResult result
            (λ n. IfSome (given self.new) (λ after. Took (given self.old) (writes self.old) n bytes.now after (writes self.new)))
            (λ _. (given self.new ≡ given self.old) × (writes self.new ≡ writes self.old)) }
        ensures failed { OnErr result (Rose (faults self.old) (faults self.new)) }
        ensures count { faults self.old ≤ faults self.new };
}

/// Something that holds files under names.
pub trait Shelf {
    // What it holds under a name, where the shelf tells it.
    ghost holds: { Self → List ℕ → Option (List ℕ) };

    // How many calls have failed. It never falls.
    ghost faults: { Self → ℕ };

    /// Puts bytes of the named file, from place `at` on, at the front of `buf` and answers how
    /// many; 0 of a non-empty `buf` is the end. `Failed` only where the count of faults rose; a
    /// missing file is such a fault. What is held stays.
    fn read(&mut self, name: &str, at: u64, buf: &mut [u8]) -> Result<usize, Failed>
        ensures bound { IfOk result (λ n. n ≤ length buf.old) }
        ensures told { IfSome (holds self.old name.now) (λ file. IfOk result
            (λ n. TakesFront (drop at file) n buf.old buf.new)) }
        ensures held { (other : List ℕ) → holds self.new other ≡ holds self.old other }
        ensures failed { OnErr result (Rose (faults self.old) (faults self.new)) }
        ensures count { faults self.old ≤ faults self.new };
}
