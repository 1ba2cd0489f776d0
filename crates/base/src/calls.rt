// The calls made of an outside in memory: which of them fail, and how many did.

ghost use Rattle.std.specs.Prelude.{◌≡◌, ◌≤◌, ◌↔◌, IsTrue};

use crate::faults::Failed;
use crate::lists::CallList;

/// The calls made of an outside in memory. `fails` has the numbers of those that fail, counted
/// from 0; both counts stand still at the end of their type.
#[derive(Drop)]
pub struct Calls {
    pub fails: CallList,
    pub made: u64,
    pub faults: u64,
}

impl Calls {
    ghost use Rattle.base.specs.Calls.{no_calls, passed, failed, NextFails};

    /// No call yet.
    pub fn new(fails: CallList) -> Calls
        ensures { result ≡ no_calls fails }
    {
        Calls {
            fails,
            made: 0,
            faults: 0,
        }
    }

    /// Whether the next call is one that fails.
    pub fn next_fails(&self) -> bool
        ensures { IsTrue result ↔ NextFails self.now }
    {
        let next = self.made;
        self.fails
            .as_slice()
            .iter()
            .any(|call| u64::from(*call) == next)
    }

    /// Counts a call that did not fail.
    pub fn pass(&mut self)
        ensures { self.new ≡ passed self.old }
    {
        self.made = self.made.saturating_add(1);
    }

    /// Counts a call that failed, and gives its answer.
    pub fn fail(&mut self) -> Failed
        ensures after { self.new ≡ failed self.old }
        ensures never_falls { self.old.faults ≤ self.new.faults }
    {
        self.made = self.made.saturating_add(1);
        self.faults = self.faults.saturating_add(1);
        Failed
    }
}
