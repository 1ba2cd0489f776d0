// How many calls of an adapter have failed.

ghost use Rattle.std.specs.Prelude.{◌≡◌, ◌≤◌};
ghost use Rattle.base.specs.Outside.{Rose};

use base::Failed;

/// A count of failed calls, which stands still at the end of its type.
#[derive(Drop)]
pub struct FaultCount {
    pub raised: u64,
}

impl FaultCount {
    /// No call has failed yet.
    pub fn new() -> FaultCount
        ensures { result.raised ≡ 0 }
    {
        FaultCount { raised: 0 }
    }

    /// Counts a call that failed, and gives its answer.
    pub fn raise(&mut self) -> Failed
        ensures rose { Rose self.old.raised self.new.raised }
        ensures never_falls { self.old.raised ≤ self.new.raised }
    {
        self.raised = self.raised.saturating_add(1);
        Failed
    }
}
