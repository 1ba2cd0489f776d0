// What was read is given to the evaluator, and what was printed is taken from it.

ghost use Rattle.std.specs.Prelude.{◌≡◌, ◌≤◌, true, length, OnOk};
ghost use Rattle.eval_step.specs.Ports.{IsGivenBytes, IsAllRead, IsWritten};

use crate::evaluator::Evaluator;
use base::NoMemory;

impl<'p> Evaluator<'p> {
    /// The bytes that were printed and not written yet.
    pub fn printed(&self) -> &[u8]
        ensures { result.now ≡ self.now.printed.items }
    {
        self.printed.as_slice()
    }

    /// All of these were written.
    #[tactic(auto, using(crate::proofs::Handing::handed_out))]
    pub fn written(&mut self)
        ensures { IsWritten self.old self.new }
    {
        self.printed.clear();
    }

    /// Bytes that were read next, where all that was read before was taken.
    #[tactic(auto, using(crate::proofs::Handing::handed_in))]
    pub fn give_bytes(&mut self, bytes: &[u8]) -> Result<(), NoMemory>
        requires { length self.old.ahead.items ≤ self.old.taken }
        ensures { OnOk result (IsGivenBytes self.old self.new bytes.now) }
    {
        self.ahead.clear();
        self.ahead.extend_from_slice(bytes)?;
        self.taken = 0;
        Ok(())
    }

    /// Nothing is left to read.
    #[tactic(auto, using(crate::proofs::Handing::handed_all))]
    pub fn all_read(&mut self)
        ensures { IsAllRead self.old self.new }
    {
        self.ended = true;
    }
}
