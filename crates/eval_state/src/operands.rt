// The values so far of the forms that wait.

ghost use Rattle.std.specs.Prelude.{◌≡◌, ◌<◌, OnOk, Some, length, min, slice_get};
ghost use Rattle.eval_state.specs.Operands.{IsPushed, IsDropped};

use crate::machine::Machine;
use base::NoMemory;
use eval_store::Word;

impl<'p> Machine<'p> {
    /// An operand more.
    pub fn push_operand(&mut self, word: Word) -> Result<(), NoMemory>
        ensures { OnOk result (IsPushed self.old self.new word) }
    {
        self.operands.push(word)?;
        Ok(())
    }

    /// So many operands, or all that there are.
    pub fn held_operands(&self, count: usize) -> usize
        ensures { result ≡ min count (length self.now.operands.items) }
    {
        count.min(self.operands.len())
    }

    /// The operand at that place, from the first one on.
    pub fn operand_at(&self, at: usize) -> Word
        requires { at < length self.now.operands.items }
        ensures { slice_get self.now.operands.items at ≡ Some result }
    {
        self.operands[at]
    }

    /// The last operands go, so many as that.
    pub fn drop_operands(&mut self, count: usize)
        ensures { IsDropped self.old self.new count }
    {
        let left = self.operands.len().saturating_sub(count);
        self.operands.truncate(left);
    }
}
