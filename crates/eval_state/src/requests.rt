// Requests for words.

ghost use Rattle.std.specs.Prelude.{IfOk};
ghost use Rattle.eval_state.specs.Requests.{IsAsked};

use crate::frame::Outcome;
use crate::machine::{Control, Machine};
use base::NoMemory;
use eval_store::Halt;

impl<'p> Machine<'p> {
    /// Words of the heap and of the stack are asked for; whether they are granted. Where they do not fit, that is what the
    /// machine comes to.
    pub fn ask(&mut self, heap: u64, stack: u64) -> Result<bool, NoMemory>
        ensures { IfOk result (IsAsked self.old self.new heap stack) }
    {
        if heap.checked_add(stack).is_none() {
            return Err(NoMemory);
        }
        match self.store.request(self.given.limit, heap, stack) {
            Ok(()) => Ok(true),
            Err(Halt::Full { asked, left }) => {
                self.control = Control::ComeTo(Outcome::Full { asked, left });
                Ok(false)
            }
            Err(Halt::Spent) | Err(Halt::NoMemory) => Err(NoMemory),
        }
    }
}
