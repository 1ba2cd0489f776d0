// New exits.

ghost use Rattle.std.specs.Prelude.{IfOk};
ghost use Rattle.eval_state.specs.Exiting.{IsNewExit};

use crate::machine::Machine;
use base::NoMemory;

impl<'p> Machine<'p> {
    /// The number of a new exit.
    pub fn new_exit(&mut self) -> Result<u64, NoMemory>
        ensures { IfOk result (IsNewExit self.old self.new) }
    {
        match self.store.make_exit() {
            Ok(number) => Ok(number),
            Err(_) => Err(NoMemory),
        }
    }
}
