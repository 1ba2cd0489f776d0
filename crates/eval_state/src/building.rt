// Objects that are made of words that are asked for.

ghost use Rattle.std.specs.Prelude.{IfOk};
ghost use Rattle.eval_state.specs.Building.{IsBuilt};

use crate::frame::Outcome;
use crate::machine::{Control, Machine};
use base::NoMemory;
use eval_store::{Halt, Object, Word};

impl<'p> Machine<'p> {
    /// An object of so many words is made, if there is room for it; else that is what the machine comes to.
    pub fn build(
        &mut self,
        size: u64,
        besides: u64,
        object: Object<'p>,
    ) -> Result<Option<Word>, NoMemory>
        ensures { IfOk result (IsBuilt self.old self.new size besides object.entry) }
    {
        match self.store.make(self.given.limit, size, besides, object) {
            Ok(word) => Ok(Some(word)),
            Err(Halt::Full { asked, left }) => {
                self.control = Control::ComeTo(Outcome::Full { asked, left });
                Ok(None)
            }
            Err(Halt::Spent) | Err(Halt::NoMemory) => Err(NoMemory),
        }
    }
}
