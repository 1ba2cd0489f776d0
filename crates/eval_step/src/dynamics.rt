// Dynamic variables: the innermost binding counts, else the outermost value.

ghost use Rattle.std.specs.Prelude.{OnOk};
ghost use Rattle.lang_meaning.specs.Lookup.{text};
ghost use Rattle.eval_machine.specs.Step.{dynamic_step, set_dynamic_step};
ghost use Rattle.eval_store.specs.Words.{value_of_word};
ghost use Rattle.eval_state.specs.View.{at};
ghost use Rattle.eval_step.specs.Runs.{RunsAs, Runs};

use crate::evaluator::Evaluator;
use crate::named::Table;
use base::{Name, NoMemory};
use eval_control::bound::find_binding;
use eval_state::situation::Situation;
use eval_store::Word;

impl<'p> Evaluator<'p> {
    /// The value of a dynamic variable: of its innermost binding, or its outermost value.
    pub fn dynamic(&mut self, name: Name, situation: Situation) -> Result<(), NoMemory>
        ensures { OnOk result (RunsAs self.old self.new 0 (λ names s. dynamic_step s (text s.names name.0) (at names self.old.machine situation))) }
    {
        match find_binding(&mut self.machine, name, situation.around.bindings)? {
            Some(number) => {
                let word = self.machine.store.variable(Some(number));
                self.machine.gives(word);
                Ok(())
            }
            None => self.named(Table::Dynamics, name, situation),
        }
    }

    /// A dynamic variable is set: that of its innermost binding, or its outermost value.
    pub fn set_dynamic(
        &mut self,
        name: Name,
        word: Word,
        situation: Situation,
    ) -> Result<(), NoMemory>
        ensures { OnOk result (RunsAs self.old self.new 0 (λ names s. set_dynamic_step s (text s.names name.0) (value_of_word names word) (at names self.old.machine situation))) }
    {
        match find_binding(&mut self.machine, name, situation.around.bindings)? {
            Some(number) => {
                self.machine.store.set_variable(Some(number), word);
                self.machine.gives(word);
                Ok(())
            }
            None => self.set_named(Table::Dynamics, name, word, situation),
        }
    }
}
