// Variables of names: the global ones, and the dynamic ones where no binding of theirs is around.

ghost use Rattle.std.specs.Prelude.{◌≡◌, ℕ, List, OnOk};
ghost use Rattle.lang_meaning.specs.Lookup.{text, under_text};
ghost use Rattle.eval_machine.specs.Step.{value_step};
ghost use Rattle.eval_store.specs.Words.{value_of_word, value_or_none};
ghost use Rattle.eval_store.specs.View.{Beside};
ghost use Rattle.eval_state.specs.View.{at, state};
ghost use Rattle.eval_step.specs.Named.{pairs_in, named_step, set_named_step, def_named, IsPut};
ghost use Rattle.eval_step.specs.Runs.{RunsAs, Stands, Runs};

use crate::evaluator::Evaluator;
use base::{Name, NoMemory};
use eval_state::situation::Situation;
use eval_store::Word;

/// The table of the global variables, or that of the outermost values of the dynamic ones.
#[derive(Clone, Copy)]
pub enum Table {
    Globals,
    Dynamics,
}

impl<'p> Evaluator<'p> {
    // The value that a name has in a table.
    fn value_under(&self, table: Table, name: Name) -> Option<Word>
        ensures { (names : List (List ℕ)) (written unread : List ℕ) (b : Beside) → Stands names self.now written unread b
            → under_text (text names name.0) (pairs_in table (state names self.now.machine b).state) ≡ value_or_none names result }
    {
        match table {
            Table::Globals => self.globals.get(name),
            Table::Dynamics => self.dynamics.get(name),
        }
    }

    // A name has that value in a table from now on.
    fn put_under(&mut self, table: Table, name: Name, word: Word) -> Result<(), NoMemory>
        ensures { OnOk result (IsPut table name.0 word self.old self.new) }
    {
        match table {
            Table::Globals => self.globals.set(name, word),
            Table::Dynamics => self.dynamics.set(name, word),
        }
    }

    /// The value of a variable.
    pub fn named(&mut self, table: Table, name: Name, situation: Situation) -> Result<(), NoMemory>
        ensures { OnOk result (RunsAs self.old self.new 0 (λ names s. named_step table s (text s.names name.0) (at names self.old.machine situation))) }
    {
        match self.value_under(table, name) {
            Some(word) => {
                self.machine.gives(word);
                Ok(())
            }
            None => self
                .machine
                .signal_unbound(name, situation.level, situation.around),
        }
    }

    /// A variable is set.
    pub fn set_named(
        &mut self,
        table: Table,
        name: Name,
        word: Word,
        situation: Situation,
    ) -> Result<(), NoMemory>
        ensures { OnOk result (RunsAs self.old self.new 0 (λ names s. set_named_step table s (text s.names name.0) (value_of_word names word) (at names self.old.machine situation))) }
    {
        match self.value_under(table, name) {
            Some(_) => {
                self.put_under(table, name, word)?;
                self.machine.gives(word);
                Ok(())
            }
            None => self
                .machine
                .signal_unbound(name, situation.level, situation.around),
        }
    }

    /// A variable is defined.
    pub fn define_named(&mut self, table: Table, name: Name, word: Word) -> Result<(), NoMemory>
        ensures { OnOk result (RunsAs self.old self.new 0 (λ names s. value_step s (def_named table name.0) (value_of_word names word))) }
    {
        self.put_under(table, name, word)?;
        self.machine.gives(Word::Symbol(name));
        Ok(())
    }
}
