// The values of names: the global variables, or the outermost values of the dynamic variables.

ghost use Rattle.std.specs.Prelude.{◌≡◌, ◌<◌, length, ◌∷◌, [], ℕ, List, Option, OnErr, OnOk};
ghost use Rattle.lang_meaning.specs.Values.{Value};
ghost use Rattle.lang_meaning.specs.Lookup.{text, under_text};
ghost use Rattle.eval_store.specs.Words.{value_of_word, value_or_none};
ghost use Rattle.eval_store.specs.Spelling.{IsSpelling};
ghost use Rattle.eval_store.specs.NamedValues.{Holds, IsAlike};

use crate::spellings::Spellings;
use crate::word::Word;
use base::{Name, NoMemory};
use std::alloc::Global;

/// Values by the numbers by which names are told apart. The meaning has a list of texts with their values, of which the
/// first one counts; contracts say that a look-up finds here what it finds there.
#[derive(Drop)]
pub struct NamedValues {
    spellings: Spellings,
    values: Vec<Option<Word>>,
}

impl NamedValues {
    #[tactic(auto, using(crate::proofs::Holding::nothing_held))]
    /// No name has a value yet. Takes no memory.
    pub fn new(alloc: Global, spellings: Spellings) -> NamedValues
        ensures { (names : List (List ℕ)) → IsSpelling names spellings → Holds names result [] }
    {
        NamedValues {
            spellings,
            values: Vec::new(alloc),
        }
    }

    /// The value of a name, if it has one.
    pub fn get(&self, name: Name) -> Option<Word>
        ensures { (names : List (List ℕ)) (pairs : List (List ℕ × Value)) → Holds names self.now pairs
            → under_text (text names name.0) pairs ≡ value_or_none names result }
    {
        match self.values.get(self.spellings.number(name)) {
            Some(value) => *value,
            None => None,
        }
    }

    #[tactic(auto, using(crate::proofs::Holding::held_alike))]
    /// A name has that value from now on. After `NoMemory` each name has the value that it had.
    pub fn set(&mut self, name: Name, word: Word) -> Result<(), NoMemory>
        ensures ok { OnOk result ((names : List (List ℕ)) (pairs : List (List ℕ × Value)) → Holds names self.old pairs
            → Holds names self.new ((text names name.0, value_of_word names word) ∷ pairs)) }
        ensures err { OnErr result ((names : List (List ℕ)) (pairs : List (List ℕ × Value)) → Holds names self.old pairs → Holds names self.new pairs) }
    {
        let number = self.spellings.number(name);
        self.reach(number)?;
        self.values[number] = Some(word);
        Ok(())
    }

    #[tactic(auto, using(crate::specs::bridge::Places::none_more))]
    // There is room for a number.
    fn reach(&mut self, number: usize) -> Result<(), NoMemory>
        ensures reached { OnOk result (number < length self.new.values.items) }
        ensures alike { IsAlike self.old self.new }
    {
        while self.values.len() <= number {
            self.values.push(None)?;
        }
        Ok(())
    }
}
