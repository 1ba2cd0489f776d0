// The table of names: each text once, found by its number and by itself.

ghost use Rattle.std.specs.Prelude.{◌≡◌, ◌+◌, ◌≤◌, ℕ, false, List, [], ◌∷◌, ◌++◌, length, slice_get, Some, None, OnOk, OnErr, IfOk, MatchOption};
ghost use Rattle.base.specs.Names.{IsTable, has_text, with_text};

use crate::datum::Name;
use crate::faults::NoMemory;
use crate::lists::{Bytes, ItemList};
use std::alloc::Global;
use std::collections::BTreeMap;
use std::marker::Model;

/// A table of texts, each once; the name n has the n-th. Contracts see it as the list of its texts.
#[derive(Drop)]
pub struct Names {
    alloc: Global,
    texts: ItemList<Bytes>,
    numbers: BTreeMap<Vec<u8>, usize>,
}

impl Model for Names {
    ghost use Rattle.std.specs.Prelude.{ℕ, List};

    ghost Value = { List (List ℕ) };

    ghost use Rattle.base.specs.NameNumbers.{IsIndexed};

    ghost view = { λ n. n.texts };

    ghost invariant = { λ n. IsIndexed n.texts n.numbers.entries };
}

impl Names {
    /// An empty table; takes no memory.
    pub fn new(alloc: Global) -> Names
        ensures { result ≡ [] }
    {
        Names {
            alloc,
            texts: ItemList::new(alloc),
            numbers: BTreeMap::new(alloc),
        }
    }

    /// How many names there are: all names below this number are in the table.
    #[tactic(auto, using(crate::specs::NameNumbers::table_of))]
    pub fn len(&self) -> usize
        ensures len { result ≡ length self.now }
        ensures table { IsTable self.now }
    {
        self.texts.len()
    }

    /// The text of a name; none exactly where the table has no such name.
    #[tactic(auto, using(crate::specs::NameNumbers::table_of))]
    pub fn text(&self, name: Name) -> Option<&[u8]>
        ensures text { MatchOption result (length self.now ≤ name.0)
            (λ text. slice_get self.now name.0 ≡ Some text.now) }
        ensures table { IsTable self.now }
    {
        match self.texts.get(name.0) {
            Some(text) => Some(text.as_slice()),
            None => None,
        }
    }

    /// The one name of this text, new where the text was not there; earlier names keep their texts.
    /// Unchanged after `NoMemory`.
    pub fn intern(&mut self, text: &[u8]) -> Result<Name, NoMemory>
        requires { length text.now ≤ 263 }
        ensures name { IfOk result (λ name. slice_get self.new name.0 ≡ Some text.now) }
        ensures after { OnOk result (self.new ≡ with_text self.old text.now) }
        ensures err { OnErr result (self.new ≡ self.old) }
        ensures table { IsTable self.new }
    {
        match self.numbers.get(text) {
            Some(number) => Ok(Name(*number)),
            None => self.add(text),
        }
    }

    // A name more, for a text that is not there.
    fn add(&mut self, text: &[u8]) -> Result<Name, NoMemory>
        requires short { length text.now ≤ 263 }
        requires new { has_text self.old text.now ≡ false }
        ensures name { IfOk result (λ name. slice_get self.new name.0 ≡ Some text.now) }
        ensures after { OnOk result (self.new ≡ with_text self.old text.now) }
        ensures err { OnErr result (self.new ≡ self.old) }
    {
        let number = self.texts.len();
        let Ok(key) = Vec::from_slice(self.alloc, text) else {
            return Err(NoMemory);
        };
        let kept = Bytes::from_slice(self.alloc, text)?;
        self.texts.push(kept)?;
        match self.numbers.insert(key, number) {
            Ok(_) => Ok(Name(number)),
            Err(_) => {
                self.texts.cut(number);
                Err(NoMemory)
            }
        }
    }
}
