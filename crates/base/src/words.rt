// The list of command words.

ghost use Rattle.std.specs.Prelude.{◌≡◌, ◌≤◌, [], ◌∷◌, ◌++◌, length, slice_get, Some, OnOk, OnErr, MatchOption};

use crate::faults::NoMemory;
use std::alloc::Global;
use std::marker::Model;

/// The words of a command line, each seen as its bytes.
#[derive(Drop)]
pub struct Words {
    alloc: Global,
    words: Vec<String>,
}

impl Model for Words {
    ghost use Rattle.std.specs.Prelude.{List, ℕ, map};
    ghost use Rattle.std.specs.String.{string_bytes};

    ghost Value = { List (List ℕ) };

    ghost view = { λ w. map (λ s. string_bytes s) w.words.items };
}

impl Words {
    /// The empty list; takes no memory.
    pub fn new(alloc: Global) -> Words
        ensures { result ≡ [] }
    {
        Words {
            alloc,
            words: Vec::new(alloc),
        }
    }

    /// Appends the word. After `NoMemory` the list is unchanged.
    pub fn push(&mut self, word: &str) -> Result<(), NoMemory>
        ensures ok { OnOk result (self.new ≡ self.old ++ word.now ∷ []) }
        ensures err { OnErr result (self.new ≡ self.old) }
    {
        let owned = String::from_str(self.alloc, word)?;
        self.words.push(owned)?;
        Ok(())
    }

    /// The number of words.
    pub fn len(&self) -> usize
        ensures { result ≡ length self.now }
    {
        self.words.len()
    }

    /// The word at that place; none exactly where `at` is not below the length.
    pub fn get(&self, at: usize) -> Option<&str>
        ensures { MatchOption result (length self.now ≤ at)
            (λ word. slice_get self.now at ≡ Some word.now) }
    {
        match self.words.get(at) {
            Some(word) => Some(word.as_str()),
            None => None,
        }
    }
}
