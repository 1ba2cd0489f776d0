// How names are told apart by their numbers.

ghost use Rattle.std.specs.Prelude.{◌≡◌, ◌↔◌, List, [], ◌∷◌, ℕ, IsTrue, length};
ghost use Rattle.std.specs.Str.{bytes_eq};
ghost use Rattle.lang_meaning.specs.Lookup.{text};
ghost use Rattle.lang_meaning.specs.Values.{same};
ghost use Rattle.eval_store.specs.Spelling.{IsSpelling, IsTruth, number_of};
ghost use Rattle.eval_store.specs.Words.{value_of_word};

use crate::word::Word;
use base::{Name, Names};

/// What tells the names of a table apart by their numbers: how many there are, and the number that stands for the empty
/// text, which is also that of all numbers that are not in the table; and the number of the text of `t`, if the table has it.
#[derive(Clone, Copy)]
pub struct Spellings {
    known: usize,
    blank: usize,
    truth: Option<usize>,
}

impl Spellings {
    #[tactic(auto, using(crate::proofs::Spelt::none_yet, crate::proofs::Spelt::blank_there, crate::proofs::Spelt::blank_elsewhere, crate::proofs::Spelt::found_blank))]
    /// That of a table.
    pub fn new(names: &Names) -> Spellings
        ensures { IsSpelling names.now result }
    {
        let known = names.len();
        let mut blank = known;
        for number in 0..known {
            if is_blank(names, number) {
                blank = number;
            }
        }
        Spellings {
            known,
            blank,
            truth: truth_of(names, known),
        }
    }

    /// The number by which a name is told apart.
    pub fn number(self, name: Name) -> usize
        ensures { result ≡ number_of self name.0 }
    {
        if name.0 < self.known {
            name.0
        } else {
            self.blank
        }
    }

    #[tactic(auto, using(crate::specs::bridge::Told::told))]
    /// Whether two names have the same text.
    pub fn same_name(self, name: Name, other: Name) -> bool
        ensures { (names : List (List ℕ)) → IsSpelling names self → result ≡ bytes_eq (text names name.0) (text names other.0) }
    {
        self.number(name) == self.number(other)
    }

    #[tactic(auto, using(crate::proofs::Spelt::truth_told, crate::proofs::Spelt::no_truth_told))]
    /// Whether a name has the text of `t`.
    pub fn is_truth(self, name: Name) -> bool
        ensures { (names : List (List ℕ)) → IsSpelling names self → result ≡ bytes_eq (text names name.0) (116 ∷ []) }
    {
        match self.truth {
            Some(truth) => self.number(name) == truth,
            None => false,
        }
    }

    #[tactic(auto, using(crate::proofs::Spelt::turned))]
    /// Whether two words are the same value.
    pub fn same(self, word: Word, other: Word) -> bool
        ensures { (names : List (List ℕ)) → IsSpelling names self → result ≡ same (value_of_word names word) (value_of_word names other) }
    {
        match (word, other) {
            (Word::Nil, Word::Nil) => true,
            (Word::True, Word::True) => true,
            (Word::True, Word::Symbol(name)) => self.is_truth(name),
            (Word::Symbol(name), Word::True) => self.is_truth(name),
            (Word::Integer(a), Word::Integer(b)) => a == b,
            (Word::Character(a), Word::Character(b)) => a == b,
            (Word::Symbol(a), Word::Symbol(b)) => self.same_name(a, b),
            (
                Word::Unnamed { expansion, serial },
                Word::Unnamed {
                    expansion: other_expansion,
                    serial: other_serial,
                },
            ) => expansion == other_expansion && serial == other_serial,
            (Word::Object(a), Word::Object(b)) => a == b,
            _ => false,
        }
    }
}

// The number of the first name, among so many, that has the text of `t`.
#[tactic(auto, using(crate::proofs::Spelt::truth_there, crate::proofs::Spelt::no_truth_before, crate::proofs::Spelt::no_truth_yet))]
fn truth_of(names: &Names, known: usize) -> Option<usize>
    requires { known ≡ length names.now }
    ensures { IsTruth names.now (length names.now) result }
{
    for number in 0..known {
        if is_truth(names, number) {
            return Some(number);
        }
    }
    None
}

// Whether the name of that number has the text of `t`.
fn is_truth(names: &Names, number: usize) -> bool
    ensures { IsTrue result ↔ (text names.now number ≡ 116 ∷ []) }
{
    match names.text(Name(number)) {
        Some([first]) => *first == b't',
        _ => false,
    }
}

// Whether the name of that number has the empty text.
fn is_blank(names: &Names, number: usize) -> bool
    ensures { IsTrue result ↔ (text names.now number ≡ []) }
{
    match names.text(Name(number)) {
        Some(text) => text.is_empty(),
        None => true,
    }
}
