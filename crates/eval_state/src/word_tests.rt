// Tests of words.

ghost use Rattle.std.specs.Prelude.{◌≡◌, List, ℕ};
ghost use Rattle.lang_meaning.specs.Values.{is_true};
ghost use Rattle.eval_store.specs.Words.{value_of_word};

use eval_store::Word;

/// Whether a value counts as true: all do but nil.
pub fn is_true(word: Word) -> bool
    ensures { (names : List (List ℕ)) → result ≡ is_true (value_of_word names word) }
{
    match word {
        Word::Nil => false,
        Word::True
        | Word::Integer(_)
        | Word::Character(_)
        | Word::Symbol(_)
        | Word::Unnamed { .. }
        | Word::Object(_) => true,
    }
}
