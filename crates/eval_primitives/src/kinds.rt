// What values are.

ghost use Rattle.std.specs.Prelude.{◌≡◌, ℕ, List};
ghost use Rattle.lang_meaning.specs.Values.{same, nil};
ghost use Rattle.eval_store.specs.Words.{value_of_word};
ghost use Rattle.eval_primitives.specs.Reading.{IsOfKind};
ghost use Rattle.eval_primitives.specs.declared.group.KindTest.TheVariants as kind;

use crate::group::KindTest;
use crate::objects::{cons_of, string_of, vector_of};
use crate::words::{character_of, integer_of, symbol_of};
use eval_store::{Object, Store, Word};

/// Whether a value is of that kind.
#[tactic(auto, using(crate::proofs::Seeing::symbol_kind, crate::proofs::Seeing::cons_kind, crate::proofs::Seeing::no_cons_kind, crate::proofs::Seeing::string_kind, crate::proofs::Seeing::no_string_kind, crate::proofs::Seeing::vector_kind, crate::proofs::Seeing::no_vector_kind))]
pub(crate) fn is_of(store: &Store<'_>, which: KindTest, word: Word) -> bool
    ensures { IsOfKind which store.now word result }
{
    match which {
        KindTest::Null => is_nil(word),
        KindTest::Integer => integer_of(word).is_some(),
        KindTest::Character => character_of(word).is_some(),
        KindTest::Symbol => symbol_of(store, word).is_some(),
        KindTest::Cons => match cons_of(store, word) {
            Some(_) => true,
            None => false,
        },
        KindTest::String => match string_of(store, word) {
            Some(_) => true,
            None => false,
        },
        KindTest::Vector => match vector_of(store, word) {
            Some(_) => true,
            None => false,
        },
        KindTest::Function => is_function_there(store, word),
        KindTest::Generic => is_generic_there(store, word),
    }
}

// Whether a value is nil.
fn is_nil(word: Word) -> bool
    ensures { (names : List (List ℕ)) → result ≡ same (value_of_word names word) nil }
{
    match word {
        Word::Nil => true,
        _ => false,
    }
}

// Whether a value is a function.
#[tactic(auto, using(crate::proofs::Seeing::procedure_function, crate::proofs::Seeing::closure_function, crate::proofs::Seeing::generic_is_function, crate::proofs::Seeing::function_else, crate::proofs::Seeing::function_absent))]
fn is_function_there(store: &Store<'_>, word: Word) -> bool
    ensures { IsOfKind kind.Function store.now word result }
{
    match store.fetch(word) {
        Some(object) => match object {
            Object::Function(_procedure) => true,
            Object::Closure(_procedure, _captured) => true,
            Object::Generic(_generic) => true,
            _ => false,
        },
        None => false,
    }
}

// Whether a value is a generic function.
#[tactic(auto, using(crate::proofs::Seeing::generic_there, crate::proofs::Seeing::generic_else, crate::proofs::Seeing::generic_absent))]
fn is_generic_there(store: &Store<'_>, word: Word) -> bool
    ensures { IsOfKind kind.Generic store.now word result }
{
    match store.fetch(word) {
        Some(object) => match object {
            Object::Generic(_generic) => true,
            _ => false,
        },
        None => false,
    }
}
