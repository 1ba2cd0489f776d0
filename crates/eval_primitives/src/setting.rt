// Parts of conses, strings, vectors and instances are set.

ghost use Rattle.std.specs.Prelude.{[], ◌∷◌};
ghost use Rattle.eval_primitives.specs.Groups.{element_set_of};
ghost use Rattle.eval_primitives.specs.Setting.{IsSet};
ghost use Rattle.lang_meaning.specs.declared.primitive.Primitive.TheVariants as p;

use crate::answer::Answer;
use crate::elements::slot_in;
use crate::expected::{CHARACTER, CONS, STRING, VECTOR};
use crate::group::ElementSet;
use crate::objects::{cons_of, string_of, vector_of};
use crate::words::{character_of, index_in};
use eval_store::{Store, Word};

/// An element of a value is set.
pub(crate) fn set_element(
    store: &mut Store<'_>,
    which: ElementSet,
    value: Word,
    word: Word,
    place: Word,
) -> Answer
    ensures { IsSet (element_set_of which) (value ∷ word ∷ place ∷ []) store.old store.new result }
{
    match which {
        ElementSet::CharAt => set_char_at(store, value, word, place),
        ElementSet::VectorRef => set_vector_ref(store, value, word, place),
        ElementSet::Slot => set_slot(store, value, word, place),
    }
}

/// The first part of a cons is set.
#[tactic(auto, using(crate::proofs::Changing::car_is_set, crate::proofs::Changing::no_car_set))]
pub(crate) fn set_car(store: &mut Store<'_>, value: Word, word: Word) -> Answer
    ensures { IsSet p.SetCar (value ∷ word ∷ []) store.old store.new result }
{
    match cons_of(store, word) {
        Some(_parts) => {
            store.set_car(word, value);
            Answer::Gives(value)
        }
        None => Answer::DomainError(word, CONS),
    }
}

/// The second part of a cons is set.
#[tactic(auto, using(crate::proofs::Changing::cdr_is_set, crate::proofs::Changing::no_cdr_set))]
pub(crate) fn set_cdr(store: &mut Store<'_>, value: Word, word: Word) -> Answer
    ensures { IsSet p.SetCdr (value ∷ word ∷ []) store.old store.new result }
{
    match cons_of(store, word) {
        Some(_parts) => {
            store.set_cdr(word, value);
            Answer::Gives(value)
        }
        None => Answer::DomainError(word, CONS),
    }
}

// A character of a string is set.
#[tactic(auto, using(crate::proofs::Changing::char_is_set, crate::proofs::Changing::no_character_set, crate::proofs::Changing::no_string_set, crate::proofs::Changing::no_place_set))]
fn set_char_at(store: &mut Store<'_>, value: Word, word: Word, place: Word) -> Answer
    ensures { IsSet p.SetCharAt (value ∷ word ∷ place ∷ []) store.old store.new result }
{
    let Some(code) = character_of(value) else {
        return Answer::DomainError(value, CHARACTER);
    };
    match string_of(store, word) {
        Some(bytes) => match index_in(place, bytes.len()) {
            Ok(at) => {
                store.set_byte(word, at, code);
                Answer::Gives(value)
            }
            Err(answer) => answer,
        },
        None => Answer::DomainError(word, STRING),
    }
}

// An element of a vector is set.
#[tactic(auto, using(crate::proofs::Changing::element_is_set, crate::proofs::Changing::no_vector_set, crate::proofs::Changing::no_element_set))]
fn set_vector_ref(store: &mut Store<'_>, value: Word, word: Word, place: Word) -> Answer
    ensures { IsSet p.SetVectorRef (value ∷ word ∷ place ∷ []) store.old store.new result }
{
    match vector_of(store, word) {
        Some(elements) => match index_in(place, elements.len()) {
            Ok(at) => {
                store.set_element(word, at, value);
                Answer::Gives(value)
            }
            Err(answer) => answer,
        },
        None => Answer::DomainError(word, VECTOR),
    }
}

// A slot of an instance is set.
#[tactic(auto, using(crate::proofs::Changing::slot_is_set, crate::proofs::Changing::no_slot_set))]
fn set_slot(store: &mut Store<'_>, value: Word, word: Word, place: Word) -> Answer
    ensures { IsSet p.SlotSet (value ∷ word ∷ place ∷ []) store.old store.new result }
{
    match slot_in(store, word, place) {
        Ok((_instance, at)) => {
            store.set_slot(word, at, value);
            Answer::Gives(value)
        }
        Err(answer) => answer,
    }
}
