// The objects of words, as what they are to be.

ghost use Rattle.std.specs.Prelude.{option_copied};
ghost use Rattle.eval_primitives.specs.Objects.{HasCons, HasString, HasVector, HasClass, HasInstance, HasFresh};

use eval_store::{Characters, Elements, Instance, Object, Store, Word};
use lang_meaning::ClassId;

/// The parts of a cons.
#[tactic(auto, using(crate::proofs::Seeing::cons_there, crate::proofs::Seeing::cons_else, crate::proofs::Seeing::cons_absent))]
pub(crate) fn cons_of(store: &Store<'_>, word: Word) -> Option<(Word, Word)>
    ensures { HasCons store.now word result }
{
    match store.fetch(word) {
        Some(object) => match object {
            Object::Cons(car, cdr) => Some((*car, *cdr)),
            _ => None,
        },
        None => None,
    }
}

/// The characters of a string.
#[tactic(auto, using(crate::proofs::Seeing::string_there, crate::proofs::Seeing::string_else, crate::proofs::Seeing::string_absent))]
pub(crate) fn string_of<'s>(store: &'s Store<'_>, word: Word) -> Option<&'s Characters>
    ensures { HasString store.now word (option_copied result) }
{
    match store.fetch(word) {
        Some(object) => match object {
            Object::Text(bytes) => Some(bytes),
            _ => None,
        },
        None => None,
    }
}

/// The elements of a vector.
#[tactic(auto, using(crate::proofs::Seeing::vector_there, crate::proofs::Seeing::vector_else, crate::proofs::Seeing::vector_absent))]
pub(crate) fn vector_of<'s>(store: &'s Store<'_>, word: Word) -> Option<&'s Elements>
    ensures { HasVector store.now word (option_copied result) }
{
    match store.fetch(word) {
        Some(object) => match object {
            Object::Vector(elements) => Some(elements),
            _ => None,
        },
        None => None,
    }
}

/// The class that an object is.
#[tactic(auto, using(crate::proofs::Seeing::class_there, crate::proofs::Seeing::class_else, crate::proofs::Seeing::class_absent))]
pub(crate) fn class_object_of(store: &Store<'_>, word: Word) -> Option<ClassId>
    ensures { HasClass store.now word result }
{
    match store.fetch(word) {
        Some(object) => match object {
            Object::Class(class) => Some(*class),
            _ => None,
        },
        None => None,
    }
}

/// An instance.
#[tactic(auto, using(crate::proofs::Seeing::instance_there, crate::proofs::Seeing::instance_else, crate::proofs::Seeing::instance_absent))]
pub(crate) fn instance_of<'s>(store: &'s Store<'_>, word: Word) -> Option<&'s Instance>
    ensures { HasInstance store.now word (option_copied result) }
{
    match store.fetch(word) {
        Some(object) => match object {
            Object::Instance(instance) => Some(instance),
            _ => None,
        },
        None => None,
    }
}

/// The serial of a symbol that the program made.
#[tactic(auto, using(crate::proofs::Seeing::fresh_there, crate::proofs::Seeing::fresh_else, crate::proofs::Seeing::fresh_absent))]
pub(crate) fn fresh_of(store: &Store<'_>, word: Word) -> Option<u64>
    ensures { HasFresh store.now word result }
{
    match store.fetch(word) {
        Some(object) => match object {
            Object::FreshSymbol(serial) => Some(*serial),
            _ => None,
        },
        None => None,
    }
}
