// The classes of values.

ghost use Rattle.std.specs.Prelude.{◌≡◌, Some};
ghost use Rattle.lang_meaning.specs.Classes as meaning;
ghost use Rattle.lang_meaning.specs.Objects.{class_object};
ghost use Rattle.eval_primitives.specs.Classing.{HasClassOf, IsClassed};

use eval_store::{Object, Store, Word};
use lang_meaning::ClassId;

/// The class of a value.
#[tactic(auto, using(crate::proofs::Classed::integer_classed, crate::proofs::Classed::character_classed, crate::proofs::Classed::symbol_classed, crate::proofs::Classed::unnamed_classed, crate::proofs::Classed::truth_classed, crate::proofs::Classed::nil_classed, crate::proofs::Classed::object_classed, crate::proofs::Classed::nothing_classed))]
pub fn class_of(store: &Store<'_>, word: Word) -> ClassId
    ensures { HasClassOf store.now word result }
{
    match word {
        Word::Integer(_number) => 13,
        Word::Character(_code) => 5,
        Word::Symbol(_name) => 10,
        Word::Unnamed {
            expansion: _expansion,
            serial: _serial,
        } => 10,
        Word::True => 10,
        Word::Nil => 11,
        Word::Object(_number) => match store.fetch(word) {
            Some(object) => class_of_object(object),
            None => 0,
        },
    }
}

// The class of an object.
fn class_of_object(object: &Object<'_>) -> ClassId
    ensures { IsClassed object.now result }
{
    match object {
        Object::Cons(_car, _cdr) => 9,
        Object::Text(_bytes) => 4,
        Object::Vector(_elements) => 3,
        Object::Instance(instance) => instance.class,
        Object::Function(_procedure) => 6,
        Object::Closure(_procedure, _captured) => 6,
        Object::Generic(_generic) => 7,
        Object::Class(class) => class_of_class(*class),
        Object::InputStream => 14,
        Object::OutputStream => 14,
        Object::FreshSymbol(_serial) => 10,
    }
}

// The class of a class: those of a file, and the two for standard objects, are standard classes.
#[tactic(auto, using(crate::proofs::Classed::built_in_classed, crate::proofs::Classed::standard_classed))]
fn class_of_class(class: ClassId) -> ClassId
    ensures { result ≡ meaning.class_of_object (Some (class_object class)) }
{
    if class <= 16 { 15 } else { 16 }
}
