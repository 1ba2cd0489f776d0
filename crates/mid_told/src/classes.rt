// The class of a value in words, and the names of classes.

ghost use Rattle.std.specs.Prelude.{◌≡◌, ◌++◌, slice_get, OnOk};
ghost use Rattle.lang_meaning.specs.Primitives.{class_name};
ghost use Rattle.mid_told.specs.Reading.{header_in};
ghost use Rattle.mid_told.specs.Classes.{class_in, class_of_object_in, class_of_class, class_of_header, number_in, which_class_in};

use crate::memory::{header_of, second_of};
use base::{Bytes, Names, NoMemory};
use lang_meaning::{ClassId, ClassRows};
use mid_arena::words::{
    CLASS, CONS, FUNCTION, GENERIC, INPUT, NIL, OBJECT, OUTPUT, STRING, VECTOR,
};

// The classes of values that are no instances, by their numbers.
const VECTORS: ClassId = 3;

const STRINGS: ClassId = 4;

const CHARACTERS: ClassId = 5;

const FUNCTIONS: ClassId = 6;

const GENERIC_FUNCTIONS: ClassId = 7;

const CONSES: ClassId = 9;

const SYMBOLS: ClassId = 10;

const NULL: ClassId = 11;

const INTEGERS: ClassId = 13;

const STREAMS: ClassId = 14;

const BUILT_IN_CLASSES: ClassId = 15;

const STANDARD_CLASSES: ClassId = 16;

/// The class of the value of a word.
#[tactic(auto, unfolding(crate::specs::Classes::class_in))]
pub fn class_of(words: &[u32], word: u32) -> ClassId
    ensures { result ≡ class_in words.now word }
{
    let tag = word % 4;
    if tag == 0 {
        INTEGERS
    } else if tag == CONS {
        CONSES
    } else if tag == OBJECT {
        class_of_object(words, word)
    } else if word == NIL {
        NULL
    } else {
        CHARACTERS
    }
}

// An instance points to its class.
fn class_of_object(words: &[u32], word: u32) -> ClassId
    ensures { result ≡ class_of_object_in words.now word (header_in words.now word) }
{
    let header = header_of(words, word);
    if header % 16 == 3 {
        number_of(words, second_of(words, word))
    } else if header == CLASS {
        class_of_class(number_of(words, word))
    } else {
        class_of_header(header)
    }
}

// The classes up to the class of classes that programs define are built in.
fn class_of_class(class: ClassId) -> ClassId
    ensures { result ≡ class_of_class class }
{
    if class <= STANDARD_CLASSES {
        BUILT_IN_CLASSES
    } else {
        STANDARD_CLASSES
    }
}

// Other objects are told apart by their headers; symbols have the two that are left.
fn class_of_header(header: u32) -> ClassId
    ensures { result ≡ class_of_header header }
{
    if header == STRING {
        STRINGS
    } else if header == VECTOR {
        VECTORS
    } else if header == FUNCTION {
        FUNCTIONS
    } else if header == GENERIC {
        GENERIC_FUNCTIONS
    } else if header == INPUT || header == OUTPUT {
        STREAMS
    } else {
        SYMBOLS
    }
}

// The number that stands behind the header of a class.
fn number_of(words: &[u32], word: u32) -> ClassId
    ensures { result ≡ number_in words.now word }
{
    second_of(words, word) as usize / 4
}

/// Which class the value of a word is, if it is one.
pub fn which_class(words: &[u32], word: u32) -> Option<ClassId>
    ensures { result ≡ which_class_in words.now word (header_in words.now word) }
{
    if header_of(words, word) == CLASS {
        Some(number_of(words, word))
    } else {
        None
    }
}

/// Appends the name of a class; nothing where there is none.
pub fn append_class_name(
    names: &Names,
    classes: &ClassRows,
    class: ClassId,
    out: &mut Bytes,
) -> Result<(), NoMemory>
    ensures { OnOk result (out.new ≡ out.old ++ class_name names.now (slice_get classes.now class)) }
{
    match classes.get(class) {
        Some(row) => match names.text(row.name) {
            Some(text) => out.append(text),
            None => Ok(()),
        },
        None => Ok(()),
    }
}
