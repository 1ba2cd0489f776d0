// Parts of one value, and how many elements it has.

ghost use Rattle.std.specs.Prelude.{[], ◌∷◌, IfOk};
ghost use Rattle.eval_primitives.specs.Groups.{part_of, length_primitive_of};
ghost use Rattle.eval_primitives.specs.Answers.{IsTold, IsCount};
ghost use Rattle.eval_primitives.specs.Reading.{IsRead};
ghost use Rattle.lang_meaning.specs.declared.primitive.Primitive.TheVariants as p;

use crate::answer::Answer;
use crate::expected::{CHARACTER, CONS, INTEGER, STANDARD_OBJECT, STRING, SYMBOL, VECTOR};
use crate::group::{Length, PartAccess};
use crate::objects::{cons_of, instance_of, string_of, vector_of};
use crate::words::{Spelt, byte, character_of, integer_of, symbol_of};
use base::NoMemory;
use eval_store::{Store, Word};

/// A part of a value.
#[tactic(auto, using(crate::proofs::Telling::told_read))]
pub(crate) fn part(store: &Store<'_>, which: PartAccess, word: Word) -> Answer
    ensures { IsRead (part_of which) (word ∷ []) store.now result }
{
    match which {
        PartAccess::Car => car(store, word),
        PartAccess::Cdr => cdr(store, word),
        PartAccess::CharCode => char_code(word),
        PartAccess::CodeChar => code_char(word),
        PartAccess::SymbolSerial => symbol_serial(store, word),
    }
}

// The first part of a cons.
#[tactic(auto, using(crate::proofs::Telling::car_there, crate::proofs::Telling::no_car))]
fn car(store: &Store<'_>, word: Word) -> Answer
    ensures { IsRead p.Car (word ∷ []) store.now result }
{
    match cons_of(store, word) {
        Some((car, _)) => Answer::Gives(car),
        None => Answer::DomainError(word, CONS),
    }
}

// The second part of a cons.
#[tactic(auto, using(crate::proofs::Telling::cdr_there, crate::proofs::Telling::no_cdr))]
fn cdr(store: &Store<'_>, word: Word) -> Answer
    ensures { IsRead p.Cdr (word ∷ []) store.now result }
{
    match cons_of(store, word) {
        Some((_, cdr)) => Answer::Gives(cdr),
        None => Answer::DomainError(word, CONS),
    }
}

// The byte of a character.
#[tactic(auto, using(crate::proofs::Telling::code_there, crate::proofs::Telling::no_code))]
fn char_code(word: Word) -> Answer
    ensures { IsTold p.CharCode (word ∷ []) result }
{
    match character_of(word) {
        Some(code) => Answer::Gives(Word::Integer(i32::from(code))),
        None => Answer::DomainError(word, CHARACTER),
    }
}

// The character of a byte.
#[tactic(auto, using(crate::proofs::Telling::char_there, crate::proofs::Telling::no_char, crate::proofs::Telling::no_number))]
fn code_char(word: Word) -> Answer
    ensures { IsTold p.CodeChar (word ∷ []) result }
{
    let Some(number) = integer_of(word) else {
        return Answer::DomainError(word, INTEGER);
    };
    match byte(number) {
        Some(code) => Answer::Gives(Word::Character(code)),
        None => Answer::DomainError(word, INTEGER),
    }
}

// The serial of a symbol that no text names.
#[tactic(auto, using(crate::proofs::Telling::serial_there, crate::proofs::Telling::named_serial, crate::proofs::Telling::truth_serial, crate::proofs::Telling::nil_serial, crate::proofs::Telling::no_symbol))]
fn symbol_serial(store: &Store<'_>, word: Word) -> Answer
    ensures { IsRead p.SymbolSerial (word ∷ []) store.now result }
{
    match symbol_of(store, word) {
        Some(Spelt::Fresh(serial)) => Answer::Gives(Word::Integer((serial % 536_870_912) as i32)),
        Some(Spelt::Named(_)) => Answer::Gives(Word::Nil),
        Some(Spelt::Truth) => Answer::Gives(Word::Nil),
        Some(Spelt::Nothing) => Answer::Gives(Word::Nil),
        None => Answer::DomainError(word, SYMBOL),
    }
}

#[tactic(auto, using(crate::proofs::Telling::length_of_string, crate::proofs::Telling::length_of_vector, crate::proofs::Telling::length_of_slots, crate::proofs::Telling::no_string, crate::proofs::Telling::no_vector, crate::proofs::Telling::no_slots))]
/// How many elements a value has. One that has more than an integer can say is answered as a lack of memory.
pub(crate) fn length(store: &Store<'_>, which: Length, word: Word) -> Result<Answer, NoMemory>
    ensures { IfOk result (IsRead (length_primitive_of which) (word ∷ []) store.now) }
{
    match which {
        Length::String => match string_of(store, word) {
            Some(bytes) => counted(bytes.len()),
            None => Ok(Answer::DomainError(word, STRING)),
        },
        Length::Vector => match vector_of(store, word) {
            Some(elements) => counted(elements.len()),
            None => Ok(Answer::DomainError(word, VECTOR)),
        },
        Length::Slots => match instance_of(store, word) {
            Some(instance) => counted(instance.slots.len()),
            None => Ok(Answer::DomainError(word, STANDARD_OBJECT)),
        },
    }
}

/// A count as an integer.
#[tactic(auto, using(crate::proofs::Telling::count_told))]
pub(crate) fn counted(count: usize) -> Result<Answer, NoMemory>
    ensures { IfOk result (IsCount count) }
{
    match i32::try_from(count) {
        Ok(number) => Ok(Answer::Gives(Word::Integer(number))),
        Err(_) => Err(NoMemory),
    }
}
