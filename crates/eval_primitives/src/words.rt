// Words as what they are to be: integers, characters and symbols; and indices.

ghost use Rattle.std.specs.Prelude.{◌≡◌, ◌≤◌, ◌^◌, ℕ, List, IfSome};
ghost use Rattle.lang_meaning.specs.Primitives.{as_integer, as_character, length_of, byte_of};
ghost use Rattle.eval_store.specs.Words.{value_of_word};
ghost use Rattle.eval_primitives.specs.Words.{HasSymbol, IsIndex};

use crate::answer::Answer;
use crate::expected::{INTEGER, PROGRAM_ERROR};
use crate::objects::fresh_of;
use base::Name;
use eval_store::{Store, Word};

/// How a symbol is spelt: by a name, `t` and `nil` among them, or by the serial of a new one.
#[derive(Clone, Copy)]
pub(crate) enum Spelt {
    Named(Name),
    Truth,
    Nothing,
    Fresh(u64),
}

/// The integer that a word is.
pub(crate) fn integer_of(word: Word) -> Option<i32>
    ensures { (names : List (List ℕ)) → as_integer (value_of_word names word) ≡ result }
{
    match word {
        Word::Integer(number) => Some(number),
        _ => None,
    }
}

/// The character that a word is.
pub(crate) fn character_of(word: Word) -> Option<u8>
    ensures { (names : List (List ℕ)) → as_character (value_of_word names word) ≡ result }
{
    match word {
        Word::Character(code) => Some(code),
        _ => None,
    }
}

/// The symbol that a word is.
#[tactic(auto, using(crate::proofs::Seeing::fresh_symbol_there, crate::proofs::Seeing::no_fresh_symbol))]
pub(crate) fn symbol_of(store: &Store<'_>, word: Word) -> Option<Spelt>
    ensures { HasSymbol store.now word result }
{
    match word {
        Word::Symbol(name) => Some(Spelt::Named(name)),
        Word::True => Some(Spelt::Truth),
        Word::Nil => Some(Spelt::Nothing),
        Word::Unnamed {
            expansion: _,
            serial,
        } => Some(Spelt::Fresh(serial)),
        Word::Object(_number) => match fresh_of(store, word) {
            Some(serial) => Some(Spelt::Fresh(serial)),
            None => None,
        },
        Word::Integer(_) => None,
        Word::Character(_) => None,
    }
}

/// The number that an integer is, if it is not negative.
#[tactic(auto, using(crate::proofs::Indexing::natural_is, crate::proofs::Calculating::abs_fits, crate::proofs::Indexing::negative_is))]
pub(crate) fn natural(number: i32) -> Option<usize>
    ensures value { length_of number ≡ result }
    ensures small { IfSome result (λ n. n ≤ 2 ^ 31) }
{
    if number >= 0 {
        Some(number.unsigned_abs() as usize)
    } else {
        None
    }
}

/// The byte that an integer is.
#[tactic(auto, using(crate::proofs::Indexing::byte_there, crate::proofs::Indexing::byte_past, crate::proofs::Indexing::no_byte))]
pub(crate) fn byte(number: i32) -> Option<u8>
    ensures { byte_of number ≡ result }
{
    match natural(number) {
        Some(code) => { if code <= 255 { Some(code as u8) } else { None } }
        None => None,
    }
}

/// A place below a count.
#[tactic(auto, using(crate::proofs::Indexing::place_there, crate::proofs::Indexing::place_past, crate::proofs::Indexing::place_negative, crate::proofs::Indexing::no_place))]
pub(crate) fn index_in(word: Word, count: usize) -> Result<usize, Answer>
    ensures { IsIndex word count result }
{
    let Some(number) = integer_of(word) else {
        return Err(Answer::DomainError(word, INTEGER));
    };
    match natural(number) {
        Some(at) => {
            if at < count {
                Ok(at)
            } else {
                Err(Answer::Fails(PROGRAM_ERROR))
            }
        }
        None => Err(Answer::Fails(PROGRAM_ERROR)),
    }
}
