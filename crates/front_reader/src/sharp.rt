// Spellings that begin with `#`.

ghost use Rattle.std.specs.Prelude.{◌≡◌, ◌≤◌, map};
ghost use Rattle.front_reader.specs.bridge.Lexemes as bridge;
ghost use Rattle.std.specs.Str.{bytes_eq};
ghost use Rattle.front_reader.specs.Characters as characters;

use crate::characters::folded;
use crate::lexeme::{Lexed, Lexeme};
use crate::opening::{Opening, Prefix};
use crate::token::{integer_lexed, is_integer, token_run};
use base::Reason;

/// Behind `#`.
#[tactic(auto, unfolding(crate::specs::bridge::Lexemes::sharp_lexed))]
pub(crate) fn sharp_lexed(rest: &[u8]) -> Lexed
    ensures { result ≡ bridge.sharp_lexed rest.now }
{
    match rest {
        [] => Lexed::Fault(0, Reason::BadSharp),
        [b'(', ..] => Lexed::Taken(2, Lexeme::Open(Opening::Vector)),
        [b'\'', ..] => Lexed::Taken(2, Lexeme::Open(Opening::Before(Prefix::Function))),
        [b'\\', behind @ ..] => character(behind),
        [letter, behind @ ..] => based(base_of(*letter), &behind[..token_run(behind)]),
    }
}

// The base of a letter, or 0, which has no digits.
fn base_of(byte: u8) -> u32
    ensures base { result ≡ bridge.base_of byte }
    ensures bound { result ≤ 16 }
{
    match byte {
        b'b' => 2,
        b'o' => 8,
        b'x' => 16,
        _ => 0,
    }
}

// Behind `#` and the letter of a base.
#[tactic(auto, using(crate::proofs::Taking::no_base))]
fn based(base: u32, word: &[u8]) -> Lexed
    requires { base ≤ 16 }
    ensures { result ≡ bridge.based_lexed base word.now }
{
    if is_integer(base, word) {
        integer_lexed(base, word.len() + 2, word)
    } else {
        Lexed::Fault(0, Reason::BadSharp)
    }
}

// Behind `#\`.
fn character(rest: &[u8]) -> Lexed
    ensures { result ≡ bridge.character_lexed rest.now }
{
    let run = token_run(rest);
    match rest.first() {
        None => Lexed::Fault(0, Reason::BadSharp),
        Some(_) if run > 1 => name(&rest[..run]),
        Some(byte) => Lexed::Taken(3, Lexeme::Character(*byte)),
    }
}

// Behind `#\`: the name of a character.
fn name(word: &[u8]) -> Lexed
    ensures { result ≡ bridge.name_lexed word.now }
{
    if is_folded(word, b"space") {
        Lexed::Taken(word.len() + 2, Lexeme::Character(b' '))
    } else if is_folded(word, b"newline") {
        Lexed::Taken(word.len() + 2, Lexeme::Character(b'\n'))
    } else {
        Lexed::Fault(0, Reason::BadSharp)
    }
}

// Whether a word is this one, in letters of either case.
fn is_folded(word: &[u8], name: &[u8]) -> bool
    ensures { result ≡ bytes_eq (map characters.folded word.now) name.now }
{
    if word.len() != name.len() {
        return false;
    }
    for (i, byte) in word.iter().enumerate() {
        if folded(*byte) != name[i] {
            return false;
        }
    }
    true
}
