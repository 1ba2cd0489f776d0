// What a word stands for at its outermost.

ghost use Rattle.std.specs.Prelude.{◌≡◌, ◌%◌, pos, int_div};
ghost use Rattle.base.specs.Arithmetic.{signed};
ghost use Rattle.mid_told.specs.Parts.{part_in, object_part, immediate_part, part_size, atom_size};

use crate::memory::{header_of, second_of, word_in};
use mid_arena::words::{CONS, FRESH, NIL, OBJECT, STRING, SYMBOL, VECTOR};

/// An integer, a character, a symbol by the bytes of its name, a symbol that was made by its serial, or the bytes of a string. Bytes
/// are told by the place of their first word and by their number.
#[derive(Clone, Copy)]
pub enum Atom {
    Int(i32),
    Char(u8),
    Name { at: u32, count: u32 },
    Fresh(u32),
    Str { at: u32, count: u32 },
}

/// What has no parts, the elements of a vector by the place of their first word and by their number, the empty list, a cons by its two
/// words, or what is no datum.
#[derive(Clone, Copy)]
pub enum Part {
    Atom(Atom),
    Vector { at: u32, count: u32 },
    Nil,
    Cons { car: u32, cdr: u32 },
    NoDatum,
}

/// The part of a word.
#[tactic(auto, unfolding(crate::specs::Parts::part_in))]
pub fn part_of(words: &[u32], word: u32) -> Part
    ensures { result ≡ part_in words.now word }
{
    let tag = word % 4;
    if tag == 0 {
        Part::Atom(Atom::Int(integer_of(word)))
    } else if tag == CONS {
        Part::Cons {
            car: word_in(words, word as usize / 4),
            cdr: second_of(words, word),
        }
    } else if tag == OBJECT {
        let header = header_of(words, word);
        object_part(header, second_of(words, word), word / 4 + 2)
    } else {
        immediate_part(word)
    }
}

// An integer stands in the upper 30 bits.
fn integer_of(word: u32) -> i32
    ensures { result ≡ int_div (signed word) (pos 4) }
{
    word.cast_signed() / 4
}

// A character stands above the lowest byte.
fn immediate_part(word: u32) -> Part
    ensures { result ≡ immediate_part word }
{
    if word == NIL {
        Part::Nil
    } else {
        Part::Atom(Atom::Char((word / 256 % 256) as u8))
    }
}

// Objects and symbols are told apart by their headers; behind the word that follows stands what is inside.
fn object_part(header: u32, second: u32, inside: u32) -> Part
    ensures { result ≡ object_part header second inside }
{
    let at = inside;
    let count = second / 4;
    if header == STRING {
        Part::Atom(Atom::Str { at, count })
    } else if header == VECTOR {
        Part::Vector { at, count }
    } else if header == SYMBOL {
        Part::Atom(Atom::Name { at, count })
    } else if header == FRESH {
        Part::Atom(Atom::Fresh(count))
    } else {
        Part::NoDatum
    }
}

/// How much a part takes of what is left, without what is inside it.
pub fn part_size(part: Part) -> usize
    ensures { result ≡ part_size part }
{
    match part {
        Part::Atom(atom) => atom_size(atom),
        Part::Vector { .. } | Part::Nil | Part::Cons { .. } => 1,
        Part::NoDatum => 0,
    }
}

fn atom_size(atom: Atom) -> usize
    ensures { result ≡ atom_size atom }
{
    match atom {
        Atom::Int(_) | Atom::Char(_) | Atom::Name { .. } | Atom::Fresh(_) => 1,
        Atom::Str { count, .. } => 1 + (count as usize).div_ceil(4),
    }
}
