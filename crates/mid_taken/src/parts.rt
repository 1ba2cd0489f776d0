// What a word stands for at its outermost.

ghost use Rattle.std.specs.Prelude.{◌≡◌, ◌%◌, ◌≤◌, ◌<◌, None};
ghost use Rattle.mid_arena.specs.Tags.{cons_tag, object_tag};
ghost use Rattle.mid_taken.specs.Index.{symbol_at};
ghost use Rattle.mid_taken.specs.Parts.{IsPartAt, part_size};

use crate::memory::{Memory, word_in};
use base::Symbol;
use mid_arena::words::{CONS, FRESH, NIL, OBJECT, STRING, VECTOR};

/// An integer, a character, a symbol, the bytes of a string and the elements of a vector by the place of their first word and by
/// their number, the empty list, a cons by its two words, or what is no datum.
#[derive(Clone, Copy)]
pub enum Part {
    Int(i32),
    Char(u8),
    Sym(Symbol),
    Str { at: u32, count: u32 },
    Vector { at: u32, count: u32 },
    Nil,
    Cons { car: u32, cdr: u32 },
    NoDatum,
}

/// The part of a word.
pub fn part_of(from: &Memory, word: u32) -> Part
    ensures { IsPartAt from.now word result }
{
    let tag = word % 4;
    if tag == 0 {
        int_part(word)
    } else if tag == CONS {
        cons_part(from, word)
    } else if tag == OBJECT {
        object_part(from, word)
    } else {
        immediate_part(word)
    }
}

// An integer stands in the upper 30 bits.
fn int_part(word: u32) -> Part
    requires { word % 4 ≡ 0 }
    ensures { (from : Memory) → IsPartAt from word result }
{
    Part::Int(word.cast_signed() / 4)
}

// A character stands above the lowest byte.
fn immediate_part(word: u32) -> Part
    requires { word % 4 ≡ 3 }
    ensures { (from : Memory) → IsPartAt from word result }
{
    if word == NIL {
        Part::Nil
    } else {
        Part::Char((word / 256 % 256) as u8)
    }
}

fn cons_part(from: &Memory, word: u32) -> Part
    requires { word % 4 ≡ cons_tag }
    ensures { IsPartAt from.now word result }
{
    let at = word as usize / 4;
    Part::Cons {
        car: word_in(from.words, at),
        cdr: word_in(from.words, at + 1),
    }
}

// Symbols that were there before the run are found by their words.
fn object_part(from: &Memory, word: u32) -> Part
    requires { word % 4 ≡ object_tag }
    ensures { IsPartAt from.now word result }
{
    match from.symbols.find(word) {
        Some(symbol) => Part::Sym(symbol),
        None => new_object_part(from, word),
    }
}

// All others are told apart by their headers.
fn new_object_part(from: &Memory, word: u32) -> Part
    requires tag { word % 4 ≡ object_tag }
    requires no_symbol { symbol_at word from.now.symbols.now ≡ None }
    ensures { IsPartAt from.now word result }
{
    let at = word / 4;
    let header = word_in(from.words, at as usize);
    let second = word_in(from.words, at as usize + 1);
    if header == STRING {
        Part::Str {
            at: at + 2,
            count: second / 4,
        }
    } else if header == VECTOR {
        Part::Vector {
            at: at + 2,
            count: second / 4,
        }
    } else if header == FRESH {
        Part::Sym(Symbol::Fresh {
            expansion: from.expansion,
            serial: u64::from(second / 4),
        })
    } else {
        Part::NoDatum
    }
}

/// How much a part takes of what is left, without what is inside it.
pub fn part_size(part: Part) -> usize
    ensures { result ≡ part_size part }
{
    match part {
        Part::Int(_) | Part::Char(_) | Part::Sym(_) | Part::Nil => 1,
        Part::Vector { .. } | Part::Cons { .. } => 1,
        Part::Str { count, .. } => 1 + (count as usize).div_ceil(4),
        Part::NoDatum => 0,
    }
}
