// What a word is at its outermost.

ghost use Rattle.std.specs.Prelude.{◌≡◌, ◌++◌, ℕ, List, OnOk};
ghost use Rattle.lang_taken.specs.Shapes.{own_size};
ghost use Rattle.lang_told.specs.Spelled.{atom_text};
ghost use Rattle.eval_told.specs.Parts.{IsPartAt, IsPartOf, shape_of_part};

use crate::names::text_of;
use base::{Bytes, Names, NoMemory};
use eval_store::{Object, Store, Word};
use lang_told::{append_character, append_fresh, append_integer, append_name, append_string};
use std::alloc::Global;

/// An integer, a character, a symbol by its name, one that an expansion made, one that the run made, the bytes of a string, the
/// elements of a vector, the empty list, a cons by its two words, or what is no datum.
#[derive(Clone, Copy)]
pub enum Part<'t> {
    Integer(i32),
    Character(u8),
    Named(&'t [u8]),
    Unnamed { expansion: u32, serial: u64 },
    New(u64),
    Text(&'t [u8]),
    Vector(&'t [Word]),
    Nil,
    Cons(Word, Word),
    NoDatum,
}

/// The part of a word.
pub fn part_of<'t>(names: &'t Names, store: &'t Store<'_>, word: Word) -> Part<'t>
    ensures { IsPartAt names.now store.now word result }
{
    match word {
        Word::Nil => Part::Nil,
        Word::True => Part::Named(b"t"),
        Word::Integer(number) => Part::Integer(number),
        Word::Character(code) => Part::Character(code),
        Word::Symbol(name) => Part::Named(text_of(names, name)),
        Word::Unnamed { expansion, serial } => Part::Unnamed { expansion, serial },
        Word::Object(_number) => match store.fetch(word) {
            Some(object) => part_of_object(object),
            None => Part::NoDatum,
        },
    }
}

fn part_of_object<'t>(object: &'t Object<'_>) -> Part<'t>
    ensures { IsPartOf object.now result }
{
    match object {
        Object::Cons(car, cdr) => Part::Cons(*car, *cdr),
        Object::Text(bytes) => Part::Text(bytes.as_slice()),
        Object::Vector(elements) => Part::Vector(elements.as_slice()),
        Object::FreshSymbol(serial) => Part::New(*serial),
        _ => Part::NoDatum,
    }
}

/// How much a part takes of what is left, without what is inside it.
pub fn part_size(part: Part<'_>) -> usize
    ensures { (names : List (List ℕ)) → result ≡ own_size (shape_of_part names part.entry) }
{
    match part {
        Part::Integer(_) | Part::Character(_) | Part::Named(_) | Part::Unnamed { .. } => 1,
        Part::New(_) | Part::Vector(_) | Part::Nil | Part::Cons(..) => 1,
        Part::Text(bytes) => 1 + bytes.len().div_ceil(4),
        Part::NoDatum => 0,
    }
}

/// Appends a part that has nothing inside; nothing of others.
pub fn append_atom(alloc: Global, part: Part<'_>, out: &mut Bytes) -> Result<(), NoMemory>
    ensures { OnOk result ((names : List (List ℕ)) → out.new ≡ out.old ++ atom_text (shape_of_part names part.entry)) }
{
    match part {
        Part::Integer(number) => append_integer(alloc, out, number),
        Part::Character(code) => append_character(out, code),
        Part::Named(name) => append_name(out, name),
        Part::Unnamed { serial, .. } | Part::New(serial) => append_fresh(alloc, out, serial),
        Part::Text(bytes) => append_string(out, bytes),
        Part::Nil => out.append(b"nil"),
        Part::Vector(_) | Part::Cons(..) | Part::NoDatum => Ok(()),
    }
}
