// The data of an input, taken apart: each of these is none where the datum is another one.

use base::{Datum, ItemList, Kind, Name, Names, Symbol};
use std::str;
use test_rows::RowAnswer;

/// The items of a proper list.
pub fn items(datum: &Datum) -> Option<&[Datum]> {
    match &datum.kind {
        Kind::Nil => Some(&[]),
        Kind::List { items, tail: None } => Some(items.as_slice()),
        _ => None,
    }
}

/// The two items of a list of two.
pub fn pair(datum: &Datum) -> Option<(&Datum, &Datum)> {
    match items(datum)? {
        [first, second] => Some((first, second)),
        _ => None,
    }
}

/// The word that a proper list begins with, and the items behind it.
pub fn command<'a>(names: &'a Names, datum: &'a Datum) -> Option<(&'a str, &'a [Datum])> {
    match items(datum)? {
        [head, rest @ ..] => Some((word(names, head)?, rest)),
        [] => None,
    }
}

/// The name of a symbol.
pub fn name(datum: &Datum) -> Option<Name> {
    match &datum.kind {
        Kind::Sym(Symbol::Named(name)) => Some(*name),
        _ => None,
    }
}

/// The text of a symbol.
pub fn word<'a>(names: &'a Names, datum: &Datum) -> Option<&'a str> {
    text(names, name(datum)?)
}

/// The text of a name.
pub fn text(names: &Names, name: Name) -> Option<&str> {
    str::from_utf8(names.text(name)?).ok()
}

/// An integer from 0 on.
pub fn number(datum: &Datum) -> Option<u32> {
    match &datum.kind {
        Kind::Int(number) => u32::try_from(*number).ok(),
        _ => None,
    }
}

/// The same as a row's number.
pub fn id(datum: &Datum) -> Option<usize> {
    Some(number(datum)? as usize)
}

/// The rows' numbers that stand in these places.
pub fn ids(got: &mut RowAnswer, data: &[Datum]) -> Option<ItemList<usize>> {
    let mut list = ItemList::new(got.alloc);
    for datum in data {
        got.add(&mut list, id(datum)?);
    }
    Some(list)
}

/// What stands beside this word in a table.
pub fn found<T: Copy>(table: &[(&'static str, T)], word: &str) -> Option<T> {
    for (text, item) in table {
        if *text == word {
            return Some(*item);
        }
    }
    None
}
