// The functions that set the places of operators (ISO/IEC 13816:2007, 14.1).

ghost use Rattle.std.specs.Prelude.{◌≡◌, ◌≤◌, length, Some, None, IfOk, IfSome, MatchOption};
ghost use Rattle.base.specs.DataNames.{text_of};
ghost use Rattle.lang_derived.specs.Asked.{setf_text, setter_of, setter};
ghost use Rattle.lang_derived.specs.Setters.{known_setter, setter_word};

use crate::piece::{Piece, named, word};
use base::{Bytes, Datum, Names, NoMemory, text_of};
use std::alloc::Global;

// The longest name that a name `(setf op)` is made of.
const MOST_BYTES: usize = 256;

// The function that sets a place of a list or an array.
fn known_setter(operator: &[u8]) -> Option<&'static [u8]>
    ensures text { MatchOption result (known_setter operator.now ≡ None) (λ text. known_setter operator.now ≡ Some text.now) }
    ensures short { IfSome result (λ text. length text.now ≤ 263) }
{
    if operator == b"car".as_slice() {
        return Some(b"%set-car");
    }
    if operator == b"cdr".as_slice() {
        return Some(b"%set-cdr");
    }
    if operator == b"elt".as_slice() {
        return Some(b"set-elt");
    }
    if operator == b"aref".as_slice() {
        return Some(b"set-aref");
    }
    if operator == b"garef".as_slice() {
        return Some(b"set-garef");
    }
    None
}

// The text `(setf op)`.
fn setf_text(alloc: Global, operator: &[u8]) -> Result<Bytes, NoMemory>
    requires { length operator.now ≤ 256 }
    ensures text { IfOk result (λ text. text ≡ setf_text operator.now) }
    ensures short { IfOk result (λ text. length text ≤ 263) }
{
    let mut text = Bytes::from_slice(alloc, b"(setf ")?;
    text.append(operator)?;
    text.append(b")")?;
    Ok(text)
}

// The symbol of the function that sets the place of an operator; none where there is no such name.
fn setter_of<'a>(alloc: Global, operator: &[u8]) -> Result<Option<Piece<'a>>, NoMemory>
    ensures { IfOk result (λ piece. piece ≡ setter_word (setter_of operator.now)) }
{
    if let Some(text) = known_setter(operator) {
        return Ok(Some(word(text)));
    }
    if operator.len() > MOST_BYTES {
        return Ok(None);
    }
    Ok(Some(named(setf_text(alloc, operator)?)))
}

/// The symbol of the function that sets the place of what may be an operator.
pub(crate) fn setter<'a>(
    alloc: Global,
    names: &Names,
    operator: &Datum,
) -> Result<Option<Piece<'a>>, NoMemory>
    ensures { IfOk result (λ piece. piece ≡ setter_word (setter (text_of names.now operator.now))) }
{
    match text_of(names, operator) {
        Some(text) => setter_of(alloc, text),
        None => Ok(None),
    }
}
