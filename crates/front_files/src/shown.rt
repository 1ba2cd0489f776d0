// The last form of a file in mode Show: its value is printed.

ghost use Rattle.std.specs.Prelude.{◌≡◌, [], ◌∷◌, length, Some, None, IfOk, MatchOption, codes};
ghost use Rattle.std.specs.List.{list_any};
ghost use Rattle.std.specs.Str.{bytes_eq};
ghost use Rattle.base.specs.Data.{item, string, items_of};
ghost use Rattle.base.specs.WellFormedData.{WellFormed};
ghost use Rattle.base.specs.Names.{Extends};
ghost use Rattle.front_files.specs.Shown.{first_text, head_text, not_shown, stays, named_at, list_at, IsPrinting, IsForm};

use crate::mode::Mode;
use base::{Bytes, Datum, DatumList, Kind, Name, Names, NoMemory, Place, Symbol, text_of};
use front_reader::Reader;
use std::alloc::Global;

// The name in front of data.
fn first_text<'n>(names: &'n Names, items: &[Datum]) -> Option<&'n [u8]>
    ensures { MatchOption result (first_text names.now (items_of items.now) ≡ None) (λ text. first_text names.now (items_of items.now) ≡ Some text.now) }
{
    match items {
        [] => None,
        [first, ..] => text_of(names, first),
    }
}

// The name at the head of a list.
fn head_text<'n>(names: &'n Names, datum: &Datum) -> Option<&'n [u8]>
    ensures { MatchOption result (head_text names.now datum.now ≡ None) (λ text. head_text names.now datum.now ≡ Some text.now) }
{
    match &datum.kind {
        Kind::List { items, .. } => first_text(names, items.as_slice()),
        Kind::Int(_) => None,
        Kind::Char(_) => None,
        Kind::Sym(_) => None,
        Kind::Str(_) => None,
        Kind::Vector(_) => None,
        Kind::Nil => None,
    }
}

// Whether it is the name of a form whose value is not printed.
fn is_not_shown(text: &[u8]) -> bool
    ensures { result ≡ list_any (bytes_eq text.now) not_shown }
{
    text == b"progn".as_slice()
        || text == b"defun".as_slice()
        || text == b"defglobal".as_slice()
        || text == b"defconstant".as_slice()
        || text == b"defdynamic".as_slice()
        || text == b"defmacro".as_slice()
        || text == b"defclass".as_slice()
        || text == b"defgeneric".as_slice()
        || text == b"defmethod".as_slice()
}

// Whether a form is a `progn` or defines something.
#[tactic(auto, unfolding(crate::specs::Shown::stays))]
fn stays(names: &Names, datum: &Datum) -> bool
    ensures { result ≡ stays names.now datum.now }
{
    match head_text(names, datum) {
        None => false,
        Some(text) => is_not_shown(text),
    }
}

// The symbol of a name, at that place.
fn named_at(place: Place, name: Name) -> Datum
    ensures { result ≡ named_at place name }
{
    Datum::new(place, Kind::Sym(Symbol::Named(name)))
}

// A list of data that has a first one, at that place.
fn list_at(place: Place, items: DatumList) -> Datum
    ensures { result ≡ list_at place items }
{
    Datum::new(place, Kind::List { items, tail: None })
}

// A list of one symbol, at that place.
fn call_at(alloc: Global, place: Place, name: Name) -> Result<Datum, NoMemory>
    ensures { IfOk result (λ d. d ≡ list_at place (named_at place name ∷ [])) }
{
    let mut items = DatumList::new(alloc);
    items.push(named_at(place, name))?;
    Ok(list_at(place, items))
}

// A string, at that place.
fn string_at(alloc: Global, place: Place, text: &[u8]) -> Result<Datum, NoMemory>
    ensures { IfOk result (λ d. d ≡ item place (string text.now)) }
{
    Ok(Datum::new(place, Kind::Str(Bytes::from_slice(alloc, text)?)))
}

// What stands in front of the form that is printed.
fn front_at(
    alloc: Global,
    place: Place,
    format: Name,
    standard_output: Name,
) -> Result<DatumList, NoMemory>
    ensures { IfOk result (λ ds. ds ≡ named_at place format ∷ list_at place (named_at place standard_output ∷ [])
        ∷ item place (string (codes "~S~%")) ∷ []) }
{
    let mut items = DatumList::new(alloc);
    items.push(named_at(place, format))?;
    items.push(call_at(alloc, place, standard_output)?)?;
    items.push(string_at(alloc, place, b"~S~%")?)?;
    Ok(items)
}

// The form that prints the value of a form, at its place.
fn printing(alloc: Global, names: &mut Names, form: Datum) -> Result<Datum, NoMemory>
    requires good { WellFormed (length names.old) form }
    ensures printing { IfOk result (IsPrinting names.new form) }
    ensures good { IfOk result (WellFormed (length names.new)) }
    ensures names { Extends names.old names.new }
{
    let place = form.place;
    let Ok(format) = names.intern(b"format") else {
        drop(form);
        return Err(NoMemory);
    };
    let Ok(standard_output) = names.intern(b"standard-output") else {
        drop(form);
        return Err(NoMemory);
    };
    let Ok(mut items) = front_at(alloc, place, format, standard_output) else {
        drop(form);
        return Err(NoMemory);
    };
    items.push(form)?;
    Ok(list_at(place, items))
}

/// The form that is judged for a datum, behind which the reader stands.
pub(crate) fn form_of(
    alloc: Global,
    names: &mut Names,
    reader: &Reader,
    datum: Datum,
    mode: Mode,
) -> Result<Datum, NoMemory>
    requires good { WellFormed (length names.old) datum }
    ensures form { IfOk result (IsForm names.new mode datum reader.now.rest) }
    ensures good { IfOk result (WellFormed (length names.new)) }
    ensures names { Extends names.old names.new }
{
    match mode {
        Mode::Run => Ok(datum),
        Mode::Show => {
            if !reader.last() || stays(names, &datum) {
                return Ok(datum);
            }
            printing(alloc, names, datum)
        }
    }
}
