// What a lexeme does with the data that are open.

ghost use Rattle.std.specs.Prelude.{◌≡◌, ◌≤◌, ◌<◌, ◌-◌, ℕ, List, [], ◌∷◌, ◌++◌, length, reverse, map, take, drop, Some, IfOk, OnOk, IsSome};
ghost use Rattle.base.specs.Data.{item};
ghost use Rattle.base.specs.model.DataView.{view_content};
ghost use Rattle.base.specs.Names.{IsTable};
ghost use Rattle.front_reader.specs.Atoms.{a_symbol};
ghost use Rattle.front_reader.specs.bridge.Lexemes.{atom_of};
ghost use Rattle.front_reader.specs.Characters.{folded as folded_of};
ghost use Rattle.front_reader.specs.Meanings.{number_in, atom_content, prefix_name, prefix_item, list_content};
ghost use Rattle.front_reader.specs.bridge.Machine.{LexemeState, LexemeStep, next, put, closing, dot_step, opening_step, atom_step, act, full_dot as full_dot_of};
ghost use Rattle.front_reader.specs.bridge.Turns.{IsLater, Turns, with_open, NameFits, open_state, IsContent, innermost_of, OpeningBegins};

use crate::chain::Chain;
use crate::characters::folded;
use crate::lexeme::Lexeme;
use crate::opening::{Opening, Prefix};
use crate::pending::Pending;
use crate::quoted::content;
use base::{
    Bytes, Datum, DatumList, Kind, Name, Names, NoMemory, Place, Reason, Refusal, Stop, Symbol,
};
use std::alloc::Global;

// How many openings may be open inside one another.
const MOST_OPEN: usize = 256;

fn refused(place: Place, reason: Reason) -> Stop
    ensures { result ≡ Stop.Refused (record { place = place; reason = reason }) }
{
    Stop::Refused(Refusal { place, reason })
}

fn push(pending: &mut Vec<Pending>, datum: Pending) -> Result<(), NoMemory>
    ensures { OnOk result (pending.new.items ≡ pending.old.items ++ datum ∷ []) }
{
    pending.push(datum)?;
    Ok(())
}

// The list of a prefix's symbol and a datum.
fn prefixed(alloc: Global, place: Place, name: Name, datum: Chain) -> Result<Chain, NoMemory>
    ensures { IfOk result (λ d. d ≡ prefix_item place name.0 datum) }
{
    let datum = datum.datum(alloc)?;
    let mut items = DatumList::new(alloc);
    let Ok(()) = items.push(Datum::new(place, Kind::Sym(Symbol::Named(name)))) else {
        drop(datum);
        return Err(NoMemory);
    };
    items.push(datum)?;
    let list = Datum::new(place, Kind::List { items, tail: None });
    Ok(Chain::new(alloc, list))
}

// The data of an open list or vector, with one more.
fn with_item(alloc: Global, items: DatumList, datum: Chain) -> Result<DatumList, NoMemory>
    ensures { IfOk result (λ more. more ≡ items ++ datum ∷ []) }
{
    let mut items = items;
    items.push(datum.datum(alloc)?)?;
    Ok(items)
}

/// A whole datum joins the innermost open one; a prefix makes a datum of it, which joins the next.
/// The answer is the datum where nothing is open.
pub(crate) fn put_datum(
    alloc: Global,
    pending: &mut Vec<Pending>,
    datum: Chain,
) -> Result<Option<Datum>, NoMemory>
    ensures { IfOk result (λ o. (s : LexemeState) → put s (reverse pending.old.items) datum ≡ next (with_open s o pending.new.items)) }
{
    let mut datum = datum;
    while let Some(open) = pending.pop() {
        let still_open = match open {
            Pending::AtPrefix(place, name) => {
                datum = prefixed(alloc, place, name, datum)?;
                continue;
            }
            Pending::InList(place, items) => {
                Pending::InList(place, with_item(alloc, items, datum)?)
            }
            Pending::InVector(place, items) => {
                Pending::InVector(place, with_item(alloc, items, datum)?)
            }
            Pending::AtDot(place, items, dot) => Pending::AtTail(place, items, dot, datum),
            Pending::AtTail(place, items, dot, tail) => {
                drop(datum);
                Pending::AtTail(place, items, dot, tail)
            }
        };
        push(pending, still_open)?;
        return Ok(None);
    }
    Ok(Some(datum.datum(alloc)?))
}

// A whole list without a dot.
fn proper_list(place: Place, items: DatumList) -> Datum
    ensures { result ≡ item place (list_content items) }
{
    if items.len() == 0 {
        Datum::new(place, Kind::Nil)
    } else {
        Datum::new(place, Kind::List { items, tail: None })
    }
}

// A `)` at this place.
fn close(alloc: Global, pending: &mut Vec<Pending>, place: Place) -> Result<Option<Datum>, Stop>
    ensures { Turns (λ s r. closing s place r (reverse pending.old.items)) result pending.new.items }
{
    let Some(open) = pending.pop() else {
        return Err(refused(place, Reason::StrayClose));
    };
    let datum = match open {
        Pending::AtPrefix(_, _) => return Err(refused(place, Reason::StrayClose)),
        Pending::AtDot(_, _, dot) => return Err(refused(dot, Reason::BadDot)),
        Pending::InList(at, items) => Chain::new(alloc, proper_list(at, items)),
        Pending::InVector(at, items) => Chain::new(alloc, Datum::new(at, Kind::Vector(items))),
        Pending::AtTail(at, items, _, tail) => tail.behind_dot(at, items)?,
    };
    Ok(put_datum(alloc, pending, datum)?)
}

// A dot at this place.
fn dot(pending: &mut Vec<Pending>, place: Place) -> Result<Option<Datum>, Stop>
    ensures { Turns (λ s r. dot_step s place r (reverse pending.old.items)) result pending.new.items }
{
    match pending.pop() {
        Some(Pending::InList(at, items)) => {
            if items.len() == 0 {
                return Err(refused(place, Reason::BadDot));
            }
            push(pending, Pending::AtDot(at, items, place))?;
            Ok(None)
        }
        other => {
            drop(other);
            Err(refused(place, Reason::BadDot))
        }
    }
}

// The place of the dot behind whose one datum nothing more may come.
fn full_dot(pending: &[Pending]) -> Option<Place>
    ensures { result ≡ full_dot_of (reverse pending.now) }
{
    match pending.last() {
        Some(Pending::AtTail(_, _, dot, _)) => Some(*dot),
        _ => None,
    }
}

// The name of a prefix's symbol.
fn prefix_text(prefix: Prefix) -> &'static [u8]
    ensures { result.now ≡ prefix_name prefix }
{
    match prefix {
        Prefix::Quote => b"quote",
        Prefix::Quasiquote => b"quasiquote",
        Prefix::Unquote => b"unquote",
        Prefix::UnquoteSplicing => b"unquote-splicing",
        Prefix::Function => b"function",
    }
}

// A datum that an opening begins.
fn opened(
    alloc: Global,
    names: &mut Names,
    place: Place,
    opening: Opening,
) -> Result<Pending, NoMemory>
    ensures opened { IfOk result (λ begun. (T : List (List ℕ)) → IsLater names.new T → OpeningBegins (number_in T) place opening begun) }
    ensures names { IsLater names.old names.new }
{
    let _ = names.len();
    match opening {
        Opening::List => Ok(Pending::InList(place, DatumList::new(alloc))),
        Opening::Vector => Ok(Pending::InVector(place, DatumList::new(alloc))),
        Opening::Before(prefix) => {
            let name = names.intern(prefix_text(prefix))?;
            Ok(Pending::AtPrefix(place, name))
        }
    }
}

// An opening at this place.
fn open(
    alloc: Global,
    pending: &mut Vec<Pending>,
    names: &mut Names,
    place: Place,
    opening: Opening,
) -> Result<Option<Datum>, Stop>
    ensures turns { (T : List (List ℕ)) → IsLater names.new T → Turns
        (λ s r. opening_step (number_in T) (open_state s pending.old.items) place r opening)
        result pending.new.items }
    ensures names { IsLater names.old names.new }
{
    let _ = names.len();
    if pending.len() >= MOST_OPEN {
        return Err(refused(place, Reason::NestTooDeep));
    }
    if let Some(dot) = full_dot(pending.as_slice()) {
        return Err(refused(dot, Reason::BadDot));
    }
    let begun = opened(alloc, names, place, opening)?;
    push(pending, begun)?;
    Ok(None)
}

// The bytes of a token with its letters folded.
fn folded_word(alloc: Global, word: &[u8]) -> Result<Bytes, NoMemory>
    ensures { IfOk result (λ bytes. bytes ≡ map folded_of word.now) }
{
    let mut bytes = Bytes::new(alloc);
    for byte in word {
        bytes.push(folded(*byte))?;
    }
    Ok(bytes)
}

// The symbol of this name, or nil.
fn symbol(names: &mut Names, name: &[u8]) -> Result<Kind, NoMemory>
    requires { length name.now ≤ 256 }
    ensures content { IfOk result (λ kind. (T : List (List ℕ)) → IsLater names.new T →
        atom_content (number_in T) (a_symbol name.now) ≡ Some (view_content kind)) }
    ensures names { IsLater names.old names.new }
{
    let _ = names.len();
    if name == b"nil".as_slice() {
        return Ok(Kind::Nil);
    }
    Ok(Kind::Sym(Symbol::Named(names.intern(name)?)))
}

// What a lexeme of these bytes spells.
fn kind(alloc: Global, names: &mut Names, word: &[u8], lexeme: Lexeme) -> Result<Kind, NoMemory>
    requires fits { NameFits lexeme word.now }
    requires some { IsSome (atom_of lexeme word.now) }
    ensures content { IfOk result (λ kind. (T : List (List ℕ)) → IsLater names.new T → IsContent
        (number_in T) (atom_of lexeme word.now) (Some kind)) }
    ensures names { IsLater names.old names.new }
{
    let _ = names.len();
    match lexeme {
        Lexeme::Close => unreachable!(),
        Lexeme::Dot => unreachable!(),
        Lexeme::Open(_) => unreachable!(),
        Lexeme::Integer(n) => Ok(Kind::Int(n)),
        Lexeme::Character(c) => Ok(Kind::Char(c)),
        Lexeme::Token => symbol(names, folded_word(alloc, word)?.as_slice()),
        Lexeme::Bar => symbol(names, content(alloc, inner(word))?.as_slice()),
        Lexeme::Text => Ok(Kind::Str(content(alloc, inner(word))?)),
    }
}

// The bytes between two quotes.
fn inner(word: &[u8]) -> &[u8]
    ensures { result.now ≡ take (length word.now - 2) (drop 1 word.now) }
{
    if word.len() < 2 {
        return &word[..0];
    }
    let end = word.len() - 1;
    &word[1..end]
}

// An atom at this place.
fn atom(
    alloc: Global,
    pending: &mut Vec<Pending>,
    names: &mut Names,
    place: Place,
    word: &[u8],
    lexeme: Lexeme,
) -> Result<Option<Datum>, Stop>
    requires fits { NameFits lexeme word.now }
    requires some { IsSome (atom_of lexeme word.now) }
    ensures turns { (T : List (List ℕ)) → IsLater names.new T → Turns
        (λ s r. atom_step (number_in T) (open_state s pending.old.items) place r (atom_of lexeme word.now))
        result pending.new.items }
    ensures names { IsLater names.old names.new }
{
    let _ = names.len();
    if let Some(dot) = full_dot(pending.as_slice()) {
        return Err(refused(dot, Reason::BadDot));
    }
    let kind = kind(alloc, names, word, lexeme)?;
    Ok(put_datum(alloc, pending, Chain::new(alloc, Datum::new(place, kind)))?)
}

/// A lexeme of these bytes at this place. The answer is the datum that is then whole and stands in
/// no other.
pub(crate) fn take_lexeme(
    alloc: Global,
    pending: &mut Vec<Pending>,
    names: &mut Names,
    place: Place,
    word: &[u8],
    lexeme: Lexeme,
) -> Result<Option<Datum>, Stop>
    requires { NameFits lexeme word.now }
    ensures turns { (T : List (List ℕ)) → IsLater names.new T → Turns
        (λ s r. act (number_in T) (open_state s pending.old.items) place r word.now lexeme)
        result pending.new.items }
    ensures names { IsLater names.old names.new }
{
    let _ = names.len();
    match lexeme {
        Lexeme::Close => close(alloc, pending, place),
        Lexeme::Dot => dot(pending, place),
        Lexeme::Open(opening) => open(alloc, pending, names, place, opening),
        _ => atom(alloc, pending, names, place, word, lexeme),
    }
}

/// The text ends: the place of the innermost opening, if there is one.
pub(crate) fn innermost(pending: &[Pending]) -> Option<Place>
    ensures { result ≡ innermost_of (reverse pending.now) }
{
    match pending.last()? {
        Pending::InList(place, _) => Some(*place),
        Pending::AtDot(place, _, _) => Some(*place),
        Pending::AtTail(place, _, _, _) => Some(*place),
        Pending::InVector(place, _) => Some(*place),
        Pending::AtPrefix(place, _) => Some(*place),
    }
}
