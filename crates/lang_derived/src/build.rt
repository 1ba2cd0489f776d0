// A right side becomes a datum: what the step writes or makes has the place of the form.

ghost use Rattle.std.specs.Prelude.{◌≡◌, ◌≤◌, length, IfOk};
ghost use Rattle.base.specs.Data.{item, items_of, symbol};
ghost use Rattle.base.specs.Names.{Extends};
ghost use Rattle.lang_derived.specs.Pieces.{word, pieces_of, in_parens, Builds, BuildsAll};

use crate::piece::{Piece, PieceKind, PieceList};
use base::{Datum, DatumList, Kind, Names, NoMemory, Place, Symbol};
use std::alloc::Global;

// The symbol of a text.
fn symbol(names: &mut Names, place: Place, text: &[u8]) -> Result<Datum, NoMemory>
    requires { length text.now ≤ 263 }
    ensures builds { IfOk result (λ datum. Builds names.new place (word text.now) datum) }
    ensures names { Extends names.old names.new }
{
    let name = names.intern(text)?;
    Ok(Datum::new(place, Kind::Sym(Symbol::Named(name))))
}

// Data in parentheses.
fn parenthesized(place: Place, items: DatumList) -> Datum
    ensures { result ≡ item place (in_parens (items_of items)) }
{
    if items.len() == 0 {
        Datum::new(place, Kind::Nil)
    } else {
        Datum::new(place, Kind::List { items, tail: None })
    }
}

/// The datum of a part of a right side, for a form at that place. Names may have been added, and
/// those that were there keep their texts, after `NoMemory` too.
#[cycle(build)]
pub(crate) fn build(
    alloc: Global,
    names: &mut Names,
    place: Place,
    piece: &Piece,
) -> Result<Datum, NoMemory>
    ensures builds { IfOk result (λ datum. Builds names.new place piece.now datum) }
    ensures names { Extends names.old names.new }
{
    match &piece.kind {
        PieceKind::Word(text) => symbol(names, place, text),
        PieceKind::Named(text) => symbol(names, place, text.as_slice()),
        PieceKind::Made(serial) => Ok(made(place, *serial)),
        PieceKind::Taken(datum) => datum.copy(alloc),
        PieceKind::Parens(pieces) => {
            let items = build_all(alloc, names, place, pieces)?;
            Ok(parenthesized(place, items))
        }
    }
}

// The new symbol of a serial.
fn made(place: Place, serial: u64) -> Datum
    ensures { result ≡ item place (symbol (Symbol.Fresh 0 serial)) }
{
    let expansion = 0;
    Datum::new(place, Kind::Sym(Symbol::Fresh { expansion, serial }))
}

// The data of parts.
#[cycle(build)]
#[tactic(auto, using(crate::proofs::Building::piece_in_smaller))]
fn build_all(
    alloc: Global,
    names: &mut Names,
    place: Place,
    pieces: &PieceList,
) -> Result<DatumList, NoMemory>
    ensures builds { IfOk result (λ items. BuildsAll names.new place (pieces_of pieces.now) (items_of items)) }
    ensures names { Extends names.old names.new }
{
    let mut items = DatumList::new(alloc);
    for piece in pieces.as_slice() {
        items.push(build(alloc, names, place, piece)?)?;
    }
    Ok(items)
}
