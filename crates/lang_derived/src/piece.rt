// Parts of right sides: what a step writes, makes and takes over.

ghost use Rattle.std.specs.Prelude.{◌≡◌, ◌≤◌, ◌+◌, ◌++◌, ◌∷◌, [], length, IfOk, OnOk, IsOkAnd};
ghost use Rattle.lang_derived.specs.Pieces.{word, made, taken, listed, form, all_taken};
ghost use Rattle.lang_derived.specs.model.PieceView.{view_piece};

use crate::right::later;
use base::{Bytes, Datum, ItemList, NoMemory};
use std::alloc::Global;
use std::marker::Model;

/// A part of a right side; a text has at most the 263 bytes of a name. Contracts see it as the
/// `Piece` of the table of derived forms.
#[derive(Drop)]
#[cycle(piece)]
pub(crate) struct Piece<'a> {
    pub(crate) kind: PieceKind<'a>,
}

/// The symbol of a text, of a text that was put together, or of a serial; a part of the form; or
/// parts in parentheses.
#[derive(Drop)]
#[cycle(piece)]
pub(crate) enum PieceKind<'a> {
    Word(&'static [u8]),
    Named(Bytes),
    Made(u64),
    Taken(&'a Datum),
    Parens(PieceList<'a>),
}

/// Parts of right sides.
pub(crate) type PieceList<'a> = ItemList<Piece<'a>>;

impl<'a> Model for Piece<'a> {
    ghost use Rattle.lang_derived.specs.Pieces.{Piece as PieceOf};

    ghost Value = { PieceOf };

    ghost use Rattle.lang_derived.specs.model.PieceCode.{piece_code};

    ghost coded = { piece_code };

    ghost use Rattle.lang_derived.specs.model.PieceView.{view_piece};

    ghost view = { λ p. view_piece p.kind };

    ghost use Rattle.std.specs.Prelude.{◌≤◌};
    ghost use Rattle.lang_derived.specs.model.PieceView.{text_length};

    ghost invariant = { λ p. text_length p.kind ≤ 263 };

    ghost use Rattle.lang_derived.specs.Pieces.{piece_size};

    ghost size = { piece_size };

    ghost use Rattle.lang_derived.specs.model.PieceFalls.{falls};

    ghost size_decreases = { λ c h. falls c.kind };
}

/// The symbol of a text.
pub(crate) fn word<'a>(text: &'static [u8]) -> Piece<'a>
    requires { length text.now ≤ 263 }
    ensures { result ≡ word text.now }
{
    Piece {
        kind: PieceKind::Word(text),
    }
}

/// The symbol of a text of the table, where no name is longer than 263 bytes.
pub(crate) fn short_word<'a>(text: &'static [u8]) -> Result<Piece<'a>, NoMemory>
    ensures { IfOk result (λ piece. piece ≡ word text.now) }
{
    if text.len() > 263 {
        return Err(NoMemory);
    }
    Ok(word(text))
}

/// The symbol of a text that was put together.
pub(crate) fn named<'a>(text: Bytes) -> Piece<'a>
    requires { length text ≤ 263 }
    ensures { result ≡ word text }
{
    Piece {
        kind: PieceKind::Named(text),
    }
}

/// The new symbol of a serial.
pub(crate) fn made<'a>(serial: u64) -> Piece<'a>
    ensures { result ≡ made serial }
{
    Piece {
        kind: PieceKind::Made(serial),
    }
}

/// The new symbol of a serial so many later.
pub(crate) fn made_later<'a>(serial: u64, by: u64) -> Result<Piece<'a>, NoMemory>
    ensures { IfOk result (λ piece. piece ≡ made (serial + by)) }
{
    Ok(made(later(serial, by)?))
}

/// A part of the form.
pub(crate) fn taken<'a>(datum: &'a Datum) -> Piece<'a>
    ensures { result ≡ taken datum.now }
{
    Piece {
        kind: PieceKind::Taken(datum),
    }
}

/// Parts in parentheses.
pub(crate) fn parens<'a>(pieces: PieceList<'a>) -> Piece<'a>
    ensures { result ≡ listed pieces.entry }
{
    Piece {
        kind: PieceKind::Parens(pieces),
    }
}

/// `()`, which is nil.
pub(crate) fn nil<'a>(alloc: Global) -> Piece<'a>
    ensures { result ≡ listed [] }
{
    parens(PieceList::new(alloc))
}

/// Appends a part, where it was made.
pub(crate) fn push_made<'a>(
    list: &mut PieceList<'a>,
    made: Result<Piece<'a>, NoMemory>,
) -> Result<(), NoMemory>
    ensures { OnOk result (IsOkAnd made.entry (λ piece. list.new ≡ list.old ++ piece ∷ [])) }
{
    list.push(made?)
}

/// One part.
pub(crate) fn one<'a>(alloc: Global, first: Piece<'a>) -> Result<PieceList<'a>, NoMemory>
    ensures { IfOk result (λ list. list ≡ first.entry ∷ []) }
{
    let mut list = PieceList::new(alloc);
    list.push(first)?;
    Ok(list)
}

/// A form with one part.
pub(crate) fn form_one<'a>(
    alloc: Global,
    name: &'static [u8],
    first: Piece<'a>,
) -> Result<Piece<'a>, NoMemory>
    requires { length name.now ≤ 263 }
    ensures { IfOk result (λ piece. piece ≡ form name.now (first.entry ∷ [])) }
{
    form_list(alloc, name, one(alloc, first)?)
}

/// A form with these parts.
pub(crate) fn form_list<'a>(
    alloc: Global,
    name: &'static [u8],
    parts: PieceList<'a>,
) -> Result<Piece<'a>, NoMemory>
    requires { length name.now ≤ 263 }
    ensures { IfOk result (λ piece. piece ≡ form name.now parts.entry) }
{
    let Ok(mut list) = one(alloc, word(name)) else {
        drop(parts);
        return Err(NoMemory);
    };
    list.append_list(parts)?;
    Ok(parens(list))
}

/// A form with two parts.
pub(crate) fn form_two<'a>(
    alloc: Global,
    name: &'static [u8],
    first: Piece<'a>,
    second: Piece<'a>,
) -> Result<Piece<'a>, NoMemory>
    requires { length name.now ≤ 263 }
    ensures { IfOk result (λ piece. piece ≡ form name.now (first.entry ∷ second.entry ∷ [])) }
{
    let Ok(mut parts) = one(alloc, first) else {
        drop(second);
        return Err(NoMemory);
    };
    parts.push(second)?;
    form_list(alloc, name, parts)
}

/// Appends parts of the form, in their order.
pub(crate) fn push_taken<'a>(list: &mut PieceList<'a>, items: &'a [Datum]) -> Result<(), NoMemory>
    ensures { OnOk result (list.new ≡ list.old ++ all_taken items.now) }
{
    for item in items {
        list.push(taken(item))?;
    }
    Ok(())
}
