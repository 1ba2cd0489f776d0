// Quasiquotation (ISO/IEC 13816:2007, 16): the form that makes the datum of a template.

ghost use Rattle.std.specs.Prelude.{◌≡◌, ◌≤◌, ◌∷◌, [], length, Some, IfOk, OnOk, codes};
ghost use Rattle.lang_derived.specs.Templates.{only_of, splicing, last_unquoted};
ghost use Rattle.lang_derived.specs.Shown.{datum_shown, tail_shown};
ghost use Rattle.base.specs.Data.{items_of};
ghost use Rattle.base.specs.model.DataView.{tail_of};
ghost use Rattle.lang_derived.specs.Pieces.{form, taken, pieces_of};
ghost use Rattle.lang_derived.specs.Prefixes.{pieces_before};
ghost use Rattle.lang_derived.specs.Quotation.{kept_prefix, quoted_word, appended, template, tail_part, template_list, unquoted, spliced, part, parts};

use crate::piece::{Piece, PieceList, form_list, form_one, form_two, nil, push_made, taken, word};
use crate::right::later;
use crate::shape::{is_word, list_items};
use base::{Datum, Kind, Names, NoMemory};
use std::alloc::Global;

// `(%list (quote name) x)`
fn kept_prefix<'a>(
    alloc: Global,
    name: &'static [u8],
    datum: Piece<'a>,
) -> Result<Piece<'a>, NoMemory>
    requires { length name.now ≤ 263 }
    ensures { IfOk result (λ piece. piece ≡ kept_prefix name.now datum.entry) }
{
    let quoted = form_one(alloc, b"quote", word(name))?;
    form_two(alloc, b"%list", quoted, datum)
}

// `(quote d)`
fn quoted<'a>(alloc: Global, datum: &'a Datum) -> Result<Piece<'a>, NoMemory>
    ensures { IfOk result (λ piece. piece ≡ form (codes "quote") (taken datum.now ∷ [])) }
{
    form_one(alloc, b"quote", taken(datum))
}

// The datum behind the dot.
fn behind(tail: &Option<Box<Datum>>) -> Option<&Datum>
    ensures { tail_shown result ≡ tail_of tail.now }
{
    match tail {
        None => None,
        Some(datum) => Some(datum),
    }
}

// The one datum that is left, with no dot behind it.
fn only_of<'a>(items: &'a [Datum], tail: Option<&Datum>) -> Option<&'a Datum>
    ensures { datum_shown result ≡ only_of items.now (tail_shown tail.entry) }
{
    if tail.is_some() {
        return None;
    }
    match items {
        [datum] => Some(datum),
        _ => None,
    }
}

// The e of a last `unquote e`.
fn last_unquoted<'a>(names: &Names, first: &Datum, last: &'a Datum) -> Option<&'a Datum>
    ensures { datum_shown result ≡ last_unquoted names.now first.now (Some last.now) }
{
    if is_word(names, b"unquote", first) {
        Some(last)
    } else {
        None
    }
}

// The e where `unquote e` is all that is left, with no dot behind it.
fn unquote_left<'a>(
    names: &Names,
    first: &Datum,
    others: &'a [Datum],
    tail: Option<&Datum>,
) -> Option<&'a Datum>
    ensures { datum_shown result ≡ last_unquoted names.now first.now (only_of others.now (tail_shown tail.entry)) }
{
    match only_of(others, tail) {
        Some(last) => last_unquoted(names, first, last),
        None => None,
    }
}

// The e of `(unquote-splicing e)`.
fn splicing<'a>(names: &Names, datum: &'a Datum) -> Option<&'a Datum>
    ensures { datum_shown result ≡ splicing names.now datum.now }
{
    let Some([first, second]) = list_items(datum) else {
        return None;
    };
    if is_word(names, b"unquote-splicing", first) {
        Some(second)
    } else {
        None
    }
}

/// The form that makes the datum of a template, so many quasiquotations deep.
#[cycle(quotation)]
#[tactic(auto, unfolding(crate::specs::Quotation::template, crate::specs::Quotation::tail_part))]
pub(crate) fn template<'a>(
    alloc: Global,
    names: &Names,
    level: u64,
    datum: &'a Datum,
) -> Result<Piece<'a>, NoMemory>
    ensures { IfOk result (λ piece. piece ≡ template names.now level datum.now) }
{
    match &datum.kind {
        Kind::Int(_) | Kind::Char(_) | Kind::Sym(_) | Kind::Str(_) | Kind::Nil => {
            quoted(alloc, datum)
        }
        Kind::Vector(items) => {
            let list = template_list(alloc, names, level, items.as_slice(), None)?;
            form_one(alloc, b"%list-vector", list)
        }
        Kind::List { items, tail } => {
            template_list(alloc, names, level, items.as_slice(), behind(tail))
        }
    }
}

// A list of these items, with that tail.
#[cycle(quotation)]
#[tactic(auto, using(crate::proofs::Templates::pair_list, crate::proofs::Templates::other_list, crate::proofs::Templates::only_smaller), unfolding(crate::specs::Quotation::template_list))]
fn template_list<'a>(
    alloc: Global,
    names: &Names,
    level: u64,
    items: &'a [Datum],
    tail: Option<&'a Datum>,
) -> Result<Piece<'a>, NoMemory>
    ensures { IfOk result (λ piece. piece ≡ template_list names.now level (items_of items.now) (tail_part names.now level (tail_shown tail.entry))) }
{
    let Some((first, rest)) = items.split_first() else {
        return form_one(alloc, b"quote", nil(alloc));
    };
    if let Some(second) = only_of(rest, tail) {
        return template_pair(alloc, names, level, first, second);
    }
    let mut list = PieceList::new(alloc);
    parts(alloc, names, level, items, tail, &mut list)?;
    form_list(alloc, b"%append", list)
}

// A list of two items.
#[cycle(quotation)]
#[tactic(auto, unfolding(crate::specs::Quotation::template_list))]
fn template_pair<'a>(
    alloc: Global,
    names: &Names,
    level: u64,
    first: &'a Datum,
    second: &'a Datum,
) -> Result<Piece<'a>, NoMemory>
    ensures { IfOk result (λ piece. piece ≡ template_list names.now level (items_of (first.now ∷ second.now ∷ [])) (pieces_of [])) }
{
    if is_word(names, b"unquote", first) {
        return unquoted(alloc, names, level, second);
    }
    if is_word(names, b"quasiquote", first) {
        let inner = template(alloc, names, later(level, 1)?, second)?;
        return kept_prefix(alloc, b"quasiquote", inner);
    }
    let first = part(alloc, names, level, first)?;
    let Ok(second) = part(alloc, names, level, second) else {
        drop(first);
        return Err(NoMemory);
    };
    form_two(alloc, b"%append", first, second)
}

// `(unquote e)`
#[cycle(quotation)]
#[tactic(auto, unfolding(crate::specs::Quotation::unquoted))]
fn unquoted<'a>(
    alloc: Global,
    names: &Names,
    level: u64,
    datum: &'a Datum,
) -> Result<Piece<'a>, NoMemory>
    ensures { IfOk result (λ piece. piece ≡ unquoted names.now level datum.now) }
{
    if level == 0 {
        return Ok(taken(datum));
    }
    let inner = template(alloc, names, level - 1, datum)?;
    kept_prefix(alloc, b"unquote", inner)
}

// `(unquote-splicing e)`
#[cycle(quotation)]
#[tactic(auto, unfolding(crate::specs::Quotation::spliced))]
fn spliced<'a>(
    alloc: Global,
    names: &Names,
    level: u64,
    datum: &'a Datum,
) -> Result<Piece<'a>, NoMemory>
    ensures { IfOk result (λ piece. piece ≡ spliced names.now level datum.now) }
{
    if level == 0 {
        return Ok(taken(datum));
    }
    let inner = template(alloc, names, level - 1, datum)?;
    let kept = kept_prefix(alloc, b"unquote-splicing", inner)?;
    form_one(alloc, b"%list", kept)
}

// What an item of a list adds to it.
#[cycle(quotation)]
#[tactic(auto, using(crate::proofs::Templates::part_spliced, crate::proofs::Templates::part_other, crate::proofs::Templates::spliced_smaller))]
fn part<'a>(
    alloc: Global,
    names: &Names,
    level: u64,
    datum: &'a Datum,
) -> Result<Piece<'a>, NoMemory>
    ensures { IfOk result (λ piece. piece ≡ part names.now level datum.now) }
{
    if let Some(inner) = splicing(names, datum) {
        return spliced(alloc, names, level, inner);
    }
    form_one(alloc, b"%list", template(alloc, names, level, datum)?)
}

// Appends what these items and that tail add.
#[cycle(quotation)]
#[tactic(auto, using(crate::proofs::Templates::last_smaller))]
fn parts<'a>(
    alloc: Global,
    names: &Names,
    level: u64,
    items: &'a [Datum],
    tail: Option<&'a Datum>,
    list: &mut PieceList<'a>,
) -> Result<(), NoMemory>
    ensures { OnOk result (pieces_of list.new ≡ pieces_before list.old (parts names.now level (items_of items.now) (tail_part names.now level (tail_shown tail.entry)))) }
{
    let mut rest = items;
    while let Some((item, others)) = rest.split_first() {
        if let Some(last) = unquote_left(names, item, others, tail) {
            return push_made(list, unquoted(alloc, names, level, last));
        }
        push_made(list, part(alloc, names, level, item))?;
        rest = others;
    }
    match tail {
        None => Ok(()),
        Some(datum) => push_made(list, template(alloc, names, level, datum)),
    }
}
