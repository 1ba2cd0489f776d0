// Printing: one spelling of a datum, which is read again as that datum.

ghost use Rattle.std.specs.Prelude.{◌≡◌, ◌≤◌, ◌++◌, [], ◌∷◌, IfOk, OnOk};
ghost use Rattle.std.specs.Fmt.{signed_decimal};
ghost use Rattle.base.specs.declared.place.Place.{Place};
ghost use Rattle.base.specs.Data.{items_of};
ghost use Rattle.base.specs.model.DataView.{tail_of};
ghost use Rattle.base.specs.DataMeasures.{Formed, depth_of};
ghost use Rattle.base.specs.Names.{IsTable};
ghost use Rattle.std.specs.List.{list_all};
ghost use Rattle.front_reader.specs.Characters.{begins, is_token};
ghost use Rattle.front_reader.specs.Tokens.{is_dot};
ghost use Rattle.front_reader.specs.Printing.{gap_before, stays, is_bare, escapes, between, name_spelling, symbol_text, spelling, items_spelling, tail_spelling, IsSpelled, ReadAgain};

use crate::characters::{is_capital, is_token};
use crate::token::{is_float, is_integer};
use base::{Bytes, Datum, DatumList, Kind, Names, NoMemory, Symbol};
use std::alloc::Global;

/// One spelling of a datum: reading it gives the datum again, places aside, and nothing is left.
/// A prefix is printed as the list that it stands for, and a symbol in bars unless its name is a
/// token that spells it. Every symbol has a name in the table, which is not `nil` and has at most
/// 256 bytes, each from 32 to 126; at most 256 lists and vectors stand inside one another.
pub fn print_datum(alloc: Global, datum: &Datum, names: &Names) -> Result<Bytes, NoMemory>
    requires formed { Formed datum.now }
    requires named { IsSpelled names.now datum.now }
    requires deep { depth_of datum.now ≤ 256 }
    ensures spelling { IfOk result (λ bytes. bytes ≡ spelling names.now datum.now) }
    ensures read_again { (p : Place) → IfOk result (λ bytes. ReadAgain names.now bytes p datum.now) }
{
    // Each text has one name: the proof of the law takes this from the table.
    let _ = names.len();
    let mut out = Bytes::new(alloc);
    append_datum(&mut out, alloc, datum, names)?;
    Ok(out)
}

// Appends the spelling of a datum.
#[cycle(print)]
#[tactic(auto, unfolding(crate::specs::Printing::spelling))]
fn append_datum(
    out: &mut Bytes,
    alloc: Global,
    datum: &Datum,
    names: &Names,
) -> Result<(), NoMemory>
    ensures { OnOk result (out.new ≡ out.old ++ spelling names.now datum.now) }
{
    match &datum.kind {
        Kind::Int(n) => append_integer(out, alloc, *n),
        Kind::Char(byte) => out.append(&[b'#', b'\\', *byte]),
        Kind::Sym(symbol) => append_name(out, name_of(names, *symbol)),
        Kind::Str(bytes) => append_between(out, b'"', bytes.as_slice()),
        Kind::Vector(items) => {
            out.append(b"#(")?;
            append_items(out, alloc, items, names)?;
            out.push(b')')
        }
        Kind::Nil => out.append(b"nil"),
        Kind::List { items, tail } => {
            out.push(b'(')?;
            append_items(out, alloc, items, names)?;
            append_tail(out, alloc, tail, names)?;
            out.push(b')')
        }
    }
}

// Appends data with a space between them.
#[cycle(print)]
#[tactic(auto, using(base::specs::model::DataSizes::item_in_smaller))]
fn append_items(
    out: &mut Bytes,
    alloc: Global,
    items: &DatumList,
    names: &Names,
) -> Result<(), NoMemory>
    ensures { OnOk result (out.new ≡ out.old ++ items_spelling names.now [] (items_of items.now)) }
{
    for at in 0..items.len() {
        let Some(item) = items.get(at) else {
            unreachable!()
        };
        append_gap(out, at)?;
        append_datum(out, alloc, item, names)?;
    }
    Ok(())
}

// Appends the dot and the datum behind it, where there is one.
#[cycle(print)]
#[tactic(auto, unfolding(crate::specs::Printing::tail_spelling))]
fn append_tail(
    out: &mut Bytes,
    alloc: Global,
    tail: &Option<Box<Datum>>,
    names: &Names,
) -> Result<(), NoMemory>
    ensures { OnOk result (out.new ≡ out.old ++ tail_spelling names.now (tail_of tail.now)) }
{
    match tail {
        None => Ok(()),
        Some(datum) => {
            out.append(b" . ")?;
            append_datum(out, alloc, datum, names)
        }
    }
}

// Appends a space before each item but the first.
fn append_gap(out: &mut Bytes, at: usize) -> Result<(), NoMemory>
    ensures { OnOk result (out.new ≡ out.old ++ gap_before at) }
{
    if at == 0 { Ok(()) } else { out.push(b' ') }
}

fn append_integer(out: &mut Bytes, alloc: Global, n: i32) -> Result<(), NoMemory>
    ensures { OnOk result (out.new ≡ out.old ++ signed_decimal n) }
{
    let Ok(text) = format!(in alloc; "{n}") else {
        return Err(NoMemory);
    };
    out.append(text.as_bytes())
}

// Appends a symbol's name, in bars unless it is a token that spells the symbol.
fn append_name(out: &mut Bytes, name: &[u8]) -> Result<(), NoMemory>
    ensures { OnOk result (out.new ≡ out.old ++ name_spelling name.now) }
{
    if is_bare(name) {
        out.append(name)
    } else {
        append_between(out, b'|', name)
    }
}

// The name of a symbol; none is empty.
fn name_of<'a>(names: &'a Names, symbol: Symbol) -> &'a [u8]
    ensures { result.now ≡ symbol_text names.now symbol }
{
    match symbol {
        Symbol::Named(name) => match names.text(name) {
            Some(text) => text,
            None => &[],
        },
        Symbol::Fresh { .. } => &[],
    }
}

// Whether a name is a token that spells the symbol of that very name.
#[tactic(auto, unfolding(crate::specs::Printing::is_bare))]
fn is_bare(name: &[u8]) -> bool
    ensures { result ≡ is_bare name.now }
{
    begins_token(name)
        && all_stay(name)
        && !is_integer(10, name)
        && !is_float(name)
        && !is_dot(name)
}

// Whether a name begins with a byte that tokens are made of.
fn begins_token(name: &[u8]) -> bool
    ensures { result ≡ begins is_token name.now }
{
    match name {
        [] => false,
        [byte, ..] => is_token(*byte),
    }
}

// Whether tokens are made of all its bytes, and no letter of it is folded.
fn all_stay(name: &[u8]) -> bool
    ensures { result ≡ list_all stays name.now }
{
    for byte in name {
        if !stays(*byte) {
            return false;
        }
    }
    true
}

fn stays(byte: u8) -> bool
    ensures { result ≡ stays byte }
{
    is_token(byte) && !is_capital(byte)
}

fn is_dot(name: &[u8]) -> bool
    ensures { result ≡ is_dot name.now }
{
    match name {
        [byte] => *byte == b'.',
        _ => false,
    }
}

// Appends bytes between two quotes, with `\` before each quote and each `\` inside.
fn append_between(out: &mut Bytes, quote: u8, bytes: &[u8]) -> Result<(), NoMemory>
    ensures { OnOk result (out.new ≡ out.old ++ between quote bytes.now) }
{
    out.push(quote)?;
    for byte in bytes {
        append_escaped(out, quote, *byte)?;
    }
    out.push(quote)
}

fn append_escaped(out: &mut Bytes, quote: u8, byte: u8) -> Result<(), NoMemory>
    ensures { OnOk result (out.new ≡ out.old ++ escapes quote (byte ∷ [])) }
{
    if byte == quote || byte == b'\\' {
        out.append(&[b'\\', byte])
    } else {
        out.push(byte)
    }
}
