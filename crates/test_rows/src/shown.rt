// Data as the tables write them.

use crate::answer::RowAnswer;
use base::{Datum, Kind, Names, Place, Symbol};

/// How a datum is written.
#[derive(Clone, Copy)]
pub enum Style {
    /// With all places: `1:1i5` is the integer 5 at 1:1, `c` a character by its number, `s` a symbol,
    /// `t<..>` a string, `n` the empty list, `l(..)` a list, `v(..)` a vector.
    Placed,
    /// With no place: `5`, `a`, `nil`, `(a . b)`, `#(a)`; `#0` is the new symbol of serial 0.
    Plain,
    /// The same, where a part that does not stand at this place has its own behind it, as `a@1:5`.
    Besides(Place),
}

impl Style {
    // The mark in front of a datum: one where places are written, and another one elsewhere.
    fn mark(self, placed: &'static str, plain: &'static str) -> &'static str {
        match self {
            Style::Placed => placed,
            _ => plain,
        }
    }
}

/// Appends a datum whose parts are inside one another at most so deep; none of a deeper one.
#[cycle(shown)]
pub fn show(
    got: &mut RowAnswer,
    names: &Names,
    datum: &Datum,
    style: Style,
    depth: u32,
) -> Option<()> {
    if depth == 0 {
        return None;
    }
    begin(got, datum.place, style);
    show_kind(got, names, &datum.kind, style, depth - 1)?;
    end(got, datum.place, style);
    Some(())
}

// Appends what stands at a place.
#[cycle(shown)]
fn show_kind(
    got: &mut RowAnswer,
    names: &Names,
    kind: &Kind,
    style: Style,
    depth: u32,
) -> Option<()> {
    match kind {
        Kind::Sym(symbol) => {
            got.put(style.mark("s", ""));
            show_symbol(got, names, *symbol)
        }
        Kind::Vector(items) => {
            got.put(style.mark("v(", "#("));
            show_all(got, names, items.as_slice(), style, depth)?;
            got.put(")");
            Some(())
        }
        Kind::List { items, tail } => {
            got.put(style.mark("l(", "("));
            show_all(got, names, items.as_slice(), style, depth)?;
            show_tail(got, names, tail, style, depth)?;
            got.put(")");
            Some(())
        }
        _ => {
            put_single(got, kind, style);
            Some(())
        }
    }
}

// Appends data with a blank between them.
#[cycle(shown)]
fn show_all(
    got: &mut RowAnswer,
    names: &Names,
    items: &[Datum],
    style: Style,
    depth: u32,
) -> Option<()> {
    let mut is_first = true;
    for item in items {
        got.put(if is_first { "" } else { " " });
        show(got, names, item, style, depth)?;
        is_first = false;
    }
    Some(())
}

// Appends the tail of a list.
#[cycle(shown)]
fn show_tail(
    got: &mut RowAnswer,
    names: &Names,
    tail: &Option<Box<Datum>>,
    style: Style,
    depth: u32,
) -> Option<()> {
    match tail {
        None => Some(()),
        Some(datum) => {
            got.put(" . ");
            show(got, names, datum, style, depth)
        }
    }
}

// Appends what has no datum and no symbol inside.
fn put_single(got: &mut RowAnswer, kind: &Kind, style: Style) {
    match kind {
        Kind::Int(number) => {
            got.put(style.mark("i", ""));
            got.put(*number);
        }
        Kind::Char(byte) => {
            got.put("c");
            got.put(*byte);
        }
        Kind::Str(bytes) => {
            got.put("t<");
            got.put_bytes(bytes.as_slice());
            got.put(">");
        }
        _ => got.put(style.mark("n", "nil")),
    }
}

// Appends a place that stands in front.
fn begin(got: &mut RowAnswer, place: Place, style: Style) {
    if let Style::Placed = style {
        got.put_place(place);
    }
}

// Appends a place that stands behind.
fn end(got: &mut RowAnswer, place: Place, style: Style) {
    match style {
        Style::Besides(usual) if place != usual => {
            got.put("@");
            got.put_place(place);
        }
        _ => {}
    }
}

/// Appends a symbol: its name, or `#` and its serial.
pub fn show_symbol(got: &mut RowAnswer, names: &Names, symbol: Symbol) -> Option<()> {
    match symbol {
        Symbol::Named(name) => got.put_bytes(names.text(name)?),
        Symbol::Fresh {
            expansion: 0,
            serial,
        } => {
            got.put("#");
            got.put(serial);
        }
        Symbol::Fresh { .. } => return None,
    }
    Some(())
}
