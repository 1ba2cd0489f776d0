// Data with symbols that no text has: one that is written `|#7|` stands for the new symbol of serial 7,
// and `|#long|` for one whose name is longer than a text can have.

use base::{Datum, DatumList, FreshList, Kind, Name, Names, Symbol};
use test_rows::RowAnswer;

// A name of one byte more than a text can have.
const LONG: [u8; 257] = [b'x'; 257];

/// The first new symbols, so many.
pub fn fresh_symbols(got: &mut RowAnswer, count: u64) -> FreshList {
    let mut fresh = FreshList::new(got.alloc);
    for serial in 0..count {
        got.add(&mut fresh, new_symbol(serial));
    }
    fresh
}

/// The datum with those symbols where they are written; none of one whose parts are deeper inside one
/// another than said.
#[cycle(freshened)]
pub fn freshened(
    got: &mut RowAnswer,
    names: &mut Names,
    datum: &Datum,
    depth: u32,
) -> Option<Datum> {
    if depth == 0 {
        return None;
    }
    let kind = match &datum.kind {
        Kind::Sym(Symbol::Named(name)) => Kind::Sym(symbol_of(got, names, *name)?),
        Kind::Vector(items) => Kind::Vector(all_freshened(got, names, items, depth - 1)?),
        Kind::List { items, tail } => {
            let items = all_freshened(got, names, items, depth - 1)?;
            let Some(tail) = tail_freshened(got, names, tail, depth - 1) else {
                drop(items);
                return None;
            };
            Kind::List { items, tail }
        }
        _ => return got.kept(datum.copy(got.alloc)),
    };
    Some(Datum::new(datum.place, kind))
}

#[cycle(freshened)]
fn all_freshened(
    got: &mut RowAnswer,
    names: &mut Names,
    items: &DatumList,
    depth: u32,
) -> Option<DatumList> {
    if depth == 0 {
        return None;
    }
    let mut all = DatumList::new(got.alloc);
    for item in items.as_slice() {
        let item = freshened(got, names, item, depth - 1)?;
        got.add(&mut all, item);
    }
    Some(all)
}

#[cycle(freshened)]
fn tail_freshened(
    got: &mut RowAnswer,
    names: &mut Names,
    tail: &Option<Box<Datum>>,
    depth: u32,
) -> Option<Option<Box<Datum>>> {
    if depth == 0 {
        return None;
    }
    match tail {
        None => Some(None),
        Some(datum) => {
            let datum = freshened(got, names, datum, depth - 1)?;
            Some(Some(got.kept(Box::new(got.alloc, datum))?))
        }
    }
}

// The symbol that a name stands for.
fn symbol_of(got: &mut RowAnswer, names: &mut Names, name: Name) -> Option<Symbol> {
    match names.text(name) {
        Some([b'#', digit @ b'0'..=b'9']) => Some(new_symbol(u64::from(*digit - b'0'))),
        Some(b"#long") => Some(Symbol::Named(got.kept(names.intern(&LONG))?)),
        _ => Some(Symbol::Named(name)),
    }
}

// The new symbol of that serial.
fn new_symbol(serial: u64) -> Symbol {
    Symbol::Fresh {
        expansion: 0,
        serial,
    }
}
