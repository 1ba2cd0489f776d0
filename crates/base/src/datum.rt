// Data of the language: what a text spells, and what literals are made of.

ghost use Rattle.std.specs.Prelude.{◌≡◌};
ghost use Rattle.base.specs.Data.{item};
ghost use Rattle.base.specs.model.DataView.{view_content};

mod copies;
mod formed;
mod measures;
pub mod naming;

use crate::lists::{Bytes, ItemList};
use crate::place::Place;
use std::marker::Model;

/// A name, as its number in the table of names (ISO/IEC 13816:2007, 18).
#[derive(Clone, Copy, Debug, PartialEq, Eq, PartialOrd, Ord)]
pub struct Name(pub usize);

/// A symbol: one that a text names, or one that an expansion made and no text names. The new
/// symbols of derived forms have expansion 0; the expansions of a file are numbered from 1.
#[derive(Clone, Copy, Debug, PartialEq, Eq, PartialOrd, Ord)]
pub enum Symbol {
    Named(Name),
    Fresh { expansion: u32, serial: u64 },
}

/// A datum and where it stands. Contracts see it as the `Item` of specs/Data.antt.
#[derive(Drop)]
#[cycle(datum)]
pub struct Datum {
    pub place: Place,
    pub kind: Kind,
}

/// What a datum is: an integer of 30 bits, a character of one byte, a symbol, a string, a vector,
/// the empty list, or a list with at least one item. A proper list has no tail; a tail is neither
/// the empty list nor a list.
#[derive(Drop)]
#[cycle(datum)]
pub enum Kind {
    Int(i32),
    Char(u8),
    Sym(Symbol),
    Str(Bytes),
    Vector(DatumList),
    Nil,
    List {
        items: DatumList,
        tail: Option<Box<Datum>>,
    },
}

/// Data.
pub type DatumList = ItemList<Datum>;

/// Names.
pub type NameList = ItemList<Name>;

/// The fresh symbols that derived steps have made.
pub type FreshList = ItemList<Symbol>;

impl Model for Datum {
    ghost use Rattle.base.specs.Data.{Item};

    ghost Value = { Item };

    ghost use Rattle.base.specs.model.DataCode.{item_code};

    ghost coded = { item_code };

    ghost use Rattle.base.specs.model.DataView.{view_item};

    ghost view = { λ c. view_item c.place c.kind };

    ghost use Rattle.base.specs.Data.{item_size};

    ghost size = { item_size };

    ghost use Rattle.base.specs.model.DataFalls.{falls};

    ghost size_decreases = { λ c h. falls c.place c.kind };
}

impl Datum {
    /// A datum of that kind at that place.
    pub fn new(place: Place, kind: Kind) -> Datum
        ensures { result ≡ item place (view_content kind) }
    {
        Datum { place, kind }
    }
}
