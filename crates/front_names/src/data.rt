// Whether the names of a datum are below a number.

ghost use Rattle.std.specs.Prelude.{◌≡◌};
ghost use Rattle.base.specs.Data.{items_of};
ghost use Rattle.base.specs.model.DataView.{tail_of};
ghost use Rattle.front_names.specs.Tests.{is_symbol_below, is_datum_below, are_data_below, is_tail_below};

use base::{Datum, DatumList, Kind, Symbol};

/// Whether all names of the datum are below that number.
#[cycle(datum)]
pub(crate) fn is_datum_below(datum: &Datum, count: usize) -> bool
    ensures { result ≡ is_datum_below count datum.now }
{
    match &datum.kind {
        Kind::Int(_) | Kind::Char(_) | Kind::Str(_) | Kind::Nil => true,
        Kind::Sym(symbol) => is_symbol_below(*symbol, count),
        Kind::Vector(items) => are_data_below(items, count),
        Kind::List { items, tail } => are_data_below(items, count) && is_tail_below(tail, count),
    }
}

#[cycle(datum)]
#[tactic(auto, using(base::specs::model::DataSizes::item_turn))]
fn are_data_below(items: &DatumList, count: usize) -> bool
    ensures { result ≡ are_data_below count (items_of items.now) }
{
    for item in items.as_slice() {
        if !is_datum_below(item, count) {
            return false;
        }
    }
    true
}

#[cycle(datum)]
fn is_tail_below(tail: &Option<Box<Datum>>, count: usize) -> bool
    ensures { result ≡ is_tail_below count (tail_of tail.now) }
{
    match tail {
        None => true,
        Some(datum) => is_datum_below(datum, count),
    }
}

fn is_symbol_below(symbol: Symbol, count: usize) -> bool
    ensures { result ≡ is_symbol_below count symbol }
{
    match symbol {
        Symbol::Named(name) => name.0 < count,
        Symbol::Fresh { .. } => true,
    }
}
