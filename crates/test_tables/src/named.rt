// Whether the names of a datum are in the table, and whether its names can be printed.

ghost use Rattle.std.specs.Prelude.{◌≡◌, true, IsTrue, Some, length, codes};
ghost use Rattle.std.specs.List.{list_all};
ghost use Rattle.std.specs.Str.{bytes_eq};
ghost use Rattle.base.specs.Data.{items_of};
ghost use Rattle.base.specs.model.DataView.{tail_of};
ghost use Rattle.base.specs.DataMeasures.{NamesBelow, AllNamesBelow, NamesBelowTail, SymbolBelow};
ghost use Rattle.front_reader.specs.Characters.{is_printed};
ghost use Rattle.front_reader.specs.Printing.{IsSpelled, AllSpelled, TailSpelled, SymbolSpelled, NameSpelled};

use base::{Datum, Kind, Names, Symbol};

/// Whether all names of the datum are below that number, told by a walk of at most so many steps
/// inside one another.
#[cycle(below)]
#[tactic(auto, unfolding(base::specs::DataMeasures::NamesBelow))]
pub fn is_below(datum: &Datum, count: usize, depth: u32) -> bool
    ensures { IsTrue result → NamesBelow count datum.now }
{
    if depth == 0 {
        return false;
    }
    match &datum.kind {
        Kind::Int(_) | Kind::Char(_) | Kind::Str(_) | Kind::Nil => true,
        Kind::Sym(symbol) => is_symbol_below(*symbol, count),
        Kind::Vector(items) => are_below(items.as_slice(), count, depth - 1),
        Kind::List { items, tail } => {
            are_below(items.as_slice(), count, depth - 1) && is_tail_below(tail, count, depth - 1)
        }
    }
}

#[cycle(below)]
#[tactic(auto, unfolding(base::specs::DataMeasures::NamesBelow))]
fn are_below(items: &[Datum], count: usize, depth: u32) -> bool
    ensures { IsTrue result → AllNamesBelow count (items_of items.now) }
{
    if depth == 0 {
        return false;
    }
    match items.split_first() {
        None => true,
        Some((item, rest)) => {
            is_below(item, count, depth - 1) && are_below(rest, count, depth - 1)
        }
    }
}

#[cycle(below)]
#[tactic(auto, unfolding(base::specs::DataMeasures::NamesBelow))]
fn is_tail_below(tail: &Option<Box<Datum>>, count: usize, depth: u32) -> bool
    ensures { IsTrue result → NamesBelowTail count (tail_of tail.now) }
{
    if depth == 0 {
        return false;
    }
    match tail {
        None => true,
        Some(datum) => is_below(datum, count, depth - 1),
    }
}

fn is_symbol_below(symbol: Symbol, count: usize) -> bool
    ensures { IsTrue result → SymbolBelow count symbol }
{
    match symbol {
        Symbol::Named(name) => name.0 < count,
        Symbol::Fresh { .. } => true,
    }
}

/// Whether all symbols of the datum have names that can be printed, told by such a walk.
#[cycle(spelled)]
#[tactic(auto, unfolding(front_reader::specs::Printing::IsSpelled))]
pub fn is_spelled(datum: &Datum, names: &Names, depth: u32) -> bool
    ensures { IsTrue result → IsSpelled names.now datum.now }
{
    if depth == 0 {
        return false;
    }
    match &datum.kind {
        Kind::Int(_) | Kind::Char(_) | Kind::Str(_) | Kind::Nil => true,
        Kind::Sym(symbol) => is_symbol_spelled(*symbol, names),
        Kind::Vector(items) => are_spelled(items.as_slice(), names, depth - 1),
        Kind::List { items, tail } => {
            are_spelled(items.as_slice(), names, depth - 1)
                && is_tail_spelled(tail, names, depth - 1)
        }
    }
}

#[cycle(spelled)]
#[tactic(auto, unfolding(front_reader::specs::Printing::IsSpelled))]
fn are_spelled(items: &[Datum], names: &Names, depth: u32) -> bool
    ensures { IsTrue result → AllSpelled names.now (items_of items.now) }
{
    if depth == 0 {
        return false;
    }
    match items.split_first() {
        None => true,
        Some((item, rest)) => {
            is_spelled(item, names, depth - 1) && are_spelled(rest, names, depth - 1)
        }
    }
}

#[cycle(spelled)]
#[tactic(auto, unfolding(front_reader::specs::Printing::IsSpelled))]
fn is_tail_spelled(tail: &Option<Box<Datum>>, names: &Names, depth: u32) -> bool
    ensures { IsTrue result → TailSpelled names.now (tail_of tail.now) }
{
    if depth == 0 {
        return false;
    }
    match tail {
        None => true,
        Some(datum) => is_spelled(datum, names, depth - 1),
    }
}

fn is_symbol_spelled(symbol: Symbol, names: &Names) -> bool
    ensures { IsTrue result → SymbolSpelled names.now symbol }
{
    match symbol {
        Symbol::Named(name) => match names.text(name) {
            Some(text) => is_name_spelled(text),
            None => false,
        },
        Symbol::Fresh { .. } => false,
    }
}

fn is_name_spelled(text: &[u8]) -> bool
    ensures { IsTrue result → NameSpelled (Some text.now) }
{
    !is_nil(text) && text.len() <= 256 && are_printed(text)
}

fn is_nil(text: &[u8]) -> bool
    ensures { result ≡ bytes_eq text.now (codes "nil") }
{
    text == b"nil".as_slice()
}

fn are_printed(text: &[u8]) -> bool
    ensures { result ≡ list_all is_printed text.now }
{
    text.iter().all(|byte| 32 <= *byte && *byte <= 126)
}
