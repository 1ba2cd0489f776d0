// Whether the names of a datum are in a table of so many names.

ghost use Rattle.std.specs.Prelude.{◌≡◌, IfOk};
ghost use Rattle.base.specs.Data.{items_of};
ghost use Rattle.base.specs.model.DataView.{tail_of};
ghost use Rattle.back_build.specs.Named.{is_named, are_named, is_tail_named, is_symbol_named};

use base::{Datum, Kind, NoMemory, Symbol};

/// Whether all names of the datum are below that number, told by a walk of at most so many steps inside one another; where there are more,
/// memory is wanting.
#[cycle(below)]
#[tactic(auto, unfolding(crate::specs::Named::is_named))]
pub(crate) fn is_below(datum: &Datum, count: usize, depth: u32) -> Result<bool, NoMemory>
    ensures { IfOk result (λ is. is ≡ is_named count datum.now) }
{
    if depth == 0 {
        return Err(NoMemory);
    }
    match &datum.kind {
        Kind::Int(_) | Kind::Char(_) | Kind::Str(_) | Kind::Nil => Ok(true),
        Kind::Sym(symbol) => Ok(is_symbol_below(*symbol, count)),
        Kind::Vector(items) => are_below(items.as_slice(), count, depth - 1),
        Kind::List { items, tail } => {
            let are = are_below(items.as_slice(), count, depth - 1)?;
            let is = is_tail_below(tail, count, depth - 1)?;
            Ok(are && is)
        }
    }
}

#[cycle(below)]
fn are_below(items: &[Datum], count: usize, depth: u32) -> Result<bool, NoMemory>
    ensures { IfOk result (λ are. are ≡ are_named count (items_of items.now)) }
{
    if depth == 0 {
        return Err(NoMemory);
    }
    for at in 0..items.len() {
        let is = is_below(&items[at], count, depth - 1)?;
        if !is {
            return Ok(false);
        }
    }
    Ok(true)
}

#[cycle(below)]
#[tactic(auto, unfolding(crate::specs::Named::is_named))]
fn is_tail_below(tail: &Option<Box<Datum>>, count: usize, depth: u32) -> Result<bool, NoMemory>
    ensures { IfOk result (λ is. is ≡ is_tail_named count (tail_of tail.now)) }
{
    if depth == 0 {
        return Err(NoMemory);
    }
    match tail {
        None => Ok(true),
        Some(datum) => is_below(datum, count, depth - 1),
    }
}

fn is_symbol_below(symbol: Symbol, count: usize) -> bool
    ensures { result ≡ is_symbol_named count symbol }
{
    match symbol {
        Symbol::Named(name) => name.0 < count,
        Symbol::Fresh { .. } => true,
    }
}
