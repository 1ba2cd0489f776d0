// Lists behind one another's dots, which are joined once.

ghost use Rattle.std.specs.Prelude.{◌≡◌, reverse, IfOk};
ghost use Rattle.base.specs.Data.{item, Item, list, items_of, dotted};
ghost use Rattle.front_reader.specs.Chains.{chained};
ghost use Rattle.front_reader.specs.Meanings.{joined};

use base::{Datum, DatumList, Kind, NoMemory, Place};
use std::alloc::Global;
use std::marker::Model;

/// A list behind whose dot a datum stands: its place, and its data in front of the dot.
#[derive(Drop)]
pub(crate) struct Link {
    pub(crate) place: Place,
    pub(crate) items: DatumList,
}

/// A datum, perhaps with lists around it that have it behind their dots, the innermost first. To join
/// them at each dot would move the data of the innermost once for each list around it.
#[derive(Drop)]
pub(crate) struct Chain {
    links: Vec<Link>,
    last: Datum,
}

impl Model for Chain {
    ghost use Rattle.std.specs.Prelude.{reverse};
    ghost use Rattle.base.specs.Data.{Item};
    ghost use Rattle.front_reader.specs.Chains.{chained};

    ghost Value = { Item };

    ghost use Rattle.base.specs.model.DataCode.{item_code};

    ghost coded = { item_code };

    ghost view = { λ c. chained (reverse c.links.items) c.last };
}

impl Chain {
    /// The datum alone; takes no memory.
    pub(crate) fn new(alloc: Global, datum: Datum) -> Chain
        ensures { result ≡ datum }
    {
        Chain {
            links: Vec::new(alloc),
            last: datum,
        }
    }

    /// The list with these items and this datum behind its dot.
    pub(crate) fn behind_dot(self, place: Place, items: DatumList) -> Result<Chain, NoMemory>
        ensures { IfOk result (λ c. c ≡ item place (joined items self)) }
    {
        let mut chain = self;
        match chain.links.push(Link { place, items }) {
            Ok(()) => Ok(chain),
            Err(refused) => {
                drop(refused);
                drop(chain);
                Err(NoMemory)
            }
        }
    }

    /// The datum, with all lists joined.
    pub(crate) fn datum(self, alloc: Global) -> Result<Datum, NoMemory>
        ensures { IfOk result (λ d. d ≡ self) }
    {
        let Chain { mut links, last } = self;
        let Some(Link { place, items }) = links.pop() else {
            return Ok(last);
        };
        let Ok(items) = all_in_front(links, items) else {
            drop(last);
            return Err(NoMemory);
        };
        joined_list(alloc, place, items, last)
    }
}

// All data in front of the last dot: these items, and then those of the lists behind their dot.
fn all_in_front(links: Vec<Link>, items: DatumList) -> Result<DatumList, NoMemory>
    ensures { IfOk result (λ all. (d : Item) →
        joined items (chained (reverse links.items) d) ≡ joined all d) }
{
    let mut links = links;
    let mut items = items;
    while let Some(link) = links.pop() {
        items.append_list(link.items)?;
    }
    Ok(items)
}

// A list with a datum behind its dot that is no list.
fn with_tail(alloc: Global, place: Place, items: DatumList, tail: Datum) -> Result<Datum, NoMemory>
    ensures { IfOk result (λ d. d ≡ item place (list (items_of items) (dotted tail))) }
{
    match Box::new(alloc, tail) {
        Ok(tail) => Ok(Datum::new(
            place,
            Kind::List {
                items,
                tail: Some(tail),
            },
        )),
        Err(refused) => {
            drop(refused);
            Err(NoMemory)
        }
    }
}

// A list with a datum behind its dot: a list there is joined.
fn joined_list(
    alloc: Global,
    place: Place,
    items: DatumList,
    datum: Datum,
) -> Result<Datum, NoMemory>
    ensures { IfOk result (λ d. d ≡ item place (joined items datum)) }
{
    let Datum { place: at, kind } = datum;
    let mut items = items;
    match kind {
        Kind::Nil => Ok(Datum::new(place, Kind::List { items, tail: None })),
        Kind::List { items: more, tail } => {
            let Ok(()) = items.append_list(more) else {
                drop(tail);
                return Err(NoMemory);
            };
            Ok(Datum::new(place, Kind::List { items, tail }))
        }
        other => with_tail(alloc, place, items, Datum::new(at, other)),
    }
}
