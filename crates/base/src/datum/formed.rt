// Whether a datum is in form.

ghost use Rattle.std.specs.Prelude.{◌≡◌};
ghost use Rattle.base.specs.Data.{items_of};
ghost use Rattle.base.specs.model.DataView.{tail_of};
ghost use Rattle.base.specs.DataFormed.{is_formed, is_no_list_item, is_some_item, all_are_formed, is_formed_tail};

use crate::datum::{Datum, DatumList, Kind};

impl Datum {
    /// Whether it is in form with all its parts: each integer has 30 bits, each list has an item,
    /// and no tail is the empty list or a list. Takes no memory.
    #[cycle(formed)]
    pub fn is_formed(&self) -> bool
        ensures { result ≡ is_formed self.now }
    {
        match &self.kind {
            Kind::Int(number) => -536_870_912 <= *number && *number <= 536_870_911,
            Kind::Char(_) | Kind::Sym(_) | Kind::Str(_) | Kind::Nil => true,
            Kind::Vector(items) => are_formed(items),
            Kind::List { items, tail } => {
                has_item(items) && are_formed(items) && is_formed_tail(tail)
            }
        }
    }

    // Whether it is neither the empty list nor a list.
    fn is_no_list(&self) -> bool
        ensures { result ≡ is_no_list_item self.now }
    {
        !matches!(&self.kind, Kind::Nil | Kind::List { .. })
    }
}

#[cycle(formed)]
#[tactic(auto, using(crate::specs::model::DataSizes::item_turn))]
fn are_formed(items: &DatumList) -> bool
    ensures { result ≡ all_are_formed (items_of items.now) }
{
    for item in items.as_slice() {
        if !item.is_formed() {
            return false;
        }
    }
    true
}

#[cycle(formed)]
fn is_formed_tail(tail: &Option<Box<Datum>>) -> bool
    ensures { result ≡ is_formed_tail (tail_of tail.now) }
{
    match tail {
        None => true,
        Some(datum) => datum.is_no_list() && datum.is_formed(),
    }
}

fn has_item(items: &DatumList) -> bool
    ensures { result ≡ is_some_item (items_of items.now) }
{
    match items.as_slice() {
        [] => false,
        [_, ..] => true,
    }
}
