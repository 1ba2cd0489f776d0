// The size and the depth of a datum.

ghost use Rattle.std.specs.Prelude.{◌≡◌, min};
ghost use Rattle.base.specs.Data.{items_of};
ghost use Rattle.base.specs.model.DataView.{tail_of};
ghost use Rattle.base.specs.DataMeasures.{size_of, sizes_of, size_of_tail, depth_of, depths_of, depth_of_tail};

use crate::datum::{Datum, DatumList, Kind};

impl Datum {
    /// Its size: one for it and each datum inside, and one for each four bytes begun of a string;
    /// 2^64 - 1 where that is larger.
    #[cycle(size)]
    #[tactic(auto, unfolding(crate::specs::DataMeasures::size_of))]
    pub fn size(&self) -> u64
        ensures { result ≡ min (size_of self.now) 18446744073709551615 }
    {
        let inside: u64 = match &self.kind {
            Kind::Int(_) | Kind::Char(_) | Kind::Sym(_) | Kind::Nil => 0,
            Kind::Str(bytes) => bytes.len().div_ceil(4) as u64,
            Kind::Vector(items) => sizes(items),
            Kind::List { items, tail } => sizes(items).saturating_add(tail_size(tail)),
        };
        inside.saturating_add(1)
    }

    /// Its depth: how many lists and vectors stand inside one another, 0 for a datum that is
    /// neither; 2^32 - 1 where that is larger.
    #[cycle(depth)]
    #[tactic(auto, unfolding(crate::specs::DataMeasures::depth_of))]
    pub fn depth(&self) -> u32
        ensures { result ≡ min (depth_of self.now) 4294967295 }
    {
        match &self.kind {
            Kind::Int(_) | Kind::Char(_) | Kind::Sym(_) | Kind::Str(_) | Kind::Nil => 0,
            Kind::Vector(items) => depths(items).saturating_add(1),
            Kind::List { items, tail } => depths(items).max(tail_depth(tail)).saturating_add(1),
        }
    }
}

#[cycle(size)]
#[tactic(auto, using(crate::specs::model::DataSizes::item_in_smaller), unfolding(crate::specs::DataMeasures::sizes_of))]
fn sizes(items: &DatumList) -> u64
    ensures { result ≡ min (sizes_of (items_of items.now)) 18446744073709551615 }
{
    let mut total: u64 = 0;
    for at in 0..items.len() {
        let Some(item) = items.get(at) else {
            unreachable!()
        };
        total = total.saturating_add(item.size());
    }
    total
}

#[cycle(size)]
#[tactic(auto, unfolding(crate::specs::DataMeasures::size_of_tail))]
fn tail_size(tail: &Option<Box<Datum>>) -> u64
    ensures { result ≡ min (size_of_tail (tail_of tail.now)) 18446744073709551615 }
{
    match tail {
        None => 0,
        Some(datum) => datum.size(),
    }
}

#[cycle(depth)]
#[tactic(auto, using(crate::specs::model::DataSizes::item_in_smaller), unfolding(crate::specs::DataMeasures::depths_of))]
fn depths(items: &DatumList) -> u32
    ensures { result ≡ min (depths_of (items_of items.now)) 4294967295 }
{
    let mut deepest: u32 = 0;
    for at in 0..items.len() {
        let Some(item) = items.get(at) else {
            unreachable!()
        };
        deepest = deepest.max(item.depth());
    }
    deepest
}

#[cycle(depth)]
#[tactic(auto, unfolding(crate::specs::DataMeasures::depth_of_tail))]
fn tail_depth(tail: &Option<Box<Datum>>) -> u32
    ensures { result ≡ min (depth_of_tail (tail_of tail.now)) 4294967295 }
{
    match tail {
        None => 0,
        Some(datum) => datum.depth(),
    }
}
