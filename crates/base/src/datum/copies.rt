// Copies of data.

ghost use Rattle.std.specs.Prelude.{◌≡◌, IfOk};
ghost use Rattle.base.specs.model.DataView.{view_content, tail_of};

use crate::datum::{Datum, DatumList, Kind};
use crate::faults::NoMemory;
use crate::lists::Bytes;
use std::alloc::Global;

impl Datum {
    /// An equal datum, at the same places.
    #[cycle(copy)]
    pub fn copy(&self, alloc: Global) -> Result<Datum, NoMemory>
        ensures { IfOk result (λ copy. copy ≡ self.now) }
    {
        let kind = kind_copy(alloc, &self.kind)?;
        Ok(Datum {
            place: self.place,
            kind,
        })
    }
}

#[cycle(copy)]
fn kind_copy(alloc: Global, kind: &Kind) -> Result<Kind, NoMemory>
    ensures { IfOk result (λ copy. view_content copy ≡ view_content kind.now) }
{
    match kind {
        Kind::Int(n) => Ok(Kind::Int(*n)),
        Kind::Char(c) => Ok(Kind::Char(*c)),
        Kind::Sym(symbol) => Ok(Kind::Sym(*symbol)),
        Kind::Str(bytes) => Ok(Kind::Str(Bytes::from_slice(alloc, bytes.as_slice())?)),
        Kind::Vector(items) => Ok(Kind::Vector(list_copy(alloc, items)?)),
        Kind::Nil => Ok(Kind::Nil),
        Kind::List { items, tail } => {
            let items = list_copy(alloc, items)?;
            let tail = tail_copy(alloc, tail)?;
            Ok(Kind::List { items, tail })
        }
    }
}

#[cycle(copy)]
#[tactic(auto, using(crate::specs::model::DataSizes::item_in_smaller))]
fn list_copy(alloc: Global, items: &DatumList) -> Result<DatumList, NoMemory>
    ensures { IfOk result (λ copy. copy ≡ items.now) }
{
    let mut copied = DatumList::new(alloc);
    for at in 0..items.len() {
        let Some(item) = items.get(at) else {
            unreachable!()
        };
        copied.push(item.copy(alloc)?)?;
    }
    Ok(copied)
}

#[cycle(copy)]
fn tail_copy(alloc: Global, tail: &Option<Box<Datum>>) -> Result<Option<Box<Datum>>, NoMemory>
    ensures { IfOk result (λ copy. tail_of copy ≡ tail_of tail.now) }
{
    match tail {
        None => Ok(None),
        Some(datum) => {
            let copy = Box::new(alloc, datum.copy(alloc)?)?;
            Ok(Some(copy))
        }
    }
}
