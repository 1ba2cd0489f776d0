// Definitions of classes as data.

ghost use Rattle.std.specs.Prelude.{◌<◌, ◌↔◌, All, IsTrue, length};

use crate::inputs::{items, name};
use crate::slots::slot_row;
use base::{Datum, Name, Names, Place};
use lang_classes::{Classes, SlotSpec, SlotSpecs};
use lang_meaning::{ClassId, ClassIds};
use test_rows::RowAnswer;

/// Puts a definition: a name, superclasses and slots.
pub fn define(
    got: &mut RowAnswer,
    names: &Names,
    classes: &mut Classes,
    place: Place,
    parts: &[Datum],
    abstract_class: bool,
) -> Option<()> {
    let [class, supers, slots] = parts else {
        return None;
    };
    let class = name(class)?;
    let slots = items(slots)?;
    let supers = class_list(got, classes, items(supers)?)?;
    let Some(slots) = slot_specs(got, names, slots) else {
        drop(supers);
        return None;
    };
    let answered = put_new(
        got,
        classes,
        class,
        place,
        supers.as_slice(),
        &slots,
        abstract_class,
    );
    drop((supers, slots));
    answered
}

// Puts a definition of a class that there is not yet. The answer is why it is refused, if it is.
fn put_new(
    got: &mut RowAnswer,
    classes: &mut Classes,
    class: Name,
    place: Place,
    supers: &[ClassId],
    slots: &SlotSpecs,
    abstract_class: bool,
) -> Option<()> {
    if classes.find(class).is_some() || !are_below(supers, classes.rows().len()) {
        return None;
    }
    if let Err(stop) = classes.define(class, place, supers, slots, abstract_class) {
        got.begin();
        got.put_stop(stop);
    }
    Some(())
}

/// Whether these are numbers of classes, of which there are so many.
pub fn are_below(classes: &[ClassId], count: usize) -> bool
    ensures { IsTrue result ↔ All (λ class. class < count) classes.now }
{
    classes.iter().all(|class| *class < count)
}

/// The classes of these names.
pub fn class_list(got: &mut RowAnswer, classes: &Classes, data: &[Datum]) -> Option<ClassIds> {
    let mut list = ClassIds::new(got.alloc);
    for datum in data {
        let class = classes.find(name(datum)?)?;
        got.add(&mut list, class);
    }
    Some(list)
}

// What a definition says of its slots: a name each, or a name with its options.
fn slot_specs(got: &mut RowAnswer, names: &Names, data: &[Datum]) -> Option<SlotSpecs> {
    let mut slots = SlotSpecs::new(got.alloc);
    for datum in data {
        let slot = slot_row(got, names, datum)?;
        let spec = SlotSpec {
            place: datum.place,
            name: slot.name,
            initargs: slot.initargs,
            initform: slot.initform,
        };
        got.add(&mut slots, spec);
    }
    Some(slots)
}
