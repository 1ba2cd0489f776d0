// What is told of a condition: its slots in order, each behind a blank.

ghost use Rattle.std.specs.Prelude.{◌≡◌, List, ℕ, Some, IfOk, OnOk};
ghost use Rattle.lang_told.specs.Told.{Tells, which_class, class_of_class, slots_of_object};
ghost use Rattle.eval_store.specs.Words.{value_of_word, value_or_none, slots_of, object_of};
ghost use Rattle.eval_store.specs.View.{Beside, state_of};
ghost use Rattle.eval_told.specs.Parts.{objects_of};
ghost use Rattle.eval_told.specs.Telling.{ValueIsTold, SlotIsTold, SlotsAreTold, begun};

use crate::names::class_name;
use crate::writing::write_word;
use base::{Bytes, Names, NoMemory};
use eval_primitives::class_of;
use eval_store::{Object, Slots, Store, Word};
use lang_meaning::{ClassId, ClassRows};
use std::alloc::Global;

/// A value is told as it is written, where it is a datum of at most so many parts.
pub const MOST_PARTS: usize = 100;

/// What is told of the value of a word as of a condition with which a run ended: nothing, if it has no slots, or a colon and each
/// slot behind a blank. A class is told by its name, a datum of at most 100 parts as it is printed so that it can be read again, and
/// any other value by `#` and the name of its class.
pub fn tell_condition(
    alloc: Global,
    names: &Names,
    classes: &ClassRows,
    store: &Store<'_>,
    word: Word,
) -> Result<Bytes, NoMemory>
    ensures { IfOk result (λ told. (b : Beside) → Tells names.now classes.now (state_of names.now store.now b).store (value_of_word names.now word) told) }
{
    match store.fetch(word) {
        Some(object) => tell_object(alloc, names, classes, store, object),
        None => Ok(Bytes::new(alloc)),
    }
}

// What is no instance has no slots.
fn tell_object(
    alloc: Global,
    names: &Names,
    classes: &ClassRows,
    store: &Store<'_>,
    object: &Object<'_>,
) -> Result<Bytes, NoMemory>
    ensures { IfOk result (SlotsAreTold names.now classes.now (objects_of names.now store.now) (slots_of_object (Some (object_of names.now object.now)))) }
{
    match object {
        Object::Instance(instance) => tell_slots(alloc, names, classes, store, &instance.slots),
        _ => Ok(Bytes::new(alloc)),
    }
}

// Slots behind a colon, if there are any.
fn tell_slots(
    alloc: Global,
    names: &Names,
    classes: &ClassRows,
    store: &Store<'_>,
    slots: &Slots,
) -> Result<Bytes, NoMemory>
    ensures { IfOk result (SlotsAreTold names.now classes.now (objects_of names.now store.now) (slots_of names.now slots.now)) }
{
    let mut told = Bytes::new(alloc);
    for slot in slots.as_slice() {
        begin_slot(&mut told)?;
        tell_slot(alloc, names, classes, store, *slot, &mut told)?;
    }
    Ok(told)
}

// A slot more stands behind a blank, and the first one behind a colon too.
fn begin_slot(told: &mut Bytes) -> Result<(), NoMemory>
    ensures { OnOk result (told.new ≡ begun told.old) }
{
    if told.len() == 0 {
        told.append(b": ")
    } else {
        told.push(b' ')
    }
}

fn tell_slot(
    alloc: Global,
    names: &Names,
    classes: &ClassRows,
    store: &Store<'_>,
    slot: Option<Word>,
    out: &mut Bytes,
) -> Result<(), NoMemory>
    ensures { OnOk result (SlotIsTold names.now classes.now (objects_of names.now store.now) (value_or_none names.now slot) out.old out.new) }
{
    match slot {
        Some(word) => tell_value(alloc, names, classes, store, word, out),
        None => out.append(b"#<unbound>"),
    }
}

fn tell_value(
    alloc: Global,
    names: &Names,
    classes: &ClassRows,
    store: &Store<'_>,
    word: Word,
    out: &mut Bytes,
) -> Result<(), NoMemory>
    ensures { OnOk result (ValueIsTold names.now classes.now (objects_of names.now store.now) (value_of_word names.now word) out.old out.new) }
{
    if let Some(class) = which_class(store, word) {
        return out.append(class_name(names, classes, class));
    }
    let mut text = Bytes::new(alloc);
    let mut left = MOST_PARTS;
    let written = write_word(alloc, names, store, word, &mut text, &mut left)?;
    if written {
        return out.append(text.as_slice());
    }
    out.push(b'#')?;
    out.append(class_name(names, classes, class_of(store, word)))
}

// Which class a value is, if it is one.
fn which_class(store: &Store<'_>, word: Word) -> Option<ClassId>
    ensures { (names : List (List ℕ)) → which_class (objects_of names store.now) (value_of_word names word) ≡ result }
{
    match store.fetch(word) {
        Some(object) => class_in(object),
        None => None,
    }
}

fn class_in(object: &Object<'_>) -> Option<ClassId>
    ensures { (names : List (List ℕ)) → class_of_class (Some (object_of names object.now)) ≡ result }
{
    match object {
        Object::Class(class) => Some(*class),
        _ => None,
    }
}
