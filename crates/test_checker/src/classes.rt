// What the rows of classes have to be: the built-in classes come first.

ghost use Rattle.std.specs.Prelude.{◌≡◌, nat_lt, slice_index_or, [], ◌∷◌, length, ◌<◌, IfOk};
ghost use Rattle.std.specs.Str.{bytes_eq};
ghost use Rattle.std.specs.List.{list_all};
ghost use Rattle.lang_meaning.specs.BuiltIn.{built_in_precedence, built_in_slots};
ghost use Rattle.lang_meaning.specs.Facts.{initform_fits, class_fits, is_one, is_plain_slot, is_row, begins_with_built_in};

use crate::bodies::is_alone;
use base::{Name, NoMemory};
use lang_meaning::{BUILT_IN_CLASSES, ClassRow, ProcedureId, ProgramRows, SlotRow, built_in_class};
use std::alloc::Global;

pub fn classes_fit(alloc: Global, rows: &ProgramRows) -> Result<bool, NoMemory>
    ensures { IfOk result (λ yes. yes ≡ list_all (class_fits rows.now) rows.now.classes) }
{
    for class in rows.classes.as_slice() {
        if !class_fits(alloc, rows, class)? {
            return Ok(false);
        }
    }
    Ok(true)
}

// Whether these are numbers of classes.
pub fn are_classes(rows: &ProgramRows, ids: &[usize]) -> bool
    ensures { result ≡ list_all (λ c. nat_lt c (length rows.now.classes)) ids.now }
{
    let count = rows.classes.len();
    for id in ids {
        if *id >= count {
            return false;
        }
    }
    true
}

fn class_fits(alloc: Global, rows: &ProgramRows, class: &ClassRow) -> Result<bool, NoMemory>
    ensures { IfOk result (λ yes. yes ≡ class_fits rows.now class.now) }
{
    if !are_classes(rows, class.precedence.as_slice()) {
        return Ok(false);
    }
    if !initforms_fit(alloc, rows, class.slots.as_slice())? {
        return Ok(false);
    }
    Ok(class.slots.len() <= 64)
}

fn initforms_fit(alloc: Global, rows: &ProgramRows, slots: &[SlotRow]) -> Result<bool, NoMemory>
    ensures { IfOk result (λ yes. yes ≡ list_all (λ s. initform_fits rows.now s.initform) slots.now) }
{
    for slot in slots {
        if !initform_fits(alloc, rows, slot.initform)? {
            return Ok(false);
        }
    }
    Ok(true)
}

fn initform_fits(
    alloc: Global,
    rows: &ProgramRows,
    initform: Option<ProcedureId>,
) -> Result<bool, NoMemory>
    ensures { IfOk result (λ yes. yes ≡ initform_fits rows.now initform) }
{
    match initform {
        None => Ok(true),
        Some(id) => is_alone(alloc, rows, false, id),
    }
}

/// Whether the built-in classes come first, with their precedence lists and slots.
pub fn begins_with_built_in(classes: &[ClassRow]) -> bool
    ensures { result ≡ begins_with_built_in classes.now built_in_precedence built_in_slots }
{
    for number in 0..BUILT_IN_CLASSES {
        let Some(class) = classes.get(number) else {
            return false;
        };
        if !is_built_in(class, number) {
            return false;
        }
    }
    true
}

// Whether it has that precedence list, the number and then those above it, and so many slots.
fn is_class(class: &ClassRow, number: usize, above: &[usize], slots: usize) -> bool
    ensures { result ≡ is_row class.now (number ∷ above.now) slots }
{
    is_line(class.precedence.as_slice(), number, above)
        && class.slots.len() == slots
        && are_plain(class.slots.as_slice())
        && !class.abstract_class
}

fn is_line(list: &[usize], first: usize, others: &[usize]) -> bool
    ensures { result ≡ bytes_eq list.now (first ∷ others.now) }
{
    match list {
        [] => false,
        [own, above @ ..] => *own == first && same_numbers(above, others),
    }
}

// Whether both lists are the same numbers.
pub fn same_numbers(a: &[usize], b: &[usize]) -> bool
    ensures { result ≡ bytes_eq a.now b.now }
{
    a == b
}

fn are_plain(slots: &[SlotRow]) -> bool
    ensures { result ≡ list_all is_plain_slot slots.now }
{
    for slot in slots {
        if !is_plain_slot(slot) {
            return false;
        }
    }
    true
}

// Whether a slot is its own initarg, and nothing gives it another value.
fn is_plain_slot(slot: &SlotRow) -> bool
    ensures { result ≡ is_plain_slot slot.now }
{
    is_one(slot.name, slot.initargs.as_slice()) && slot.initform.is_none()
}

fn is_one(name: Name, names: &[Name]) -> bool
    ensures { result ≡ is_one name names.now }
{
    match names {
        [one] => name.0 == one.0,
        _ => false,
    }
}

// Whether it is the built-in class of that number.
fn is_built_in(class: &ClassRow, number: usize) -> bool
    requires { number < 34 }
    ensures { result ≡ is_row class.now (slice_index_or built_in_precedence number [])
        (slice_index_or built_in_slots number 0) }
{
    let Some(built_in) = built_in_class(number) else {
        unreachable!()
    };
    is_class(class, number, built_in.above, built_in.slots)
}
