// What is asked of classes.

ghost use Rattle.std.specs.Prelude.{◌<◌, length};

use crate::classes::definition::{are_below, class_list};
use crate::inputs::{name, text};
use base::{Datum, Names};
use lang_classes::Classes;
use lang_meaning::{ClassId, SlotRow};
use test_rows::RowAnswer;

/// Puts a question.
pub fn ask(
    got: &mut RowAnswer,
    names: &Names,
    classes: &Classes,
    question: &str,
    parts: &[Datum],
) -> Option<()> {
    match (question, parts) {
        ("count", []) => got.push(classes.rows().len()),
        ("find", [class]) => got.push_found(classes.find(name(class)?)),
        ("fit", supers) => push_fit(got, classes, supers)?,
        (_, [class, others @ ..]) => {
            let class = classes.find(name(class)?)?;
            if class >= classes.rows().len() {
                return None;
            }
            match others {
                [] => ask_one(got, names, classes, question, class)?,
                [other] => ask_two(got, classes, question, class, other)?,
                _ => return None,
            }
        }
        _ => return None,
    }
    Some(())
}

// Whether the classes of these names may be the superclasses of one class.
fn push_fit(got: &mut RowAnswer, classes: &Classes, supers: &[Datum]) -> Option<()> {
    let supers = class_list(got, classes, supers)?;
    let answered = push_fit_of(got, classes, supers.as_slice());
    drop(supers);
    answered
}

fn push_fit_of(got: &mut RowAnswer, classes: &Classes, supers: &[ClassId]) -> Option<()> {
    if !are_below(supers, classes.rows().len()) {
        return None;
    }
    got.push_yes_no(classes.supers_fit(supers));
    Some(())
}

// A question on one class.
fn ask_one(
    got: &mut RowAnswer,
    names: &Names,
    classes: &Classes,
    question: &str,
    class: ClassId,
) -> Option<()>
    requires { class < length classes.now.rows }
{
    let row = classes.rows().get(class)?;
    match question {
        "precedence" => push_classes(got, names, classes, classes.precedence(class)),
        "slots" => push_slots(got, names, row.slots.as_slice()),
        "abstract" => {
            got.push_yes_no(row.abstract_class);
            Some(())
        }
        _ => None,
    }
}

// A question on a class and another one, or a slot.
fn ask_two(
    got: &mut RowAnswer,
    classes: &Classes,
    question: &str,
    class: ClassId,
    other: &Datum,
) -> Option<()>
    requires { class < length classes.now.rows }
{
    match question {
        "below" => got.push_yes_no(classes.is_subclass(class, classes.find(name(other)?)?)),
        "place" => match classes.slot_place(class, name(other)?) {
            Some(place) => got.push(place),
            None => got.push("none"),
        },
        _ => return None,
    }
    Some(())
}

// The names of classes, as a list.
fn push_classes(
    got: &mut RowAnswer,
    names: &Names,
    classes: &Classes,
    list: &[ClassId],
) -> Option<()> {
    got.push("(");
    let mut before = "";
    for class in list {
        got.put(before);
        got.put(text(names, classes.rows().get(*class)?.name)?);
        before = " ";
    }
    got.put(")");
    Some(())
}

// Slots as a list, each with its initargs and its initform.
fn push_slots(got: &mut RowAnswer, names: &Names, slots: &[SlotRow]) -> Option<()> {
    got.push("(");
    let mut before = "";
    for slot in slots {
        got.put(before);
        put_slot(got, names, slot)?;
        before = " ";
    }
    got.put(")");
    Some(())
}

fn put_slot(got: &mut RowAnswer, names: &Names, slot: &SlotRow) -> Option<()> {
    let is_plain = slot.initargs.len() == 0 && slot.initform.is_none();
    got.put(if is_plain { "" } else { "(" });
    got.put(text(names, slot.name)?);
    for initarg in slot.initargs.as_slice() {
        got.put(" :initarg ");
        got.put(text(names, *initarg)?);
    }
    if let Some(procedure) = slot.initform {
        got.put(" :initform ");
        got.put(procedure);
    }
    got.put(if is_plain { "" } else { ")" });
    Some(())
}
