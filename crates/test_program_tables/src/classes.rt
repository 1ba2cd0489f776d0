// Classes: definitions, and what is found of the classes that they make.

mod definition;
mod questions;

use crate::inputs::command;
use base::{Datum, Names};
use definition::define;
use lang_classes::Classes;
use questions::ask;
use test_rows::RowAnswer;

/// Definitions and questions, in order. A definition that is refused answers so.
pub fn answer_row(got: &mut RowAnswer, names: &mut Names, data: &[Datum]) -> Option<()> {
    let mut classes = got.kept(Classes::builtin(got.alloc, names))?;
    let answered = put_all(got, names, &mut classes, data);
    drop(classes);
    answered
}

fn put_all(
    got: &mut RowAnswer,
    names: &Names,
    classes: &mut Classes,
    data: &[Datum],
) -> Option<()> {
    for datum in data {
        put_one(got, names, classes, datum)?;
    }
    Some(())
}

fn put_one(got: &mut RowAnswer, names: &Names, classes: &mut Classes, datum: &Datum) -> Option<()> {
    match command(names, datum)? {
        ("class", parts) => define(got, names, classes, datum.place, parts, false),
        ("abstract-class", parts) => define(got, names, classes, datum.place, parts, true),
        (question, parts) => ask(got, names, classes, question, parts),
    }
}
