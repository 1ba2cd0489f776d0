// Generic functions: which methods they take, and which of them a call runs.

mod questions;
mod setting;

use crate::inputs::command;
use base::{Datum, Names};
use questions::ask;
use setting::MethodRows;
use test_rows::RowAnswer;

/// Classes, generic functions, methods and questions, in order. A method that is refused answers so.
pub fn answer_row(got: &mut RowAnswer, names: &Names, data: &[Datum]) -> Option<()> {
    let mut setting = MethodRows::nothing(got.alloc);
    let answered = put_all(got, names, &mut setting, data);
    drop(setting);
    answered
}

fn put_all(
    got: &mut RowAnswer,
    names: &Names,
    setting: &mut MethodRows,
    data: &[Datum],
) -> Option<()> {
    for datum in data {
        put_one(got, names, setting, datum)?;
    }
    Some(())
}

fn put_one(
    got: &mut RowAnswer,
    names: &Names,
    setting: &mut MethodRows,
    datum: &Datum,
) -> Option<()> {
    let (head, parts) = command(names, datum)?;
    match head {
        "classes" => setting.take_classes(got, parts),
        "flat" => setting.take_flat(got, parts),
        "generic" => setting.define(got, names, parts),
        "add" => setting.add(got, names, parts),
        _ => ask(got, setting, head, parts),
    }
}
