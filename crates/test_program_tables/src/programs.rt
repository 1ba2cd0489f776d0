// Programs: their rows and core forms as data, and what is said of them.

mod built_in;
mod forms;
mod lambda;
mod make;
mod primitives;
mod questions;
mod rows;
mod words;

use crate::inputs::command;
use base::{Datum, Names};
use built_in::no_rows;
use lang_meaning::ProgramRows;
use questions::ask;
use rows::take;
use test_rows::RowAnswer;

/// Rows of a program behind those of the built-in classes, and questions, in order.
pub fn answer_row(got: &mut RowAnswer, names: &mut Names, data: &[Datum]) -> Option<()> {
    let mut rows = no_rows(got, names)?;
    let answered = put_all(got, names, &mut rows, data);
    drop(rows);
    answered
}

fn put_all(
    got: &mut RowAnswer,
    names: &Names,
    rows: &mut ProgramRows,
    data: &[Datum],
) -> Option<()> {
    for datum in data {
        put_one(got, names, rows, datum)?;
    }
    Some(())
}

fn put_one(
    got: &mut RowAnswer,
    names: &Names,
    rows: &mut ProgramRows,
    datum: &Datum,
) -> Option<()> {
    let (head, parts) = command(names, datum)?;
    match head {
        "whole" | "nodes" | "frame" | "depth" | "arity" => ask(got, names, rows, head, parts),
        _ => take(got, names, rows, head, parts),
    }
}
