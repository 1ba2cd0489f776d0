// What stands round the body of a form that makes a function: its rest variable and the captured parts.

use crate::inputs::{command, id, ids, items};
use base::{Datum, Kind, Names};
use lang_meaning::{Capture, CaptureList, Var, VarList};
use test_rows::RowAnswer;

/// The number of a rest variable, or nil.
pub fn rest_or_nil(datum: &Datum) -> Option<Option<Var>> {
    match &datum.kind {
        Kind::Nil => Some(None),
        _ => Some(Some(id(datum)?)),
    }
}

/// The required variables of a function, and the parts that it captures.
pub fn around(
    got: &mut RowAnswer,
    names: &Names,
    variables: &Datum,
    parts: &[Datum],
) -> Option<(VarList, CaptureList)> {
    let required = ids(got, items(variables)?)?;
    let Some(captured) = captured(got, names, parts) else {
        drop(required);
        return None;
    };
    Some((required, captured))
}

fn captured(got: &mut RowAnswer, names: &Names, data: &[Datum]) -> Option<CaptureList> {
    let mut list = CaptureList::new(got.alloc);
    for datum in data {
        got.add(&mut list, part(names, datum)?);
    }
    Some(list)
}

// `(v 3)` is the variable 3, `(x 7)` the exit 7, and `(m)` what is around of the method.
fn part(names: &Names, datum: &Datum) -> Option<Capture> {
    let (word, numbers) = command(names, datum)?;
    match numbers {
        [] if word == "m" => Some(Capture::Method),
        [number] if word == "v" => Some(Capture::Variable(id(number)?)),
        [number] if word == "x" => Some(Capture::Exit(id(number)?)),
        _ => None,
    }
}
