// Methods as data.

use crate::inputs::{found, id, ids, items, word};
use base::{Datum, Names};
use lang_meaning::{MethodRow, Qualifier};
use test_rows::RowAnswer;

const QUALIFIERS: &[(&str, Qualifier)] = &[
    ("primary", Qualifier::Primary),
    ("around", Qualifier::Around),
    ("before", Qualifier::Before),
    ("after", Qualifier::After),
];

/// The method of a qualifier, classes and a procedure.
pub fn method(got: &mut RowAnswer, names: &Names, parts: &[Datum]) -> Option<MethodRow> {
    let [kind, classes, procedure] = parts else {
        return None;
    };
    let qualifier = found(QUALIFIERS, word(names, kind)?)?;
    let procedure = id(procedure)?;
    Some(MethodRow {
        qualifier,
        classes: ids(got, items(classes)?)?,
        procedure,
    })
}
