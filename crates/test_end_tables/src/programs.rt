// Programs, as rows write them.

use crate::forms::{put_form, put_named, put_variables};
use base::Names;
use lang_meaning::{LiteralRow, Procedure, ProgramRows};
use test_rows::{RowAnswer, Style, show};

// How deep forms and data stand inside one another in a row.
const DEPTH: u32 = 100;

/// Appends a program: its main forms; behind `;` its literals, each a datum, `#'` and the name of a function, or `class` and a number;
/// and behind one more each of its procedures, with its name, its variables and its body.
pub fn put_program(got: &mut RowAnswer, names: &Names, rows: &ProgramRows) -> Option<()> {
    for form in rows.main.as_slice() {
        got.begin();
        put_form(got, names, form, DEPTH)?;
    }
    if rows.literals.len() > 0 {
        got.put(" ;");
    }
    for row in rows.literals.as_slice() {
        got.put(" ");
        put_literal(got, names, row)?;
    }
    for procedure in rows.procedures.as_slice() {
        got.put(" ; ");
        put_procedure(got, names, procedure)?;
    }
    Some(())
}

fn put_literal(got: &mut RowAnswer, names: &Names, row: &LiteralRow) -> Option<()> {
    match row {
        LiteralRow::Datum(datum) => show(got, names, datum, Style::Plain, DEPTH),
        LiteralRow::Function(name) => put_named(got, names, "#'", *name),
        LiteralRow::Class(class) => {
            got.put("class ");
            got.put(*class);
            Some(())
        }
    }
}

fn put_procedure(got: &mut RowAnswer, names: &Names, procedure: &Procedure) -> Option<()> {
    got.put("(");
    if let Some(name) = procedure.name {
        put_named(got, names, "", name)?;
    }
    put_variables(got, procedure.required.as_slice(), procedure.rest);
    got.put(" ");
    put_form(got, names, &procedure.body, DEPTH)?;
    got.put(")");
    Some(())
}
