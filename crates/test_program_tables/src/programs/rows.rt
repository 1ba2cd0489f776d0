// Rows of a program as data.

use crate::inputs::{command, found, id, ids, items, name, number, word};
use crate::method::method;
use crate::programs::forms::form;
use crate::slots::slot_rows;
use base::{Datum, ItemList, Kind, Name, Names, Place};
use lang_meaning::{
    Callee, ClassRow, CoreList, FunctionRow, GenericRow, LiteralRow, MethodRows, Procedure,
    ProgramRows, Var,
};
use std::str;
use test_rows::RowAnswer;

// How many forms may stand inside one another in a row: the reader reads no more.
const DEPTH: u32 = 300;

/// Takes rows of one kind into the program, behind those that it has.
pub fn take(
    got: &mut RowAnswer,
    names: &Names,
    rows: &mut ProgramRows,
    head: &str,
    parts: &[Datum],
) -> Option<()> {
    match (head, parts) {
        ("cut-classes", [count]) => cut_classes(rows, id(count)?),
        ("sites", [count]) => take_sites(got, rows, number(count)?),
        ("copy", []) => copy_main(got, rows),
        _ => take_rows(got, names, rows, found(TABLES, head)?, parts),
    }
}

// Only the first classes stay, so many.
fn cut_classes(rows: &mut ProgramRows, count: usize) -> Option<()> {
    if count > rows.classes.len() {
        return None;
    }
    rows.classes.cut(count);
    Some(())
}

// The tables of a program that take rows one by one.
#[derive(Clone, Copy)]
enum Table {
    Literals,
    Procedures,
    Classes,
    Generics,
    Functions,
    Main,
}

const TABLES: &[(&str, Table)] = &[
    ("literals", Table::Literals),
    ("procedures", Table::Procedures),
    ("classes", Table::Classes),
    ("generics", Table::Generics),
    ("functions", Table::Functions),
    ("main", Table::Main),
];

fn take_rows(
    got: &mut RowAnswer,
    names: &Names,
    rows: &mut ProgramRows,
    table: Table,
    parts: &[Datum],
) -> Option<()> {
    for part in parts {
        take_row(got, names, rows, table, part)?;
    }
    Some(())
}

// Takes one row of that table.
fn take_row(
    got: &mut RowAnswer,
    names: &Names,
    rows: &mut ProgramRows,
    table: Table,
    part: &Datum,
) -> Option<()> {
    match table {
        Table::Literals => {
            let row = literal(got, names, part);
            add_found(got, &mut rows.literals, row)
        }
        Table::Procedures => {
            let row = procedure(got, names, part);
            add_found(got, &mut rows.procedures, row)
        }
        Table::Classes => {
            let row = class(got, names, part);
            add_found(got, &mut rows.classes, row)
        }
        Table::Generics => {
            let row = generic(got, names, part);
            add_found(got, &mut rows.generics, row)
        }
        Table::Functions => add_found(got, &mut rows.functions, function(names, part)),
        Table::Main => {
            let row = form(got, names, part, DEPTH);
            add_found(got, &mut rows.main, row)
        }
    }
}

// Appends a row, where there is one.
fn add_found<T: Drop>(got: &mut RowAnswer, list: &mut ItemList<T>, found: Option<T>) -> Option<()> {
    got.add(list, found?);
    Some(())
}

// A copy of each main form takes its place.
fn copy_main(got: &mut RowAnswer, rows: &mut ProgramRows) -> Option<()> {
    let mut copies = CoreList::new(got.alloc);
    for form in rows.main.as_slice() {
        let copy = got.kept(form.copy(got.alloc));
        add_found(got, &mut copies, copy)?;
    }
    rows.main = copies;
    Some(())
}

// So many sites, in the first line.
fn take_sites(got: &mut RowAnswer, rows: &mut ProgramRows, count: u32) -> Option<()> {
    for site in 0..count {
        let place = Place {
            line: 1,
            column: site + 1,
        };
        got.add(&mut rows.sites, place);
    }
    Some(())
}

// `(datum X)`, `(integer "536870912")` for an integer that no text spells, `(class 33)` or
// `(function f)`.
fn literal(got: &mut RowAnswer, names: &Names, datum: &Datum) -> Option<LiteralRow> {
    match command(names, datum)? {
        ("datum", [datum]) => Some(LiteralRow::Datum(got.kept(datum.copy(got.alloc))?)),
        ("integer", [digits]) => Some(LiteralRow::Datum(wide_integer(digits)?)),
        ("class", [class]) => Some(LiteralRow::Class(id(class)?)),
        ("function", [function]) => Some(LiteralRow::Function(name(function)?)),
        _ => None,
    }
}

fn wide_integer(datum: &Datum) -> Option<Datum> {
    let Kind::Str(bytes) = &datum.kind else {
        return None;
    };
    let digits = str::from_utf8(bytes.as_slice()).ok()?;
    Some(Datum::new(datum.place, Kind::Int(digits.parse().ok()?)))
}

// A name or nil, variables, and a body: `(f (0 1 :rest 2) BODY)`.
fn procedure(got: &mut RowAnswer, names: &Names, datum: &Datum) -> Option<Procedure> {
    let [own, variables, body] = items(datum)? else {
        return None;
    };
    let name = name_or_nil(own)?;
    let (required, rest) = variables_of(names, items(variables)?)?;
    let required = ids(got, required)?;
    let Some(body) = form(got, names, body, DEPTH) else {
        drop(required);
        return None;
    };
    Some(Procedure {
        name,
        required,
        rest,
        body,
    })
}

fn name_or_nil(datum: &Datum) -> Option<Option<Name>> {
    match &datum.kind {
        Kind::Nil => Some(None),
        _ => Some(Some(name(datum)?)),
    }
}

// The required variables, and that of the rest.
fn variables_of<'a>(names: &Names, variables: &'a [Datum]) -> Option<(&'a [Datum], Option<Var>)> {
    match variables {
        [required @ .., key, rest] if word(names, key) == Some(":rest") => {
            Some((required, Some(id(rest)?)))
        }
        required => Some((required, None)),
    }
}

// A name, a precedence list, slots, and `abstract` for an abstract class.
fn class(got: &mut RowAnswer, names: &Names, datum: &Datum) -> Option<ClassRow> {
    let (own, line, slots, abstract_class) = match items(datum)? {
        [own, line, slots] => (own, line, slots, false),
        [own, line, slots, kind] if word(names, kind) == Some("abstract") => {
            (own, line, slots, true)
        }
        _ => return None,
    };
    let name = name(own)?;
    let slots = items(slots)?;
    let precedence = ids(got, items(line)?)?;
    let Some(slots) = slot_rows(got, names, slots) else {
        drop(precedence);
        return None;
    };
    Some(ClassRow {
        name,
        precedence,
        slots,
        abstract_class,
    })
}

// A name, the number of required arguments, `rest` where it takes more, and methods.
fn generic(got: &mut RowAnswer, names: &Names, datum: &Datum) -> Option<GenericRow> {
    let [own, required, methods @ ..] = items(datum)? else {
        return None;
    };
    let mut row = GenericRow {
        name: name(own)?,
        required: number(required)?,
        rest: false,
        methods: MethodRows::new(got.alloc),
    };
    if take_methods(got, names, &mut row, methods).is_none() {
        drop(row);
        return None;
    }
    Some(row)
}

fn take_methods(
    got: &mut RowAnswer,
    names: &Names,
    row: &mut GenericRow,
    methods: &[Datum],
) -> Option<()> {
    for datum in methods {
        match &datum.kind {
            Kind::Sym(_) => row.rest = true,
            _ => {
                let method = method(got, names, items(datum)?);
                add_found(got, &mut row.methods, method)?;
            }
        }
    }
    Some(())
}

// A name, and `procedure` or `generic` with its number.
fn function(names: &Names, datum: &Datum) -> Option<FunctionRow> {
    let [own, kind, callee] = items(datum)? else {
        return None;
    };
    let callee = id(callee)?;
    Some(FunctionRow {
        name: name(own)?,
        callee: match word(names, kind)? {
            "procedure" => Callee::Procedure(callee),
            "generic" => Callee::Generic(callee),
            _ => return None,
        },
    })
}
