// What is asked of classes and generic functions.

use crate::inputs::{id, ids, items};
use crate::methods::setting::MethodRows;
use base::{Datum, ItemList};
use lang_dispatch::{
    Chain, applies, argument_groups, chain_length, generic_cells, is_below, tables, tuple_at,
    tuple_count,
};
use lang_meaning::{ClassIds, GenericRow};
use test_rows::RowAnswer;

/// Puts a question.
pub fn ask(
    got: &mut RowAnswer,
    setting: &MethodRows,
    question: &str,
    parts: &[Datum],
) -> Option<()> {
    match (question, parts) {
        ("cells", []) => push_cells(got, setting),
        ("below", [class, above]) => push_below(got, setting, class, above),
        ("applies", [tuple, method]) => push_applies(got, setting, tuple, method),
        ("tuples", lists) => push_tuples(got, lists),
        ("find", [function]) => {
            got.push_found(setting.generic(function));
            Some(())
        }
        (_, [function, numbers @ ..]) => ask_generic(got, setting, question, function, numbers),
        _ => None,
    }
}

fn push_cells(got: &mut RowAnswer, setting: &MethodRows) -> Option<()> {
    let cells = got.kept(setting.generics.cells(got.alloc, &setting.classes))?;
    got.push(cells);
    Some(())
}

fn push_below(
    got: &mut RowAnswer,
    setting: &MethodRows,
    class: &Datum,
    above: &Datum,
) -> Option<()> {
    got.push_yes_no(is_below(&setting.classes, id(class)?, id(above)?));
    Some(())
}

fn push_applies(
    got: &mut RowAnswer,
    setting: &MethodRows,
    tuple: &Datum,
    method: &Datum,
) -> Option<()> {
    let method = items(method)?;
    let tuple = ids(got, items(tuple)?)?;
    let Some(method) = ids(got, method) else {
        drop(tuple);
        return None;
    };
    got.push_yes_no(applies(&setting.classes, &tuple, &method));
    drop((tuple, method));
    Some(())
}

fn push_tuples(got: &mut RowAnswer, parts: &[Datum]) -> Option<()> {
    let mut lists = ItemList::new(got.alloc);
    let answered = match add_lists(got, &mut lists, parts) {
        Some(()) => push_tuples_of(got, &lists),
        None => None,
    };
    drop(lists);
    answered
}

fn add_lists(got: &mut RowAnswer, lists: &mut ItemList<ClassIds>, parts: &[Datum]) -> Option<()> {
    for part in parts {
        let list = ids(got, items(part)?)?;
        got.add(lists, list);
    }
    Some(())
}

// How many tuples these lists have, and each tuple.
fn push_tuples_of(got: &mut RowAnswer, lists: &ItemList<ClassIds>) -> Option<()> {
    let count = tuple_count(lists);
    got.push(count);
    if count > 1000 {
        return Some(());
    }
    for index in 0..count {
        let tuple = got.kept(tuple_at(got.alloc, lists, count, index))?;
        push_list(got, tuple.as_slice());
        drop(tuple);
    }
    Some(())
}

// A question on the generic function of a name, with numbers behind it.
fn ask_generic(
    got: &mut RowAnswer,
    setting: &MethodRows,
    question: &str,
    function: &Datum,
    numbers: &[Datum],
) -> Option<()> {
    let generic = setting.generic(function)?;
    let row = setting.generics.rows().get(generic)?;
    let numbers = ids(got, numbers)?;
    let answered = match question {
        "count" => push_count(got, row),
        "cells-of" => push_cells_of(got, setting, row),
        "groups" => push_groups(got, setting, row, numbers.as_slice()),
        "length" => push_length(got, setting, row, &numbers),
        "chain" => push_chain(got, setting, generic, numbers.as_slice()),
        _ => None,
    };
    drop(numbers);
    answered
}

fn push_count(got: &mut RowAnswer, row: &GenericRow) -> Option<()> {
    got.push(row.methods.len());
    Some(())
}

fn push_cells_of(got: &mut RowAnswer, setting: &MethodRows, row: &GenericRow) -> Option<()> {
    let cells = got.kept(generic_cells(got.alloc, row, &setting.classes))?;
    got.push(cells);
    Some(())
}

fn push_length(
    got: &mut RowAnswer,
    setting: &MethodRows,
    row: &GenericRow,
    classes: &ClassIds,
) -> Option<()> {
    got.push(chain_length(row, &setting.classes, classes));
    Some(())
}

// The first class of each group at an argument, the group of each class, and whether the argument
// is specialised.
fn push_groups(
    got: &mut RowAnswer,
    setting: &MethodRows,
    row: &GenericRow,
    numbers: &[usize],
) -> Option<()> {
    let [argument] = numbers else {
        return None;
    };
    let groups = got.kept(argument_groups(got.alloc, row, *argument, &setting.classes))?;
    push_list(got, groups.firsts.as_slice());
    push_list(got, groups.numbers.as_slice());
    got.push_yes_no(groups.specialised);
    drop(groups);
    Some(())
}

// The chain of a call, by the tables of all generic functions.
fn push_chain(
    got: &mut RowAnswer,
    setting: &MethodRows,
    generic: usize,
    classes: &[usize],
) -> Option<()> {
    if setting.generics.cells(got.alloc, &setting.classes).ok()? > 262_144 {
        return None;
    }
    let tables = got.kept(tables(got.alloc, setting.generics.rows(), &setting.classes))?;
    push_found(got, tables.chain(generic, classes));
    drop(tables);
    Some(())
}

fn push_found(got: &mut RowAnswer, chain: Option<&Chain>) {
    match chain {
        Some(chain) => push_methods(got, chain),
        None => got.push("none"),
    }
}

// The around, before, primary and after methods.
fn push_methods(got: &mut RowAnswer, chain: &Chain) {
    got.push("(");
    got.put_list(chain.around.as_slice());
    got.put(" ");
    got.put_list(chain.before.as_slice());
    got.put(" ");
    got.put_list(chain.primary.as_slice());
    got.put(" ");
    got.put_list(chain.after.as_slice());
    got.put(")");
}

// A list of numbers more.
fn push_list(got: &mut RowAnswer, numbers: &[usize]) {
    got.begin();
    got.put_list(numbers);
}
