// What the rows of literals and of functions have to be.

ghost use Rattle.std.specs.Prelude.{◌≡◌, IfOk};
ghost use Rattle.std.specs.List.{list_all, list_any};
ghost use Rattle.lang_meaning.specs.Facts.{literal_fits, callee_fits, same_name};
ghost use Rattle.lang_meaning.specs.Lookup.{all_differ};

use crate::bodies::is_alone;
use base::NoMemory;
use lang_meaning::{Callee, FunctionRow, LiteralRow, ProgramRows};
use std::alloc::Global;

pub fn literals_fit(rows: &ProgramRows) -> bool
    ensures { result ≡ list_all (literal_fits rows.now) rows.now.literals }
{
    for row in rows.literals.as_slice() {
        if !literal_fits(rows, row) {
            return false;
        }
    }
    true
}

fn literal_fits(rows: &ProgramRows, row: &LiteralRow) -> bool
    ensures { result ≡ literal_fits rows.now row.now }
{
    match row {
        LiteralRow::Datum(datum) => datum.is_formed(),
        LiteralRow::Function(_) => true,
        LiteralRow::Class(id) => *id < rows.classes.len(),
    }
}

pub fn functions_fit(alloc: Global, rows: &ProgramRows) -> Result<bool, NoMemory>
    ensures { IfOk result (λ yes. yes ≡ list_all (λ f. callee_fits rows.now f.callee) rows.now.functions) }
{
    for function in rows.functions.as_slice() {
        if !callee_fits(alloc, rows, function.callee)? {
            return Ok(false);
        }
    }
    Ok(true)
}

fn callee_fits(alloc: Global, rows: &ProgramRows, callee: Callee) -> Result<bool, NoMemory>
    ensures { IfOk result (λ yes. yes ≡ callee_fits rows.now callee) }
{
    match callee {
        Callee::Procedure(id) => is_alone(alloc, rows, false, id),
        Callee::Generic(id) => Ok(id < rows.generics.len()),
    }
}

fn has_name(function: &FunctionRow, functions: &[FunctionRow]) -> bool
    ensures { result ≡ list_any (same_name function.now) functions.now }
{
    for other in functions {
        if function.name.0 == other.name.0 {
            return true;
        }
    }
    false
}

/// Whether no two functions have one name.
pub fn names_differ(functions: &[FunctionRow]) -> bool
    ensures { result ≡ all_differ same_name functions.now }
{
    let mut left = functions;
    while let [first, rest @ ..] = left {
        if has_name(first, rest) {
            return false;
        }
        left = rest;
    }
    true
}
