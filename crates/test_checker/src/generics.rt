// What the rows of generic functions have to be: methods that are congruent and differ.

ghost use Rattle.std.specs.Prelude.{◌≡◌, ◌==◌, ◌&&◌, nat_lt, slice_get, length, IfOk};
ghost use Rattle.std.specs.List.{list_all, list_any};
ghost use Rattle.lang_meaning.specs.Classes.{is_qualifier};
ghost use Rattle.lang_meaning.specs.Facts.{is_congruent, knows_next, method_fits, same_method, generic_fits};
ghost use Rattle.lang_meaning.specs.Lookup.{all_differ};

use crate::bodies::is_alone;
use crate::classes::{are_classes, same_numbers};
use base::NoMemory;
use lang_meaning::{GenericRow, MethodRow, ProcedureId, ProgramRows, Qualifier};
use std::alloc::Global;

pub fn generics_fit(alloc: Global, rows: &ProgramRows) -> Result<bool, NoMemory>
    ensures { IfOk result (λ yes. yes ≡ list_all (generic_fits rows.now) rows.now.generics) }
{
    for generic in rows.generics.as_slice() {
        if !generic_fits(alloc, rows, generic)? {
            return Ok(false);
        }
    }
    Ok(true)
}

fn generic_fits(alloc: Global, rows: &ProgramRows, generic: &GenericRow) -> Result<bool, NoMemory>
    ensures { IfOk result (λ yes. yes ≡ generic_fits rows.now generic.now) }
{
    if methods_fit(alloc, rows, generic, generic.methods.as_slice())? {
        Ok(methods_differ(generic.methods.as_slice()))
    } else {
        Ok(false)
    }
}

fn methods_fit(
    alloc: Global,
    rows: &ProgramRows,
    generic: &GenericRow,
    methods: &[MethodRow],
) -> Result<bool, NoMemory>
    ensures { IfOk result (λ yes. yes ≡ list_all (method_fits rows.now generic.now) methods.now) }
{
    for method in methods {
        if !method_fits(alloc, rows, generic, method)? {
            return Ok(false);
        }
    }
    Ok(true)
}

fn method_fits(
    alloc: Global,
    rows: &ProgramRows,
    generic: &GenericRow,
    method: &MethodRow,
) -> Result<bool, NoMemory>
    ensures { IfOk result (λ yes. yes ≡ method_fits rows.now generic.now method.now) }
{
    if is_well_formed(rows, generic, method) {
        is_alone(alloc, rows, knows_next(method.qualifier), method.procedure)
    } else {
        Ok(false)
    }
}

// Whether a method has one class for each required argument, and a congruent procedure.
fn is_well_formed(rows: &ProgramRows, generic: &GenericRow, method: &MethodRow) -> bool
    ensures { result ≡ (length method.now.classes == generic.now.required
        && list_all (λ c. nat_lt c (length rows.now.classes)) method.now.classes
        && is_congruent generic.now (slice_get rows.now.procedures method.now.procedure)) }
{
    method.classes.len() == generic.required as usize
        && are_classes(rows, method.classes.as_slice())
        && is_congruent(rows, generic, method.procedure)
}

fn is_congruent(rows: &ProgramRows, generic: &GenericRow, id: ProcedureId) -> bool
    ensures { result ≡ is_congruent generic.now (slice_get rows.now.procedures id) }
{
    match rows.procedures.get(id) {
        None => false,
        Some(procedure) => {
            procedure.required.len() == generic.required as usize
                && procedure.rest.is_some() == generic.rest
        }
    }
}

fn knows_next(qualifier: Qualifier) -> bool
    ensures { result ≡ knows_next qualifier }
{
    match qualifier {
        Qualifier::Primary | Qualifier::Around => true,
        Qualifier::Before | Qualifier::After => false,
    }
}

fn same_method(a: &MethodRow, b: &MethodRow) -> bool
    ensures { result ≡ same_method a.now b.now }
{
    same_qualifier(a.qualifier, b.qualifier)
        && same_numbers(a.classes.as_slice(), b.classes.as_slice())
}

fn same_qualifier(a: Qualifier, b: Qualifier) -> bool
    ensures { result ≡ is_qualifier a b }
{
    match (a, b) {
        (Qualifier::Primary, Qualifier::Primary)
        | (Qualifier::Around, Qualifier::Around)
        | (Qualifier::Before, Qualifier::Before)
        | (Qualifier::After, Qualifier::After) => true,
        _ => false,
    }
}

fn has_method(method: &MethodRow, methods: &[MethodRow]) -> bool
    ensures { result ≡ list_any (same_method method.now) methods.now }
{
    for other in methods {
        if same_method(method, other) {
            return true;
        }
    }
    false
}

fn methods_differ(methods: &[MethodRow]) -> bool
    ensures { result ≡ all_differ same_method methods.now }
{
    let mut left = methods;
    while let [first, rest @ ..] = left {
        if has_method(first, rest) {
            return false;
        }
        left = rest;
    }
    true
}
