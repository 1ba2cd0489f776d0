// The rows of forms that define, which stand at top level.

ghost use Rattle.std.specs.Prelude.{◌≡◌, IfOk};
ghost use Rattle.front_profile.specs.DefiningRows as row;
ghost use Rattle.front_profile.specs.Shapes.{parameters_in};
ghost use Rattle.front_drafts.specs.Drafts.{around, Draws};

use base::{Datum, Name, NoMemory, Reason};
use front_drafts::draft::{Defined, Draft, offence, one_part};
use front_drafts::here::{FormContext, fits_depth};
use front_drafts::plan::{inner_forms, parameter_parts};
use front_drafts::taken::{
    defining_offence, has_dynamic, has_global, has_name, is_reserved, is_taken, is_truth,
};
use front_profile::{DefinedAs, DynamicRow, GlobalRow, One, Parameters};
use front_syntax::shapes::{named, parameters_in};

/// `(defglobal name x)` and `(defconstant name x)`: a constant is not set before.
pub fn global_draft<'a>(
    here: FormContext,
    constant: bool,
    items: &'a [Datum],
) -> Result<Draft<'a>, NoMemory>
    ensures { Draws here.entry
        (row.global_row constant (around here.entry) here.entry.tables.now here.entry.place items.now) result }
{
    let [target, datum] = items else {
        return Ok(offence(here.place, Reason::BadShape));
    };
    let Some(name) = named(target) else {
        return Ok(offence(here.place, Reason::BadShape));
    };
    let taken = has_global(here.spot.sited, here.tables, name);
    let reserved = is_truth(here, name);
    if let Some(reason) = defining_offence(here, taken, reserved) {
        return Ok(offence(here.place, reason));
    }
    if constant && has_name(&here.tables.set, name) {
        return Ok(offence(here.place, Reason::ConstantSet));
    }
    let row = GlobalRow {
        name,
        constant,
        of_file: here.spot.sited,
    };
    one_part(here, One::DefineGlobal(row), datum)
}

/// `(defdynamic name x)`
pub fn defdynamic_draft<'a>(here: FormContext, items: &'a [Datum]) -> Result<Draft<'a>, NoMemory>
    ensures { Draws here.entry
        (row.defdynamic_row (around here.entry) here.entry.tables.now here.entry.place items.now) result }
{
    let [target, datum] = items else {
        return Ok(offence(here.place, Reason::BadShape));
    };
    let Some(name) = named(target) else {
        return Ok(offence(here.place, Reason::BadShape));
    };
    let taken = has_dynamic(here.spot.sited, here.tables, name);
    let reserved = is_truth(here, name);
    if let Some(reason) = defining_offence(here, taken, reserved) {
        return Ok(offence(here.place, reason));
    }
    let row = DynamicRow {
        name,
        of_file: here.spot.sited,
    };
    one_part(here, One::DefineDynamic(row), datum)
}

// The definition, with what its body binds and has.
fn defun_of<'a>(
    here: FormContext,
    kind: DefinedAs,
    name: Name,
    datum: &'a Datum,
    parameters: &Parameters,
    forms: &'a [Datum],
) -> Result<Draft<'a>, NoMemory>
    ensures { Draws here.entry
        (row.defun_of kind (around here.entry) here.entry.tables.now name datum.now forms.now parameters.now) result }
{
    let parts = parameter_parts(here.alloc, parameters)?;
    let inner = inner_forms(here.alloc, forms)?;
    Ok(Draft::Defines(Defined {
        kind,
        name,
        datum,
        required: parameters.required.len(),
        rest: parameters.rest.is_some(),
        parts,
        inner,
    }))
}

// The definition, where the lambda list is one.
fn defun_with<'a>(
    here: FormContext,
    kind: DefinedAs,
    name: Name,
    datum: &'a Datum,
    list: &Datum,
    forms: &'a [Datum],
) -> Result<Draft<'a>, NoMemory>
    ensures { Draws here.entry
        (row.defun_with kind (around here.entry) here.entry.tables.now name datum.now list.now forms.now (parameters_in here.entry.tables.now.words list.now)) result }
{
    match parameters_in(here.alloc, here.tables.words, list)? {
        Some(parameters) => defun_of(here, kind, name, datum, &parameters, forms),
        None => Ok(offence(list.place, Reason::BadBinding)),
    }
}

/// `(defun name lambda-list f*)` and `(defmacro name lambda-list f*)`. The language keeps the name or not.
pub fn defun_draft<'a>(
    here: FormContext,
    kind: DefinedAs,
    kept: bool,
    items: &'a [Datum],
) -> Result<Draft<'a>, NoMemory>
    ensures { Draws here.entry
        (row.defun_row kind kept (around here.entry) here.entry.tables.now here.entry.place items.now) result }
{
    let [target, list, forms @ ..] = items else {
        return Ok(offence(here.place, Reason::BadShape));
    };
    let Some(name) = named(target) else {
        return Ok(offence(here.place, Reason::BadShape));
    };
    let taken = is_taken(here.spot.sited, here.tables, name);
    let reserved = is_reserved(here, kept, name);
    if let Some(reason) = defining_offence(here, taken, reserved) {
        return Ok(offence(here.place, reason));
    }
    if !fits_depth(here.spot, 1) {
        return Ok(offence(here.place, Reason::DepthLimit));
    }
    defun_with(here, kind, name, target, list, forms)
}
