// The row of the form that defines a method, and what it shares with the methods of a generic function's definition.

ghost use Rattle.std.specs.Prelude.{◌≡◌, ◌+◌, ◌<◌, ◌++◌, ◌∷◌, [], Some, None, not, ◌&&◌, ◌||◌, slice_get, IfOk, OnOk};
ghost use Rattle.std.specs.List.{list_any};
ghost use Rattle.std.specs.Str.{bytes_eq};
ghost use Rattle.lang_meaning.specs.Classes.{is_qualifier};
ghost use Rattle.lang_dispatch.specs.Methods.{is_same};
ghost use Rattle.front_profile.specs.GenericRows as row;
ghost use Rattle.front_profile.specs.Elaborations.{generic_named};
ghost use Rattle.front_profile.specs.MethodShapes.{specialised_in};
ghost use Rattle.front_syntax.specs.Definitions.{maybe_specialised, view_specialised, view_method};
ghost use Rattle.front_drafts.specs.Drafts.{around, Draws};
ghost use Rattle.front_drafts.specs.Views.{view_parts};

use base::{Datum, Name, Names, NoMemory, Reason};
use front_drafts::draft::{DefinedMethods, Draft, offence};
use front_drafts::here::{FormContext, fits_depth};
use front_drafts::plan::{Part, Parts, Written};
use front_drafts::taken::{generic_named, generic_row, is_reserved};
use front_profile::{MethodHead, MethodHeads, Taker};
use front_syntax::methods::{
    Specialised, WrittenMethod, classes_asked, first_unknown, may_have_next, method_in,
    some_fresh_class, specialised_in,
};
use front_syntax::naming::{GivenName, given_name};
use front_syntax::words::keeps;
use lang_derived::is_word;
use lang_meaning::{ClassIds, GenericId, GenericRow, MethodRow, Qualifier};

// The head of a method, where all of it is known.
fn head_of(
    here: FormContext,
    qualifier: Option<Qualifier>,
    specialised: &Option<Specialised>,
) -> Result<Option<MethodHead>, NoMemory>
    ensures { IfOk result (λ head. head ≡ row.head_of here.entry.tables.now qualifier (maybe_specialised specialised.now)) }
{
    let Some(qualifier) = qualifier else {
        return Ok(None);
    };
    let Some(specialised) = specialised else {
        return Ok(None);
    };
    match classes_asked(here.alloc, &here.tables.classes, &specialised.classes)? {
        Some(classes) => Ok(Some(MethodHead { qualifier, classes })),
        None => Ok(None),
    }
}

/// The same of a method as it is written.
pub(crate) fn written_head(
    here: FormContext,
    method: &WrittenMethod,
) -> Result<Option<MethodHead>, NoMemory>
    ensures { IfOk result (λ head. head ≡ row.written_head here.entry.tables.now (view_method method.now)) }
{
    let specialised = specialised_in(here.alloc, here.tables.words, method.list)?;
    head_of(here, method.qualifier, &specialised)
}

fn same_qualifier(qualifier: Qualifier, other: Qualifier) -> bool
    ensures { result ≡ is_qualifier qualifier other }
{
    match (qualifier, other) {
        (Qualifier::Primary, Qualifier::Primary)
        | (Qualifier::Around, Qualifier::Around)
        | (Qualifier::Before, Qualifier::Before)
        | (Qualifier::After, Qualifier::After) => true,
        _ => false,
    }
}

fn same_classes(classes: &ClassIds, others: &ClassIds) -> bool
    ensures { result ≡ bytes_eq classes.now others.now }
{
    classes.as_slice() == others.as_slice()
}

// Whether a method has that head.
fn has_head(head: &MethodHead, method: &MethodRow) -> bool
    ensures { result ≡ is_same (record { qualifier = head.now.qualifier; classes = head.now.classes; procedure = 0 }) method.now }
{
    same_qualifier(head.qualifier, method.qualifier) && same_classes(&head.classes, &method.classes)
}

fn some_has_head(generic: &GenericRow, head: &MethodHead) -> bool
    ensures { result ≡ row.is_there generic.now (Some head.now) }
{
    for method in generic.methods.as_slice() {
        if has_head(head, method) {
            return true;
        }
    }
    false
}

// Whether a method of the generic function has the same qualifier and classes.
fn is_there(generic: &GenericRow, head: &Option<MethodHead>) -> bool
    ensures { result ≡ row.is_there generic.now head.now }
{
    match head {
        Some(head) => some_has_head(generic, head),
        None => false,
    }
}

// Whether there are as many parameters as the generic function has.
fn fits_by_number(generic: &GenericRow, specialised: &Option<Specialised>) -> bool
    ensures { result ≡ row.fits_by_number generic.now (maybe_specialised specialised.now) }
{
    match specialised {
        Some(specialised) => {
            specialised.classes.len() == generic.required as usize
                && specialised.parameters.rest.is_some() == generic.rest
        }
        None => true,
    }
}

// Whether the generic function takes a method that has these parameters, by what is known of it.
fn fits_generic(
    here: FormContext,
    generic: &GenericRow,
    method: &WrittenMethod,
    specialised: &Option<Specialised>,
) -> Result<bool, NoMemory>
    ensures { IfOk result (λ fit. fit ≡ (row.fits_by_number generic.now (maybe_specialised specialised.now)
        && not (row.is_there generic.now (row.head_of here.entry.tables.now method.now.qualifier (maybe_specialised specialised.now))))) }
{
    if !fits_by_number(generic, specialised) {
        return Ok(false);
    }
    let head = head_of(here, method.qualifier, specialised)?;
    Ok(!is_there(generic, &head))
}

/// Whether a generic function takes a method, by what is known of both.
pub(crate) fn fits(
    here: FormContext,
    generic: &GenericRow,
    method: &WrittenMethod,
) -> Result<bool, NoMemory>
    ensures { IfOk result (λ fit. fit ≡ row.fits here.entry.tables.now (Some generic.now) (view_method method.now)) }
{
    if method.qualifier.is_none() {
        return Ok(false);
    }
    let specialised = specialised_in(here.alloc, here.tables.words, method.list)?;
    fits_generic(here, generic, method, &specialised)
}

// The same of the generic function of that number.
fn fits_number(
    here: FormContext,
    generic: GenericId,
    method: &WrittenMethod,
) -> Result<bool, NoMemory>
    ensures { IfOk result (λ fit. fit ≡ row.fits here.entry.tables.now (slice_get here.entry.tables.now.generics generic) (view_method method.now)) }
{
    match generic_row(here.tables, generic) {
        Some(generic) => fits(here, generic, method),
        None => Ok(method.qualifier.is_some()),
    }
}

// Appends the function of a method that has these parameters, or the offence of its first class that is not known.
fn push_function<'a>(
    here: FormContext,
    parts: &mut Parts<'a>,
    name: Name,
    method: &WrittenMethod<'a>,
    specialised: Specialised,
) -> Result<(), NoMemory>
    ensures { OnOk result (view_parts parts.new ≡ view_parts parts.old
        ++ row.specialised_parts here.entry.tables.now name (view_method method.now) (Some (view_specialised specialised))) }
{
    let unknown = first_unknown(&here.tables.classes, &specialised.classes);
    drop(specialised.classes);
    let parameters = specialised.parameters;
    if let Some(place) = unknown {
        drop(parameters);
        return parts.push(Part::Wrong(place, Reason::UnknownClass));
    }
    match method.qualifier {
        Some(qualifier) => {
            let next = may_have_next(qualifier);
            parts.push(Part::Function(Written::Method(name, next, parameters, method.body)))
        }
        None => {
            drop(parameters);
            Ok(())
        }
    }
}

/// Appends the parts of a method: its function, or the offence of its list of parameters or of its first class that is not
/// known.
pub(crate) fn push_method<'a>(
    here: FormContext,
    parts: &mut Parts<'a>,
    name: Name,
    method: &WrittenMethod<'a>,
) -> Result<(), NoMemory>
    ensures { OnOk result (view_parts parts.new ≡ view_parts parts.old
        ++ row.method_parts here.entry.tables.now name (view_method method.now)) }
{
    let list = method.list;
    match specialised_in(here.alloc, here.tables.words, list)? {
        Some(specialised) => push_function(here, parts, name, method, specialised),
        None => parts.push(Part::Wrong(list.place, Reason::BadBinding)),
    }
}

/// Appends the head of a method all of which is known.
pub(crate) fn push_head(
    here: FormContext,
    heads: &mut MethodHeads,
    method: &WrittenMethod,
) -> Result<(), NoMemory>
    ensures { OnOk result (heads.new ≡ heads.old ++ row.written_heads here.entry.tables.now (view_method method.now)) }
{
    match written_head(here, method)? {
        Some(head) => heads.push(head),
        None => Ok(()),
    }
}

// Two generic functions of the prelude take methods of a file.
fn takes_methods(names: &Names, datum: &Datum) -> bool
    ensures { result ≡ row.takes_methods names.now datum.now }
{
    is_word(names, b"initialize-object", datum) || is_word(names, b"report-condition", datum)
}

fn is_closed(here: FormContext, names: &Names, datum: &Datum, name: Name) -> bool
    ensures { result ≡ row.is_closed names.now (around here.entry) here.entry.tables.now datum.now name }
{
    is_reserved(here, keeps(names, name), name) && !takes_methods(names, datum)
}

// A method of that generic function, which takes it.
fn one_method<'a>(
    here: FormContext,
    datum: &Datum,
    name: Name,
    method: &WrittenMethod<'a>,
    generic: GenericId,
) -> Result<Draft<'a>, NoMemory>
    ensures { Draws here.entry (row.methods_of (around here.entry) here.entry.tables.now datum.now name (Taker.There generic)
        (row.method_parts here.entry.tables.now name (view_method method.now)) (row.written_heads here.entry.tables.now (view_method method.now))) result }
{
    let mut parts = Parts::new(here.alloc);
    push_method(here, &mut parts, name, method)?;
    let mut heads = MethodHeads::new(here.alloc);
    push_head(here, &mut heads, method)?;
    Ok(Draft::DefinesMethods(DefinedMethods {
        place: datum.place,
        name,
        taker: Taker::There(generic),
        parts,
        heads,
    }))
}

// A method of the generic function of that name, where there is one.
fn method_for<'a>(
    here: FormContext,
    datum: &Datum,
    name: Name,
    method: &WrittenMethod<'a>,
) -> Result<Draft<'a>, NoMemory>
    ensures { Draws here.entry (row.method_for (around here.entry) here.entry.tables.now here.entry.place datum.now name (view_method method.now)
        (generic_named here.entry.tables.now.generics name)) result }
{
    let Some(generic) = generic_named(here.tables, name) else {
        return Ok(offence(here.place, Reason::UnknownGeneric));
    };
    if fits_number(here, generic, method)? {
        one_method(here, datum, name, method, generic)
    } else {
        Ok(offence(here.place, Reason::BadMethod))
    }
}

// The definition of a method under that name.
fn method_of<'a>(
    here: FormContext,
    names: &Names,
    datum: &Datum,
    method: &WrittenMethod<'a>,
    name: Name,
) -> Result<Draft<'a>, NoMemory>
    ensures { Draws here.entry
        (row.method_of names.now (around here.entry) here.entry.tables.now here.entry.place datum.now (view_method method.now) name) result }
{
    if !here.spot.top {
        return Ok(offence(here.place, Reason::NotTopLevel));
    }
    if is_closed(here, names, datum, name) {
        return Ok(offence(here.place, Reason::ReservedName));
    }
    if !fits_depth(here.spot, 1) {
        return Ok(offence(here.place, Reason::DepthLimit));
    }
    method_for(here, datum, name, method)
}

/// `(defmethod name [qualifier] parameters f*)`
pub fn defmethod_draft<'a>(
    here: FormContext,
    names: &Names,
    items: &'a [Datum],
) -> Result<Draft<'a>, NoMemory>
    ensures { Draws here.entry
        (row.defmethod_row names.now (around here.entry) here.entry.tables.now here.entry.place items.now) result }
{
    let [datum, others @ ..] = items else {
        return Ok(offence(here.place, Reason::BadShape));
    };
    let Some(method) = method_in(names, others) else {
        return Ok(offence(here.place, Reason::BadShape));
    };
    if some_fresh_class(method.list) {
        return Ok(offence(here.place, Reason::BadShape));
    }
    match given_name(here.alloc, names, datum)? {
        GivenName::NoName => Ok(offence(here.place, Reason::BadShape)),
        GivenName::Unfit => Ok(offence(here.place, Reason::BadShape)),
        GivenName::Lacking => Ok(Draft::Unnamed),
        GivenName::Given(name) => method_of(here, names, datum, &method, name),
    }
}
