// The row of the form that defines a generic function.

ghost use Rattle.std.specs.Prelude.{◌≡◌, ◌+◌, ◌<◌, ◌++◌, ◌∷◌, [], Some, None, ◌||◌, length, IfOk, OnOk, if◌then◌else◌};
ghost use Rattle.std.specs.List.{list_any};
ghost use Rattle.lang_derived.specs.Asked.{list_items};
ghost use Rattle.front_profile.specs.GenericRows as row;
ghost use Rattle.front_profile.specs.MethodShapes as shape;
ghost use Rattle.front_profile.specs.Nodes.{offends};
ghost use Rattle.front_definitions.specs.Generics.{view_option};
ghost use Rattle.front_syntax.specs.Definitions.{view_method, view_methods};
ghost use Rattle.front_drafts.specs.Drafts.{around, Draws};
ghost use Rattle.front_drafts.specs.Views.{view_parts};

use crate::methods::{fits, push_head, push_method, written_head};
use base::{Datum, ItemList, Name, Names, NoMemory, Reason};
use front_drafts::draft::{DefinedMethods, Draft, offence};
use front_drafts::here::{FormContext, fits_depth};
use front_drafts::plan::Parts;
use front_drafts::taken::{defining_offence, is_reserved, is_taken};
use front_profile::{MethodHeads, Parameters, Taker};
use front_syntax::methods::{WrittenMethod, method_in, some_fresh_class};
use front_syntax::naming::{GivenName, given_name};
use front_syntax::shapes::parameters_in;
use front_syntax::words::keeps;
use lang_derived::{is_word, list_items};
use lang_meaning::{GenericRow, MethodRow, MethodRows};

/// An option of the definition of a generic function: none that there is; one that this profile leaves out; the standard
/// method combination; or a method.
#[derive(Clone, Copy)]
pub(crate) enum GenericOption<'a> {
    NoOption,
    LeftOut,
    Standard,
    OfMethod(WrittenMethod<'a>),
}

type WrittenMethods<'a> = ItemList<WrittenMethod<'a>>;

// The option of a method that stands there.
fn method_option<'a>(names: &Names, items: &'a [Datum]) -> GenericOption<'a>
    ensures { view_option result ≡ row.method_option (shape.method_in names.now items.now) }
{
    match method_in(names, items) {
        Some(method) => {
            if some_fresh_class(method.list) {
                GenericOption::NoOption
            } else {
                GenericOption::OfMethod(method)
            }
        }
        None => GenericOption::NoOption,
    }
}

fn is_standard(names: &Names, items: &[Datum]) -> bool
    ensures { result ≡ row.is_standard names.now items.now }
{
    let [item] = items else {
        return false;
    };
    is_word(names, b"standard", item)
}

fn is_left_out(names: &Names, head: &Datum) -> bool
    ensures { result ≡ row.is_left_out_option names.now head.now }
{
    is_word(names, b":metaclass", head) || is_word(names, b":generic-function-class", head)
}

// The method combination that is named there.
fn combination<'a>(names: &Names, items: &[Datum]) -> GenericOption<'a>
    ensures { view_option result ≡ (if row.is_standard names.now items.now then row.standard else row.left_out) }
{
    if is_standard(names, items) {
        GenericOption::Standard
    } else {
        GenericOption::LeftOut
    }
}

// The option that a datum is.
fn option_of<'a>(names: &Names, datum: &'a Datum) -> GenericOption<'a>
    ensures { view_option result ≡ row.option_of names.now (list_items datum.now) }
{
    let Some([head, others @ ..]) = list_items(datum) else {
        return GenericOption::NoOption;
    };
    if is_word(names, b":method", head) {
        method_option(names, others)
    } else if is_left_out(names, head) {
        GenericOption::LeftOut
    } else if is_word(names, b":method-combination", head) {
        combination(names, others)
    } else {
        GenericOption::NoOption
    }
}

fn some_no_option(names: &Names, items: &[Datum]) -> bool
    ensures { result ≡ list_any row.is_no_option (row.options_of names.now items.now) }
{
    for item in items {
        if matches!(option_of(names, item), GenericOption::NoOption) {
            return true;
        }
    }
    false
}

fn some_left_out(names: &Names, items: &[Datum]) -> bool
    ensures { result ≡ list_any row.is_of_left_out (row.options_of names.now items.now) }
{
    for item in items {
        if matches!(option_of(names, item), GenericOption::LeftOut) {
            return true;
        }
    }
    false
}

// The methods among options.
fn methods_among<'a>(
    here: FormContext,
    names: &Names,
    items: &'a [Datum],
) -> Result<WrittenMethods<'a>, NoMemory>
    ensures { IfOk result (λ methods. view_methods methods ≡ row.methods_among (row.options_of names.now items.now)) }
{
    let mut methods = WrittenMethods::new(here.alloc);
    for item in items {
        if let GenericOption::OfMethod(method) = option_of(names, item) {
            methods.push(method)?;
        }
    }
    Ok(methods)
}

// The number of required arguments.
fn argument_count(parameters: &Parameters) -> Result<u32, NoMemory>
    ensures { IfOk result (λ count. count ≡ length parameters.now.required) }
{
    match u32::try_from(parameters.required.len()) {
        Ok(count) => Ok(count),
        Err(_) => Err(NoMemory),
    }
}

// The generic function that is defined, without methods.
fn new_generic(
    here: FormContext,
    name: Name,
    parameters: &Parameters,
) -> Result<GenericRow, NoMemory>
    ensures { IfOk result (λ generic. Some generic ≡ row.generic_row name (Some parameters.now)) }
{
    Ok(GenericRow {
        name,
        required: argument_count(parameters)?,
        rest: parameters.rest.is_some(),
        methods: MethodRows::new(here.alloc),
    })
}

// Adds a method, by its head where all of it is known.
fn add_method(
    here: FormContext,
    generic: &mut GenericRow,
    method: &WrittenMethod,
) -> Result<(), NoMemory>
    ensures { OnOk result (Some generic.new
        ≡ row.with_head (Some generic.old) (row.written_head here.entry.tables.now (view_method method.now))) }
{
    match written_head(here, method)? {
        Some(head) => generic.methods.push(MethodRow {
            qualifier: head.qualifier,
            classes: head.classes,
            procedure: 0,
        }),
        None => Ok(()),
    }
}

// Whether the generic function takes all methods, one after another.
fn all_fit_generic(
    here: FormContext,
    generic: &mut GenericRow,
    methods: &WrittenMethods,
) -> Result<bool, NoMemory>
    ensures { IfOk result (λ fit. fit ≡ row.all_fit here.entry.tables.now (Some generic.old) (view_methods methods.now)) }
{
    for method in methods.as_slice() {
        if !fits(here, generic, method)? {
            return Ok(false);
        }
        add_method(here, generic, method)?;
    }
    Ok(true)
}

// Whether all methods have a qualifier that there is.
fn all_qualified(here: FormContext, methods: &WrittenMethods) -> bool
    ensures { result ≡ row.all_fit here.entry.tables.now None (view_methods methods.now) }
{
    for method in methods.as_slice() {
        if method.qualifier.is_none() {
            return false;
        }
    }
    true
}

// Whether all methods fit, where the generic function has these parameters.
fn all_fit(
    here: FormContext,
    name: Name,
    parameters: &Option<Parameters>,
    methods: &WrittenMethods,
) -> Result<bool, NoMemory>
    ensures { IfOk result (λ fit. fit ≡ row.all_fit here.entry.tables.now (row.generic_row name parameters.now) (view_methods methods.now)) }
{
    match parameters {
        Some(parameters) => {
            let mut generic = new_generic(here, name, parameters)?;
            let fit = all_fit_generic(here, &mut generic, methods);
            drop(generic);
            fit
        }
        None => Ok(all_qualified(here, methods)),
    }
}

// The parts of all methods.
fn each_method<'a>(
    here: FormContext,
    name: Name,
    methods: &WrittenMethods<'a>,
) -> Result<Parts<'a>, NoMemory>
    ensures { IfOk result (λ parts. view_parts parts ≡ row.each_method here.entry.tables.now name (view_methods methods.now)) }
{
    let mut parts = Parts::new(here.alloc);
    for method in methods.as_slice() {
        push_method(here, &mut parts, name, method)?;
    }
    Ok(parts)
}

// The heads of all methods.
fn all_heads(here: FormContext, methods: &WrittenMethods) -> Result<MethodHeads, NoMemory>
    ensures { IfOk result (λ heads. heads ≡ row.all_heads here.entry.tables.now (view_methods methods.now)) }
{
    let mut heads = MethodHeads::new(here.alloc);
    for method in methods.as_slice() {
        push_head(here, &mut heads, method)?;
    }
    Ok(heads)
}

// The definition, with these parameters and methods.
fn generic_with<'a>(
    here: FormContext,
    datum: &Datum,
    list: &Datum,
    name: Name,
    parameters: &Parameters,
    methods: &WrittenMethods<'a>,
) -> Result<Draft<'a>, NoMemory>
    ensures { Draws here.entry (row.generic_with (around here.entry) here.entry.tables.now datum.now name list.now (view_methods methods.now) (Some parameters.now)) result }
{
    let required = argument_count(parameters)?;
    let parts = each_method(here, name, methods)?;
    let heads = all_heads(here, methods)?;
    Ok(Draft::DefinesMethods(DefinedMethods {
        place: datum.place,
        name,
        taker: Taker::New(name, required, parameters.rest.is_some()),
        parts,
        heads,
    }))
}

// The definition, where all methods fit.
fn generic_judged<'a>(
    here: FormContext,
    datum: &Datum,
    list: &Datum,
    name: Name,
    parameters: &Option<Parameters>,
    methods: &WrittenMethods<'a>,
) -> Result<Draft<'a>, NoMemory>
    ensures { Draws here.entry
        (if row.all_fit here.entry.tables.now (row.generic_row name parameters.now) (view_methods methods.now)
        then row.generic_with (around here.entry) here.entry.tables.now datum.now name list.now (view_methods methods.now) parameters.now
        else offends here.entry.place Reason.BadMethod) result }
{
    if !all_fit(here, name, parameters, methods)? {
        return Ok(offence(here.place, Reason::BadMethod));
    }
    match parameters {
        Some(parameters) => generic_with(here, datum, list, name, parameters, methods),
        None => Ok(offence(list.place, Reason::BadBinding)),
    }
}

// The definition, behind what all definitions share.
fn generic_checked<'a>(
    here: FormContext,
    names: &Names,
    datum: &Datum,
    list: &Datum,
    options: &'a [Datum],
    name: Name,
) -> Result<Draft<'a>, NoMemory>
    ensures { Draws here.entry (row.generic_checked (around here.entry) here.entry.tables.now here.entry.place datum.now list.now
        (row.options_of names.now options.now) name) result }
{
    let methods = methods_among(here, names, options)?;
    let parameters = parameters_in(here.alloc, here.tables.words, list)?;
    generic_judged(here, datum, list, name, &parameters, &methods)
}

// The definition of a generic function of that name.
fn generic_of<'a>(
    here: FormContext,
    names: &Names,
    datum: &Datum,
    list: &Datum,
    options: &'a [Datum],
    name: Name,
) -> Result<Draft<'a>, NoMemory>
    ensures { Draws here.entry (row.generic_of names.now (around here.entry) here.entry.tables.now here.entry.place datum.now list.now
        (row.options_of names.now options.now) name) result }
{
    let taken = is_taken(here.spot.sited, here.tables, name);
    let reserved = is_reserved(here, keeps(names, name), name);
    if let Some(reason) = defining_offence(here, taken, reserved) {
        return Ok(offence(here.place, reason));
    }
    if some_left_out(names, options) {
        return Ok(offence(here.place, Reason::LeftOut));
    }
    if !fits_depth(here.spot, 1) {
        return Ok(offence(here.place, Reason::DepthLimit));
    }
    generic_checked(here, names, datum, list, options, name)
}

/// `(defgeneric name lambda-list option*)`
pub fn defgeneric_draft<'a>(
    here: FormContext,
    names: &Names,
    items: &'a [Datum],
) -> Result<Draft<'a>, NoMemory>
    ensures { Draws here.entry
        (row.defgeneric_row names.now (around here.entry) here.entry.tables.now here.entry.place items.now) result }
{
    let [datum, list, options @ ..] = items else {
        return Ok(offence(here.place, Reason::BadShape));
    };
    if some_no_option(names, options) {
        return Ok(offence(here.place, Reason::BadShape));
    }
    match given_name(here.alloc, names, datum)? {
        GivenName::NoName => Ok(offence(here.place, Reason::BadShape)),
        GivenName::Unfit => Ok(offence(here.place, Reason::BadShape)),
        GivenName::Lacking => Ok(Draft::Unnamed),
        GivenName::Given(name) => generic_of(here, names, datum, list, options, name),
    }
}
