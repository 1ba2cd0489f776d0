// The rows of forms that bind: variables, dynamic variables, functions and local functions.

ghost use Rattle.std.specs.Prelude.{◌≡◌, ◌+◌, ◌<◌, ◌++◌, ◌∷◌, [], Some, None, IfOk, length, is_some};
ghost use Rattle.front_profile.specs.RowWords as word;
ghost use Rattle.front_profile.specs.RowWords.{each_bound};
ghost use Rattle.front_profile.specs.BindingRows as row;
ghost use Rattle.front_profile.specs.Names.{parts_around};
ghost use Rattle.front_profile.specs.Shapes.{symbol_of, all_symbols, pairs_in, parameters_in};
ghost use Rattle.front_profile.specs.declared.elaboration.Elaboration.TheVariants.{OfVariables, OfFunction};
ghost use Rattle.front_drafts.specs.Drafts.{around, shows, Draws};
ghost use Rattle.front_drafts.specs.Views.{view_parts};
ghost use Rattle.front_syntax.specs.Views.{view_pairs};

use crate::bound::parts_around;
use crate::inside::with_inside;
use base::{Datum, NameList, NoMemory, Reason};
use front_drafts::draft::{Bindings, Draft, Note, made_of, made_within, offence};
use front_drafts::here::{FormContext, deeper, fits_depth};
use front_drafts::plan::{Part, Parts, inner_forms, parameter_parts, push_below, push_form};
use front_profile::{Bound, BoundList, Elaboration, Parameters};
use front_syntax::shapes::{PairList, name_of, pairs_in, parameters_in, symbol_of};
use std::alloc::Global;

// Variables with their values.
fn bound_parts<'a>(alloc: Global, pairs: &PairList<'a>) -> Result<Parts<'a>, NoMemory>
    ensures { IfOk result (λ parts. view_parts parts ≡ each_bound (view_pairs pairs.now)) }
{
    let mut parts = Parts::new(alloc);
    for pair in pairs.as_slice() {
        parts.push(Part::Bind(pair.name, pair.datum))?;
    }
    Ok(parts)
}

// What stands in the place of a list of bindings and is none, in a form with so many core forms of its own.
fn no_bindings<'a>(here: FormContext, own: u32, list: &Datum) -> Draft<'a>
    ensures { shows here.entry result
        ≡ word.within_depth own (around here.entry) here.entry.place (word.bad_binding list.now) }
{
    if fits_depth(here.spot, own) {
        offence(list.place, Reason::BadBinding)
    } else {
        offence(here.place, Reason::DepthLimit)
    }
}

// Variables with their values round a body.
fn variables<'a>(
    here: FormContext,
    pairs: &PairList<'a>,
    forms: &'a [Datum],
) -> Result<Draft<'a>, NoMemory>
    requires { here.spot.depth + 2 < 4294967296 }
    ensures { Draws here.entry
        (word.made_of (around here.entry)
        (word.deeper 2 (around here.entry)) here.entry.place here.entry.tables.now (each_bound (view_pairs pairs.now) ++ word.each_inner forms.now) OfVariables) result }
{
    let parts = bound_parts(here.alloc, pairs)?;
    with_inside(
        here,
        deeper(here.spot, 2),
        parts,
        forms,
        Elaboration::OfVariables,
    )
}

/// `(let ((v x)*) f*)`
pub fn let_draft<'a>(here: FormContext, items: &'a [Datum]) -> Result<Draft<'a>, NoMemory>
    ensures { Draws here.entry
        (row.let_row (around here.entry) here.entry.tables.now here.entry.place items.now) result }
{
    let [list, forms @ ..] = items else {
        return Ok(offence(here.place, Reason::BadShape));
    };
    if !fits_depth(here.spot, 2) {
        return Ok(offence(here.place, Reason::DepthLimit));
    }
    match pairs_in(here.alloc, here.tables.words, list)? {
        Some(pairs) => variables(here, &pairs, forms),
        None => Ok(offence(list.place, Reason::BadBinding)),
    }
}

// The names of these bindings, none where one has no name.
fn names_of(here: FormContext, pairs: &PairList) -> Result<Option<NameList>, NoMemory>
    ensures { IfOk result (λ names. names ≡ row.names_of (view_pairs pairs.now)) }
{
    let mut names = NameList::new(here.alloc);
    for pair in pairs.as_slice() {
        let Some(name) = name_of(pair.name) else {
            return Ok(None);
        };
        names.push(name)?;
    }
    Ok(Some(names))
}

// Their values.
fn values_of<'a>(here: FormContext, pairs: &PairList<'a>) -> Result<Parts<'a>, NoMemory>
    ensures { IfOk result (λ parts. view_parts parts ≡ row.values_of (view_pairs pairs.now)) }
{
    let mut parts = Parts::new(here.alloc);
    for pair in pairs.as_slice() {
        push_form(&mut parts, pair.datum)?;
    }
    Ok(parts)
}

// Dynamic variables of these names, bound to these values round a body.
fn dynamics<'a>(
    here: FormContext,
    pairs: &PairList<'a>,
    names: NameList,
    forms: &'a [Datum],
) -> Result<Draft<'a>, NoMemory>
    ensures { Draws here.entry
        (row.dynamics_as (around here.entry) here.entry.tables.now here.entry.place forms.now (view_pairs pairs.now) (Some names)) result }
{
    let mut parts = values_of(here, pairs)?;
    push_below(&mut parts, forms)?;
    Ok(made_within(
        here,
        Note::Nothing,
        2,
        parts,
        Elaboration::OfDynamics(names),
    ))
}

// Dynamic variables of these bindings, where each has a name.
fn named_dynamics<'a>(
    here: FormContext,
    pairs: &PairList<'a>,
    forms: &'a [Datum],
) -> Result<Draft<'a>, NoMemory>
    ensures { Draws here.entry
        (row.dynamics_as (around here.entry) here.entry.tables.now here.entry.place forms.now (view_pairs pairs.now) (row.names_of (view_pairs pairs.now))) result }
{
    match names_of(here, pairs)? {
        Some(names) => dynamics(here, pairs, names, forms),
        None => Ok(offence(here.place, Reason::BadShape)),
    }
}

/// `(dynamic-let ((v x)*) f*)`: dynamic variables have names.
pub fn dynamic_let_draft<'a>(here: FormContext, items: &'a [Datum]) -> Result<Draft<'a>, NoMemory>
    ensures { Draws here.entry
        (row.dynamic_let_row (around here.entry) here.entry.tables.now here.entry.place items.now) result }
{
    let [list, forms @ ..] = items else {
        return Ok(offence(here.place, Reason::BadShape));
    };
    match pairs_in(here.alloc, here.tables.words, list)? {
        Some(pairs) => named_dynamics(here, &pairs, forms),
        None => Ok(no_bindings(here, 2, list)),
    }
}

// A function of these parameters.
fn function<'a>(
    here: FormContext,
    parameters: &Parameters,
    forms: &'a [Datum],
) -> Result<Draft<'a>, NoMemory>
    requires { here.spot.depth + 2 < 4294967296 }
    ensures { Draws here.entry
        (word.made_of (around here.entry)
        (word.deeper 2 (around here.entry)) here.entry.place here.entry.tables.now (word.each_parameter (all_symbols parameters.now) ++ word.each_inner forms.now)
        (OfFunction (length parameters.now.required) (is_some parameters.now.rest) (parts_around here.entry.bound.now here.entry.spot.in_method))) result }
{
    let around = parts_around(here.alloc, here.bound, here.spot.in_method)?;
    let making = Elaboration::OfFunction(
        parameters.required.len(),
        parameters.rest.is_some(),
        around,
    );
    let Ok(parts) = parameter_parts(here.alloc, parameters) else {
        drop(making);
        return Err(NoMemory);
    };
    with_inside(here, deeper(here.spot, 2), parts, forms, making)
}

/// `(lambda lambda-list f*)`
pub fn lambda_draft<'a>(here: FormContext, items: &'a [Datum]) -> Result<Draft<'a>, NoMemory>
    ensures { Draws here.entry
        (row.lambda_row (around here.entry) here.entry.tables.now here.entry.place items.now) result }
{
    let [list, forms @ ..] = items else {
        return Ok(offence(here.place, Reason::BadShape));
    };
    if !fits_depth(here.spot, 2) {
        return Ok(offence(here.place, Reason::DepthLimit));
    }
    match parameters_in(here.alloc, here.tables.words, list)? {
        Some(parameters) => function(here, &parameters, forms),
        None => Ok(offence(list.place, Reason::BadBinding)),
    }
}

// The local functions of a list, each the value of a variable around; none where one is not.
fn functions_of(here: FormContext, pairs: &PairList) -> Result<Option<BoundList>, NoMemory>
    ensures { IfOk result (λ functions. functions ≡ row.functions_of (around here.entry) (view_pairs pairs.now)) }
{
    let mut functions = BoundList::new(here.alloc);
    for pair in pairs.as_slice() {
        let Some(symbol) = symbol_of(pair.datum) else {
            return Ok(None);
        };
        let Some(variable) = here.bound.variable_of(symbol) else {
            return Ok(None);
        };
        functions.push(Bound::Function(pair.name, variable))?;
    }
    Ok(Some(functions))
}

// A body with these local functions around.
fn with_these<'a>(
    here: FormContext,
    kept: bool,
    functions: BoundList,
    forms: &'a [Datum],
) -> Result<Draft<'a>, NoMemory>
    ensures { Draws here.entry
        (row.functions_as (around here.entry) here.entry.tables.now here.entry.place forms.now kept (Some functions)) result }
{
    if kept {
        drop(functions);
        return Ok(offence(here.place, Reason::ReservedName));
    }
    if !fits_depth(here.spot, 1) {
        drop(functions);
        return Ok(offence(here.place, Reason::DepthLimit));
    }
    let Ok(inner) = inner_forms(here.alloc, forms) else {
        drop(functions);
        return Err(NoMemory);
    };
    let work = Bindings {
        inside: deeper(here.spot, 1),
        binds: functions,
        parts: Parts::new(here.alloc),
        inner,
    };
    Ok(made_of(here, Note::Nothing, work, Elaboration::InSequence))
}

// A body with the local functions of these bindings around, where each is one.
fn with_each<'a>(
    here: FormContext,
    kept: bool,
    pairs: &PairList,
    forms: &'a [Datum],
) -> Result<Draft<'a>, NoMemory>
    ensures { Draws here.entry
        (row.functions_as (around here.entry) here.entry.tables.now here.entry.place forms.now kept (row.functions_of (around here.entry) (view_pairs pairs.now))) result }
{
    match functions_of(here, pairs)? {
        Some(functions) => with_these(here, kept, functions, forms),
        None => Ok(offence(here.place, Reason::BadShape)),
    }
}

/// `(%with-functions ((g v)*) f*)`: in the body each g is the function that is the value of the variable
/// v. The language keeps one of these names or not.
pub fn with_functions_draft<'a>(
    here: FormContext,
    kept: bool,
    items: &'a [Datum],
) -> Result<Draft<'a>, NoMemory>
    ensures { Draws here.entry
        (row.with_functions_row kept (around here.entry) here.entry.tables.now here.entry.place items.now) result }
{
    let [list, forms @ ..] = items else {
        return Ok(offence(here.place, Reason::BadShape));
    };
    match pairs_in(here.alloc, here.tables.words, list)? {
        Some(pairs) => with_each(here, kept, &pairs, forms),
        None => Ok(no_bindings(here, 1, list)),
    }
}
