// What is wrong with a form itself.

ghost use Rattle.std.specs.Prelude.{◌≡◌, Some};
ghost use Rattle.lang_meaning.specs.Literals.{function_row};
ghost use Rattle.lang_meaning.specs.Lookup.{text};
ghost use Rattle.lang_meaning.specs.Meaning.{place_of_site};
ghost use Rattle.lang_warnings.specs.Faults.{count_fault, procedure_fault, generic_fault, callee_fault, call_fault, variable_fault, of_name, fault_of};
ghost use Rattle.lang_warnings.specs.Known.{IsKnown};
ghost use Rattle.lang_warnings.specs.Warnings.{warning_of};

use crate::known::Known;
use crate::warning::{Fault, Warning};
use base::{Name, Place};
use lang_meaning::{Callee, Core, CoreForm, GenericRow, Procedure, ProgramRows, SiteId};
use lang_rows::named::{number_of, row_at};

/// What a form at its site is warned of.
pub(crate) fn warning_of(known: &Known<'_>, form: &Core) -> Option<Warning>
    requires { IsKnown known.now }
    ensures { result ≡ warning_of known.now.names.now known.now.program.now form.now }
{
    let CoreForm::Sited(site, inside) = &form.form else {
        return None;
    };
    let (name, fault) = fault_of(known, inside)?;
    let place = place_of_site(known.program, *site);
    Some(Warning { place, name, fault })
}

// Where a site is; 0:0 where the program has no such site.
fn place_of_site(program: &ProgramRows, site: SiteId) -> Place
    ensures { result ≡ place_of_site program.now.sites site }
{
    match program.sites.get(site.saturating_sub(1)) {
        Some(place) => *place,
        None => Place { line: 0, column: 0 },
    }
}

// The name that a form is at fault for, and the fault.
#[tactic(auto, using(lang_meaning::specs::bridge::Listed::forms_listed))]
fn fault_of(known: &Known<'_>, form: &Core) -> Option<(Name, Fault)>
    requires { IsKnown known.now }
    ensures { result ≡ fault_of known.now.names.now known.now.program.now form.now }
{
    match &form.form {
        CoreForm::Call(name, list) => of_name(*name, call_fault(known, *name, list.len())),
        CoreForm::Global(name) | CoreForm::SetGlobal(name, _) => {
            of_name(*name, variable_fault(known, *name))
        }
        _ => None,
    }
}

fn of_name(name: Name, fault: Option<Fault>) -> Option<(Name, Fault)>
    ensures { result ≡ of_name name.0 fault }
{
    let fault = fault?;
    Some((name, fault))
}

fn variable_fault(known: &Known<'_>, name: Name) -> Option<Fault>
    requires { IsKnown known.now }
    ensures { result ≡ variable_fault known.now.program.now name.0 }
{
    match known.globals.find(name.0) {
        Some(()) => None,
        None => Some(Fault::NoVariable),
    }
}

fn call_fault(known: &Known<'_>, name: Name, given: usize) -> Option<Fault>
    requires { IsKnown known.now }
    ensures { result ≡ call_fault known.now.program.now given
        (function_row known.now.names.now known.now.program.now.functions (text known.now.names.now name.0)) }
{
    match row_at(known.rows, number_of(known.names, name)) {
        None => Some(Fault::NoFunction),
        Some(function) => callee_fault(known.program, given, function.callee),
    }
}

fn callee_fault(program: &ProgramRows, given: usize, callee: Callee) -> Option<Fault>
    ensures { result ≡ callee_fault program.now given callee }
{
    match callee {
        Callee::Procedure(id) => procedure_fault(given, program.procedures.get(id)?),
        Callee::Generic(id) => generic_fault(given, program.generics.get(id)?),
    }
}

fn procedure_fault(given: usize, procedure: &Procedure) -> Option<Fault>
    ensures { result ≡ procedure_fault given (Some procedure.now) }
{
    count_fault(given, procedure.required.len(), procedure.rest.is_some())
}

fn generic_fault(given: usize, generic: &GenericRow) -> Option<Fault>
    ensures { result ≡ generic_fault given (Some generic.now) }
{
    count_fault(given, generic.required as usize, generic.rest)
}

// What is wrong with so many arguments.
fn count_fault(given: usize, required: usize, more: bool) -> Option<Fault>
    ensures { result ≡ count_fault given required more }
{
    let fits = if more {
        required <= given
    } else {
        given == required
    };
    if fits {
        None
    } else {
        Some(Fault::Arguments {
            given,
            required,
            more,
        })
    }
}
