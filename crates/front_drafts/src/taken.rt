// Whether the tables have a name already, and the offence of a definition that takes one.

ghost use Rattle.std.specs.Prelude.{◌≡◌, Some, None, slice_get, MatchOption};
ghost use Rattle.std.specs.List.{list_any};
ghost use Rattle.front_profile.specs.DefiningRows as row;
ghost use Rattle.front_profile.specs.Elaborations.{generic_named};
ghost use Rattle.front_drafts.specs.Drafts.{around};

use crate::here::FormContext;
use base::{ItemList, Name, NameList, Reason};
use front_profile::{MacroRow, Tables};
use lang_meaning::{FunctionRows, GenericId, GenericRow};

/// Whether the name is among these.
pub fn has_name(names: &NameList, name: Name) -> bool
    ensures { result ≡ list_any (row.is_that name) names.now }
{
    for other in names.as_slice() {
        if name.0 == other.0 {
            return true;
        }
    }
    false
}

// For a definition of a file, what a prelude defined does not count.
fn counts(of_file: bool, before: bool) -> bool
    ensures { result ≡ row.counts of_file before }
{
    !of_file || before
}

/// Whether a global variable that counts for a definition, of a file or of a prelude, has the name.
pub fn has_global(of_file: bool, tables: &Tables, name: Name) -> bool
    ensures { result ≡ row.has_global of_file tables.now name }
{
    for global in tables.globals.as_slice() {
        if name.0 == global.name.0 && counts(of_file, global.of_file) {
            return true;
        }
    }
    false
}

/// Whether a dynamic variable that counts for a definition, of a file or of a prelude, has the name.
pub fn has_dynamic(of_file: bool, tables: &Tables, name: Name) -> bool
    ensures { result ≡ row.has_dynamic of_file tables.now name }
{
    for variable in tables.dynamics.as_slice() {
        if name.0 == variable.name.0 && counts(of_file, variable.of_file) {
            return true;
        }
    }
    false
}

// Whether one of these functions has the name.
fn is_function(functions: &FunctionRows, name: Name) -> bool
    ensures { result ≡ list_any (λ f. row.is_that name f.name) functions.now }
{
    for function in functions.as_slice() {
        if name.0 == function.name.0 {
            return true;
        }
    }
    false
}

// Whether one of these macros has the name.
fn is_macro(macros: &ItemList<MacroRow>, name: Name) -> bool
    ensures { result ≡ list_any (λ m. row.is_that name m.name) macros.now }
{
    for row in macros.as_slice() {
        if name.0 == row.name.0 {
            return true;
        }
    }
    false
}

/// Whether a function or a macro has the name.
pub fn has_function(tables: &Tables, name: Name) -> bool
    ensures { result ≡ row.has_function tables.now name }
{
    is_function(&tables.functions, name) || is_macro(&tables.macros, name)
}

/// A name is taken by what the same text defined before.
pub fn is_taken(of_file: bool, tables: &Tables, name: Name) -> bool
    ensures { result ≡ row.is_taken of_file tables.now name }
{
    has_function(tables, name) && !(of_file && has_name(&tables.prelude, name))
}

/// Nothing of a file is defined under the name `t`.
pub fn is_truth(here: FormContext, name: Name) -> bool
    ensures { result ≡ row.is_truth (around here.entry) here.entry.tables.now name }
{
    here.spot.sited && name.0 == here.tables.words.truth.0
}

/// A name is reserved where the language keeps it, where it is `t`, and where the prelude has a function or a macro of it.
pub fn is_reserved(here: FormContext, kept: bool, name: Name) -> bool
    ensures { result ≡ row.is_reserved kept (around here.entry) here.entry.tables.now name }
{
    is_truth(here, name) || (here.spot.sited && (kept || has_name(&here.tables.prelude, name)))
}

/// The lowest of the reasons that all definitions share, where the name is taken, and where it is reserved.
pub fn defining_offence(here: FormContext, taken: bool, reserved: bool) -> Option<Reason>
    ensures { result ≡ row.defining_offence here.entry.spot.top taken reserved }
{
    if taken {
        Some(Reason::DuplicateName)
    } else if !here.spot.top {
        Some(Reason::NotTopLevel)
    } else if reserved {
        Some(Reason::ReservedName)
    } else {
        None
    }
}

/// The generic function of a name.
#[tactic(auto, using(crate::proofs::Generics::found_by_name))]
pub fn generic_named(tables: &Tables, name: Name) -> Option<GenericId>
    ensures { result ≡ generic_named tables.now.generics name }
{
    tables.generics.find(name)
}

/// The row of a generic function.
pub fn generic_row(tables: &Tables, generic: GenericId) -> Option<&GenericRow>
    ensures { MatchOption result (slice_get tables.now.generics generic ≡ None)
        (λ row. slice_get tables.now.generics generic ≡ Some row.now) }
{
    tables.generics.rows().get(generic)
}
