// The core form that is made of what was found of its parts, and what counts once it is made.

ghost use Rattle.std.specs.Prelude.{◌≡◌, ◌||◌, true, IfOk, OnOk, OnErr};
ghost use Rattle.std.specs.List.{list_any};
ghost use Rattle.lang_meaning.specs.declared.capture.Capture.{Capture as AnyPart};
ghost use Rattle.lang_meaning.specs.Mentions.{mentions};
ghost use Rattle.front_profile.specs.Elaborations.{elaborate, leaf_form, forms_found, at_site, made_form, finished};
ghost use Rattle.front_profile.specs.Suits.{Suits};
ghost use Rattle.front_elaboration.specs.Mentioned.{has, is_part, AreParts};
ghost use Rattle.front_elaboration.specs.Stopping.{LeavesTables};
ghost use Rattle.front_elaboration.specs.Taken.{Gathers, IsMadeOf};

mod accessors;
mod captured;
mod classes;
mod finish;
mod lists;
mod methods;
mod parts;
mod queue;
mod simple;
mod sort;
mod taken;

use crate::kept::{Formed, FoundParts};
use crate::mentioned::Mentioned;
use crate::mentioning::{gather, walk};
use accessors::accessor_procedure;
use base::NoMemory;
use classes::define_class;
use finish::{complete_procedure, define_named, finish_one, procedure_found};
use front_profile::{ElaboratedParts, Elaboration, Leaf, Made, Tables};
use lang_meaning::{Capture, Core, CoreForm, CoreList, SiteId};
use lists::{make_clauses, make_dynamics, make_segments};
use methods::define_methods;
use parts::{make_block, make_function, make_let};
use simple::{call_of_local, leaf_form, make_one, make_two, make_with_body, nothing};
use sort::{Sorted, sort_found};
use std::alloc::Global;
use taken::{called, count_forms, takes_all};

// The core form of what takes nothing but forms, of these.
fn make_of_forms(alloc: Global, making: &Elaboration, forms: CoreList) -> Result<Core, NoMemory>
    ensures { IsMadeOf making.now forms result }
{
    match making {
        Elaboration::Ready(leaf) => Ok(leaf_form(alloc, *leaf)),
        Elaboration::OfOne(one) => make_one(alloc, *one, forms),
        Elaboration::OfTwo(two) => make_two(alloc, *two, forms),
        Elaboration::OfBody(with_body) => make_with_body(alloc, *with_body, forms),
        Elaboration::InSequence => Ok(Core::sequence(forms)),
        Elaboration::CallOf(name) => Ok(Core::new(CoreForm::Call(*name, forms))),
        Elaboration::CallOfValue => Ok(Core::new(CoreForm::CallValue(forms))),
        Elaboration::CallOfLocal(var) => call_of_local(alloc, *var, forms),
        Elaboration::CallOfPrimitive(which) => Ok(Core::prim(*which, forms)),
        Elaboration::OfClauses(lengths) => make_clauses(alloc, lengths, forms),
        Elaboration::OfDynamics(names) => make_dynamics(alloc, names, forms),
        Elaboration::OfBlock(exit) => make_block(alloc, *exit, forms),
        Elaboration::OfSegments(exit, lengths) => make_segments(alloc, *exit, lengths, forms),
        Elaboration::OfFunctionNamed(_, _, _, _, _, leaf)
        | Elaboration::OfMethods(_, _, _, _, leaf)
        | Elaboration::OfClass(_, _, _, leaf) => Ok(leaf_form(alloc, *leaf)),
        Elaboration::OfProcedure(_, _, _)
        | Elaboration::OfAccessor(_, _, _, _)
        | Elaboration::OfVariables
        | Elaboration::OfFunction(_, _, _) => Ok(nothing(alloc)),
    }
}

// The core form, its site aside, of parts of which the forms mention those.
fn elaborate(
    alloc: Global,
    making: &Elaboration,
    found: ElaboratedParts,
    mentioned: &Mentioned,
) -> Result<Core, NoMemory>
    requires { AreParts mentioned.now (λ p. list_any (mentions p) (forms_found found)) }
    ensures { IfOk result (λ core. core ≡ elaborate making.now found) }
{
    let Sorted {
        forms,
        variables,
        bindings,
    } = sort_found(alloc, found)?;
    match making {
        Elaboration::OfVariables => make_let(alloc, bindings, forms),
        Elaboration::OfFunction(required, rest, around) => {
            make_function(alloc, *required, *rest, around, variables, forms, mentioned)
        }
        _ => make_of_forms(alloc, making, forms),
    }
}

// What a form without its site mentions: known from what its parts mention where it takes just those, else by a walk
// over it.
fn mentioned_by(
    alloc: Global,
    is_exact: bool,
    called: Option<Capture>,
    form: &Core,
    outer: Mentioned,
    inner: Mentioned,
) -> Result<Mentioned, NoMemory>
    requires { is_exact ≡ true → (p : AnyPart) → Gathers p form.now (has outer p) (has inner p || is_part p called) }
    ensures { IfOk result (λ all. AreParts all (λ p. mentions p form.now)) }
{
    let mut inner = inner;
    inner.add_some(called)?;
    if is_exact {
        gather(form, outer, inner)
    } else {
        walk(alloc, form)
    }
}

// The form at its site, of what was found of its parts.
fn form_made(
    alloc: Global,
    site: Option<SiteId>,
    making: &Elaboration,
    kept: FoundParts,
) -> Result<Formed, NoMemory>
    ensures { IfOk result (λ form. form ≡ at_site site (elaborate making.now kept)) }
{
    let FoundParts {
        found,
        values,
        bindings,
    } = kept;
    let is_exact = takes_all(making, count_forms(&found), bindings.is_empty());
    let called = called(making);
    let form = elaborate(alloc, making, found, &values)?;
    let Ok(mentioned) = mentioned_by(alloc, is_exact, called, &form, bindings, values) else {
        drop(form);
        return Err(NoMemory);
    };
    Formed::new(alloc, site, form, mentioned)
}

// The same, of how it is made alone.
fn form_of(
    alloc: Global,
    site: Option<SiteId>,
    making: Elaboration,
    kept: FoundParts,
) -> Result<Formed, NoMemory>
    ensures { IfOk result (λ form. form ≡ at_site site (elaborate making kept)) }
{
    form_made(alloc, site, &making, kept)
}

// A form without parts, at its site.
pub(crate) fn leaf_made(alloc: Global, site: Option<SiteId>, leaf: Leaf) -> Result<Formed, NoMemory>
    ensures { IfOk result (λ form. form ≡ at_site site (leaf_form leaf)) }
{
    let form = leaf_form(alloc, leaf);
    let mentioned = gather(&form, Mentioned::new(alloc), Mentioned::new(alloc))?;
    Formed::new(alloc, site, form, mentioned)
}

/// The core form, of which counts from now on what it defines, once that suits the tables. After `NoMemory` nothing
/// counts, but for some of the classes, generic functions and methods that it defines.
pub fn complete(
    alloc: Global,
    made: Made,
    kept: FoundParts,
    tables: &mut Tables,
) -> Result<Formed, NoMemory>
    requires { Suits made.making tables.old }
    ensures form { IfOk result (λ form. form ≡ made_form made kept) }
    ensures ok { OnOk result (tables.new ≡ finished made kept tables.old) }
    ensures err { OnErr result (LeavesTables made.making tables.old tables.new) }
{
    let site = made.site;
    match made.making {
        Elaboration::OfOne(one) => {
            let form = form_of(alloc, site, Elaboration::OfOne(one), kept)?;
            let Ok(()) = finish_one(one, tables) else {
                drop(form);
                return Err(NoMemory);
            };
            Ok(form)
        }
        Elaboration::OfFunctionNamed(kind, name, required, rest, of_file, leaf) => {
            let form = leaf_made(alloc, site, leaf)?;
            let found = kept.into_found();
            let Ok(procedure) = procedure_found(alloc, Some(name), required, rest, found) else {
                drop(form);
                return Err(NoMemory);
            };
            let Ok(()) = define_named(kind, name, procedure, of_file, tables) else {
                drop(form);
                return Err(NoMemory);
            };
            Ok(form)
        }
        Elaboration::OfProcedure(name, required, rest) => {
            let procedure = procedure_found(alloc, name, required, rest, kept.into_found())?;
            complete_procedure(alloc, site, procedure, tables)
        }
        Elaboration::OfAccessor(name, kind, var, literal) => {
            drop(kept);
            let procedure = accessor_procedure(alloc, name, kind, var, literal)?;
            complete_procedure(alloc, site, procedure, tables)
        }
        Elaboration::OfMethods(taker, heads, first, of_file, leaf) => {
            drop(kept);
            define_methods(alloc, taker, heads, first, of_file, tables)?;
            leaf_made(alloc, site, leaf)
        }
        Elaboration::OfClass(class, first, of_file, leaf) => {
            drop(kept);
            let outcome = define_class(alloc, &class, first, of_file, tables);
            drop(class);
            outcome?;
            leaf_made(alloc, site, leaf)
        }
        making => form_of(alloc, site, making, kept),
    }
}
