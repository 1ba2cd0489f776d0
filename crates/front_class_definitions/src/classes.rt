// The row of the form that defines a class.

ghost use Rattle.std.specs.Prelude.{◌≡◌, ◌+◌, ◌<◌, ◌++◌, ◌∷◌, [], Some, None, ◌&&◌, ◌||◌, not, length, IfOk};
ghost use Rattle.std.specs.List.{list_any, list_all};
ghost use Rattle.lang_derived.specs.Asked.{list_items};
ghost use Rattle.lang_classes.specs.InheritedClasses.{class_named};
ghost use Rattle.lang_classes.specs.InheritedSlots.{same_name};
ghost use Rattle.front_profile.specs.ClassRows as row;
ghost use Rattle.front_profile.specs.ClassShapes as shape;
ghost use Rattle.front_syntax.specs.ClassDefinitions.{view_slots, maybe_slots, view_supers, maybe_supers, view_class_options};
ghost use Rattle.front_class_definitions.specs.Functions.{view_functions, view_use, view_uses};
ghost use Rattle.front_class_definitions.specs.Classes.{maybe_written, written_as, class_offence};
ghost use Rattle.front_drafts.specs.Drafts.{around, Draws};

use crate::functions::{Functions, Use, Uses, all_functions, slot_functions, some_lacking, uses};
use crate::slots::{class_parts, slot_specs};
use crate::supers::{are_supers, few_inherited, known_supers};
use base::{Datum, Name, Names, NoMemory, Reason};
use front_drafts::draft::{DefinedClass, Draft, offence};
use front_drafts::here::{FormContext, fits_depth};
use front_drafts::taken::{
    defining_offence, generic_named, generic_row, has_function, has_name, is_truth,
};
use front_profile::{NewClass, Tables};
use front_syntax::shapes::named;
use front_syntax::slots::{
    ClassOptions, WrittenSlots, WrittenSupers, are_options, class_options, is_abstract, slots_in,
    some_left_out, supers_in,
};
use front_syntax::words::keeps;

/// What the definition of a class says, apart from its name.
#[derive(Drop)]
pub(crate) struct WrittenClass<'a> {
    pub(crate) supers: WrittenSupers,
    pub(crate) slots: WrittenSlots<'a>,
    pub(crate) options: ClassOptions,
}

// Whether a function that is none of the prelude and no generic function has the name.
fn is_of_function(here: FormContext, one: Use) -> bool
    ensures { result ≡ row.is_of_function (around here.entry) here.entry.tables.now (view_use one) }
{
    has_function(here.tables, one.name)
        && generic_named(here.tables, one.name).is_none()
        && !(here.spot.sited && has_name(&here.tables.prelude, one.name))
}

// Whether the language or the prelude keeps the name.
fn is_kept_name(here: FormContext, names: &Names, one: Use) -> bool
    ensures { result ≡ row.is_kept_name names.now (around here.entry) here.entry.tables.now (view_use one) }
{
    is_truth(here, one.name)
        || (here.spot.sited && (keeps(names, one.name) || has_name(&here.tables.prelude, one.name)))
}

// Whether a generic function of the name has that number of arguments, where there is one.
fn fits_generic(tables: &Tables, one: Use) -> bool
    ensures { result ≡ row.fits_generic tables.now (view_use one) }
{
    let Some(generic) = generic_named(tables, one.name) else {
        return true;
    };
    match generic_row(tables, generic) {
        Some(row) => row.required as usize == one.arguments && !row.rest,
        None => true,
    }
}

fn some_of_function(here: FormContext, uses: &Uses) -> bool
    ensures { result ≡ list_any (row.is_of_function (around here.entry) here.entry.tables.now) (view_uses uses.now) }
{
    for one in uses.as_slice() {
        if is_of_function(here, *one) {
            return true;
        }
    }
    false
}

fn some_kept_name(here: FormContext, names: &Names, uses: &Uses) -> bool
    ensures { result ≡ list_any (row.is_kept_name names.now (around here.entry) here.entry.tables.now) (view_uses uses.now) }
{
    for one in uses.as_slice() {
        if is_kept_name(here, names, *one) {
            return true;
        }
    }
    false
}

fn all_fit_generics(tables: &Tables, uses: &Uses) -> bool
    ensures { result ≡ list_all (row.fits_generic tables.now) (view_uses uses.now) }
{
    for one in uses.as_slice() {
        if !fits_generic(tables, *one) {
            return false;
        }
    }
    true
}

fn has_use(uses: &[Use], one: Use) -> bool
    ensures { result ≡ list_any (λ other. same_name (view_use one).name other.name) (view_uses uses.now) }
{
    for other in uses {
        if one.name.0 == other.name.0 {
            return true;
        }
    }
    false
}

// Whether no two methods are of one name.
fn names_differ(uses: &[Use]) -> bool
    ensures { result ≡ row.names_differ (view_uses uses.now) }
{
    let Some((first, others)) = uses.split_first() else {
        return true;
    };
    !has_use(others, *first) && names_differ(others)
}

// Whether the same text defined a class of the name.
fn is_taken_class(here: FormContext, name: Name) -> bool
    ensures { result ≡ row.is_taken_class (around here.entry) here.entry.tables.now name }
{
    match here.tables.classes.find(name) {
        Some(class) => !here.spot.sited || here.tables.prelude_classes <= class,
        None => false,
    }
}

fn is_of_prelude(here: FormContext, name: Name) -> bool
    ensures { result ≡ row.class_of_prelude here.entry.tables.now.prelude_classes (class_named here.entry.tables.now.classes.rows name) }
{
    match here.tables.classes.find(name) {
        Some(class) => class < here.tables.prelude_classes,
        None => false,
    }
}

// Whether the name is `t`, or that of a class of the language or of the prelude, which no file defines anew.
fn is_reserved_class(here: FormContext, name: Name) -> bool
    ensures { result ≡ row.is_reserved_class (around here.entry) here.entry.tables.now name }
{
    is_truth(here, name) || (here.spot.sited && is_of_prelude(here, name))
}

// Whether the class or a method of it stands in the way of what was defined before.
fn is_taken(here: FormContext, name: Name, uses: &Uses) -> bool
    ensures { result ≡ (row.is_taken_class (around here.entry) here.entry.tables.now name
        || list_any (row.is_of_function (around here.entry) here.entry.tables.now) (view_uses uses.now)) }
{
    is_taken_class(here, name) || some_of_function(here, uses)
}

// Whether the name of the class or of a method of it is kept.
fn is_reserved(here: FormContext, names: &Names, name: Name, uses: &Uses) -> bool
    ensures { result ≡ (row.is_reserved_class (around here.entry) here.entry.tables.now name
        || list_any (row.is_kept_name names.now (around here.entry) here.entry.tables.now) (view_uses uses.now)) }
{
    is_reserved_class(here, name) || some_kept_name(here, names, uses)
}

// What is defined.
fn new_class(
    here: FormContext,
    name: Name,
    written: &WrittenClass,
    functions: &Functions,
) -> Result<NewClass, NoMemory>
    requires { view_functions functions.now ≡ row.all_functions (view_slots written.now.slots) }
    ensures { IfOk result (λ class. class ≡ record {
      name = name;
      supers = row.known_supers here.entry.tables.now.classes.rows (view_supers written.now.supers);
      abstract_class = shape.is_abstract (view_class_options written.now.options);
      slots = row.slot_specs (length here.entry.tables.now.procedures) (view_slots written.now.slots);
      functions = row.slot_functions (view_slots written.now.slots);
    }) }
{
    Ok(NewClass {
        name,
        supers: known_supers(here, &written.supers)?,
        abstract_class: is_abstract(&written.options),
        slots: slot_specs(here, &written.slots)?,
        functions: slot_functions(here.alloc, functions)?,
    })
}

// The definition, where nothing stands in its way.
fn class_made<'a>(
    here: FormContext,
    datum: &'a Datum,
    name: Name,
    written: &WrittenClass<'a>,
    functions: &Functions<'a>,
) -> Result<Draft<'a>, NoMemory>
    requires { view_functions functions.now ≡ row.all_functions (view_slots written.now.slots) }
    ensures { Draws here.entry (row.class_made (around here.entry) here.entry.tables.now datum.now name
        (view_supers written.now.supers) (view_slots written.now.slots) (view_class_options written.now.options)) result }
{
    let parts = class_parts(here, &written.supers, &written.slots)?;
    let class = new_class(here, name, written, functions)?;
    Ok(Draft::DefinesClass(DefinedClass {
        datum,
        parts,
        class,
    }))
}

// The lowest reason that the definition shares with none of its parts, behind that of options that are left out.
fn class_offence(
    here: FormContext,
    written: &WrittenClass,
    uses: &Uses,
) -> Result<Option<Reason>, NoMemory>
    ensures { IfOk result (λ found. found ≡ class_offence here.entry.tables.now (view_supers written.now.supers) (view_uses uses.now)) }
{
    if !are_supers(here, &written.supers)? {
        return Ok(Some(Reason::BadSupers));
    }
    if !few_inherited(here, &written.supers)? {
        return Ok(Some(Reason::BadSlot));
    }
    if all_fit_generics(here.tables, uses) && names_differ(uses.as_slice()) {
        Ok(None)
    } else {
        Ok(Some(Reason::BadMethod))
    }
}

// The definition, behind what all definitions share.
fn class_checked<'a>(
    here: FormContext,
    datum: &'a Datum,
    name: Name,
    written: &WrittenClass<'a>,
    functions: &Functions<'a>,
    uses: &Uses,
) -> Result<Draft<'a>, NoMemory>
    requires functions { view_functions functions.now ≡ row.all_functions (view_slots written.now.slots) }
    requires uses { view_uses uses.now ≡ row.uses (view_slots written.now.slots) }
    ensures { Draws here.entry (row.class_checked (around here.entry) here.entry.tables.now here.entry.place datum.now name
        (view_supers written.now.supers) (view_slots written.now.slots) (view_class_options written.now.options)) result }
{
    if some_left_out(&written.options) {
        return Ok(offence(here.place, Reason::LeftOut));
    }
    if !fits_depth(here.spot, 1) {
        return Ok(offence(here.place, Reason::DepthLimit));
    }
    match class_offence(here, written, uses)? {
        Some(reason) => Ok(offence(here.place, reason)),
        None => class_made(here, datum, name, written, functions),
    }
}

// The definition, whose slots ask for these functions.
fn class_with<'a>(
    here: FormContext,
    names: &Names,
    datum: &'a Datum,
    name: Name,
    written: &WrittenClass<'a>,
    functions: &Functions<'a>,
    uses: &Uses,
) -> Result<Draft<'a>, NoMemory>
    requires functions { view_functions functions.now ≡ row.all_functions (view_slots written.now.slots) }
    requires uses { view_uses uses.now ≡ row.uses (view_slots written.now.slots) }
    ensures { Draws here.entry (row.class_of names.now (around here.entry) here.entry.tables.now here.entry.place datum.now name
        (view_supers written.now.supers) (view_slots written.now.slots) (view_class_options written.now.options)) result }
{
    if some_lacking(functions) {
        return Ok(Draft::Unnamed);
    }
    let taken = is_taken(here, name, uses);
    let reserved = is_reserved(here, names, name, uses);
    match defining_offence(here, taken, reserved) {
        Some(reason) => Ok(offence(here.place, reason)),
        None => class_checked(here, datum, name, written, functions, uses),
    }
}

// The definition of a class of that name.
fn class_of<'a>(
    here: FormContext,
    names: &Names,
    datum: &'a Datum,
    name: Name,
    written: &WrittenClass<'a>,
) -> Result<Draft<'a>, NoMemory>
    ensures { Draws here.entry (row.class_of names.now (around here.entry) here.entry.tables.now here.entry.place datum.now name
        (view_supers written.now.supers) (view_slots written.now.slots) (view_class_options written.now.options)) result }
{
    let functions = all_functions(here.alloc, &written.slots)?;
    let uses = uses(here.alloc, &functions)?;
    class_with(here, names, datum, name, written, &functions, &uses)
}

// What these lists say together; none where one is not allowed.
fn written_with<'a>(
    supers: Option<WrittenSupers>,
    slots: Option<WrittenSlots<'a>>,
    options: ClassOptions,
) -> Option<WrittenClass<'a>>
    ensures { maybe_written result ≡ written_as (maybe_supers supers) (maybe_slots slots.entry) (view_class_options options) }
{
    let supers = supers?;
    let slots = slots?;
    if are_options(&options) {
        Some(WrittenClass {
            supers,
            slots,
            options,
        })
    } else {
        None
    }
}

// What stands behind the name; none where a list is not allowed.
fn written_in<'a>(
    here: FormContext,
    names: &Names,
    supers: &'a Datum,
    slots: &'a Datum,
    options: &'a [Datum],
) -> Result<Option<WrittenClass<'a>>, NoMemory>
    ensures { IfOk result (λ found. maybe_written found
        ≡ written_as (shape.supers_in (list_items supers.now)) (shape.slots_in names.now (list_items slots.now)) (shape.class_options names.now options.now)) }
{
    let options = class_options(here.alloc, names, options)?;
    let supers = supers_in(here.alloc, supers)?;
    let slots = slots_in(here.alloc, names, slots)?;
    Ok(written_with(supers, slots, options))
}

// The definition of a class of that name, with what stands behind it.
fn class_shaped<'a>(
    here: FormContext,
    names: &Names,
    datum: &'a Datum,
    name: Name,
    supers: &'a Datum,
    slots: &'a Datum,
    options: &'a [Datum],
) -> Result<Draft<'a>, NoMemory>
    ensures { Draws here.entry (row.class_shaped names.now (around here.entry) here.entry.tables.now here.entry.place datum.now (Some name)
        (shape.supers_in (list_items supers.now)) (shape.slots_in names.now (list_items slots.now)) (shape.class_options names.now options.now)) result }
{
    let Some(written) = written_in(here, names, supers, slots, options)? else {
        return Ok(offence(here.place, Reason::BadShape));
    };
    let draft = class_of(here, names, datum, name, &written);
    drop(written);
    draft
}

/// `(defclass name (super*) (slot*) option*)`
pub fn defclass_draft<'a>(
    here: FormContext,
    names: &Names,
    items: &'a [Datum],
) -> Result<Draft<'a>, NoMemory>
    ensures { Draws here.entry
        (row.defclass_row names.now (around here.entry) here.entry.tables.now here.entry.place items.now) result }
{
    let [datum, supers, slots, options @ ..] = items else {
        return Ok(offence(here.place, Reason::BadShape));
    };
    let Some(name) = named(datum) else {
        return Ok(offence(here.place, Reason::BadShape));
    };
    class_shaped(here, names, datum, name, supers, slots, options)
}
