// The names `(setf s)` that a definition asks for, which the table of names has before the definition is judged.

ghost use Rattle.std.specs.Prelude.{◌≡◌, length, OnOk};
ghost use Rattle.base.specs.AllOf.{AllOf};
ghost use Rattle.base.specs.WellFormedData.{WellFormed};
ghost use Rattle.base.specs.Names.{Extends};
ghost use Rattle.lang_derived.specs.Asked.{list_items};
ghost use Rattle.front_syntax.specs.Definitions.{borrowed};
ghost use Rattle.front_syntax.specs.Lacking as word;
ghost use Rattle.front_syntax.specs.Lacking.{HasNames, setter_lacks, name_lacks, pair_lacks, list_lacks, datum_lacks, each_lacks, class_lacks, first_lacks, form_lacks};

use crate::naming::{operator_in, setter_text};
use crate::shapes::symbol_of;
use base::{Datum, Names, NoMemory, symbol_text};
use front_profile::{Special, special_named};
use lang_derived::{is_word, list_items};
use std::alloc::Global;

// The name `(setf s)` of a datum that is the symbol s, where there is one.
#[tactic(auto, using(crate::proofs::MoreNames::nothing_named, crate::proofs::MoreNames::one_named))]
fn add_setter_of(alloc: Global, names: &mut Names, datum: &Datum) -> Result<(), NoMemory>
    requires { WellFormed (length names.old) datum.now }
    ensures given { OnOk result (HasNames names.new (setter_lacks datum.now)) }
    ensures names { Extends names.old names.new }
{
    let Some(symbol) = symbol_of(datum) else {
        return Ok(());
    };
    match setter_text(alloc, names, symbol)? {
        Some(text) => {
            names.intern(text.as_slice())?;
            Ok(())
        }
        None => Ok(()),
    }
}

// The name that a datum `(setf s)` gives.
#[tactic(auto, using(crate::proofs::MoreNames::nothing_named))]
fn add_name(alloc: Global, names: &mut Names, datum: &Datum) -> Result<(), NoMemory>
    requires { WellFormed (length names.old) datum.now }
    ensures given { OnOk result (HasNames names.new (name_lacks datum.now)) }
    ensures names { Extends names.old names.new }
{
    match operator_in(names, datum) {
        Some(operator) => add_setter_of(alloc, names, operator),
        None => Ok(()),
    }
}

// Whether the value of that option of a slot is the name of a generic function.
fn asks_for_name(names: &Names, option: &Datum) -> bool
    ensures { result ≡ word.asks_in names.now option.now }
{
    is_word(names, b":reader", option)
        || is_word(names, b":writer", option)
        || is_word(names, b":boundp", option)
}

// The name that an option of a slot asks for.
#[tactic(auto, using(crate::proofs::MoreNames::nothing_named))]
fn add_by_option(
    alloc: Global,
    names: &mut Names,
    option: &Datum,
    value: &Datum,
) -> Result<(), NoMemory>
    requires option { WellFormed (length names.old) option.now }
    requires value { WellFormed (length names.old) value.now }
    ensures given { OnOk result (HasNames names.new (pair_lacks option.now value.now)) }
    ensures names { Extends names.old names.new }
{
    if asks_for_name(names, option) {
        add_name(alloc, names, value)
    } else if is_word(names, b":accessor", option) {
        add_setter_of(alloc, names, value)
    } else {
        Ok(())
    }
}

// The names that the options of a slot ask for.
fn add_by_options(alloc: Global, names: &mut Names, options: &[Datum]) -> Result<(), NoMemory>
    requires { AllOf (WellFormed (length names.old)) options.now }
    ensures given { OnOk result (HasNames names.new (list_lacks options.now)) }
    ensures names { Extends names.old names.new }
{
    let mut left = options;
    while let [option, value, others @ ..] = left {
        add_by_option(alloc, names, option, value)?;
        left = others;
    }
    Ok(())
}

// What stands behind the first datum of a list.
fn behind_first<'a>(datum: &'a Datum) -> Option<&'a [Datum]>
    ensures { borrowed result ≡ word.behind_first (list_items datum.now) }
{
    let [_first, others @ ..] = list_items(datum)? else {
        return None;
    };
    Some(others)
}

// The names that a slot asks for.
#[tactic(auto, using(crate::proofs::MoreNames::nothing_named))]
fn add_by_slot(alloc: Global, names: &mut Names, slot: &Datum) -> Result<(), NoMemory>
    requires { WellFormed (length names.old) slot.now }
    ensures given { OnOk result (HasNames names.new (datum_lacks slot.now)) }
    ensures names { Extends names.old names.new }
{
    match behind_first(slot) {
        Some(options) => add_by_options(alloc, names, options),
        None => Ok(()),
    }
}

// The names that slots ask for.
fn add_by_slots(alloc: Global, names: &mut Names, slots: &[Datum]) -> Result<(), NoMemory>
    requires { AllOf (WellFormed (length names.old)) slots.now }
    ensures given { OnOk result (HasNames names.new (each_lacks slots.now)) }
    ensures names { Extends names.old names.new }
{
    for slot in slots {
        add_by_slot(alloc, names, slot)?;
    }
    Ok(())
}

// The slots of a class definition, by what stands behind its head.
fn slots_behind<'a>(items: &'a [Datum]) -> Option<&'a [Datum]>
    ensures { borrowed result ≡ word.slots_behind items.now }
{
    let [_name, _supers, slots, ..] = items else {
        return None;
    };
    list_items(slots)
}

// The names that the definition of a class asks for, by what stands behind its head.
#[tactic(auto, using(crate::proofs::MoreNames::nothing_named))]
fn add_by_class(alloc: Global, names: &mut Names, items: &[Datum]) -> Result<(), NoMemory>
    requires { AllOf (WellFormed (length names.old)) items.now }
    ensures given { OnOk result (HasNames names.new (class_lacks items.now)) }
    ensures names { Extends names.old names.new }
{
    match slots_behind(items) {
        Some(slots) => add_by_slots(alloc, names, slots),
        None => Ok(()),
    }
}

// The name that the definition of a generic function or of a method asks for.
#[tactic(auto, using(crate::proofs::MoreNames::nothing_named))]
fn add_first(alloc: Global, names: &mut Names, items: &[Datum]) -> Result<(), NoMemory>
    requires { AllOf (WellFormed (length names.old)) items.now }
    ensures given { OnOk result (HasNames names.new (first_lacks items.now)) }
    ensures names { Extends names.old names.new }
{
    let [name, ..] = items else {
        return Ok(());
    };
    add_name(alloc, names, name)
}

// The special or defining form that a datum is, by its head.
fn special_in(names: &Names, datum: &Datum) -> Option<Special>
    ensures { result ≡ word.special_in names.now (list_items datum.now) }
{
    let [head, ..] = list_items(datum)? else {
        return None;
    };
    special_named(symbol_text(names, symbol_of(head)?)?)
}

fn defines_class(special: Option<Special>) -> bool
    ensures { result ≡ word.defines_class special }
{
    matches!(special, Some(Special::Defclass))
}

fn defines_methods(special: Option<Special>) -> bool
    ensures { result ≡ word.defines_methods special }
{
    matches!(special, Some(Special::Defgeneric | Special::Defmethod))
}

/// The names that a form asks for: once they are added, it lacks none.
#[tactic(auto, using(crate::proofs::MoreNames::nothing_named))]
pub fn add_setters(alloc: Global, names: &mut Names, datum: &Datum) -> Result<(), NoMemory>
    requires { WellFormed (length names.old) datum.now }
    ensures given { OnOk result (HasNames names.new (form_lacks datum.now)) }
    ensures names { Extends names.old names.new }
{
    let Some(items) = behind_first(datum) else {
        return Ok(());
    };
    let special = special_in(names, datum);
    if defines_class(special) {
        add_by_class(alloc, names, items)
    } else if defines_methods(special) {
        add_first(alloc, names, items)
    } else {
        Ok(())
    }
}
