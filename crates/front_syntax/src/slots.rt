// Class definitions as they are written: superclasses, slots with their options, options of the class.

ghost use Rattle.std.specs.Prelude.{◌≡◌, ◌+◌, ◌++◌, ◌∷◌, [], Some, None, true, false, ◌||◌, length, IfOk};
ghost use Rattle.std.specs.List.{list_any, filter_map};
ghost use Rattle.lang_derived.specs.Asked.{list_items};
ghost use Rattle.front_profile.specs.ClassShapes as shape;
ghost use Rattle.front_profile.specs.GivenNames as name;
ghost use Rattle.front_profile.specs.Shapes.{symbol_of};
ghost use Rattle.front_syntax.specs.ClassDefinitions.{view_slot_option, view_slot_options, maybe_slot_option, maybe_slot_options, maybe_slot, maybe_slots, maybe_supers, view_class_option, view_class_options};
ghost use Rattle.front_syntax.specs.Definitions.{view_given};

use crate::naming::{GivenName, given_name, setter_of};
use crate::shapes::{name_of, symbol_of};
use base::{Datum, ItemList, Kind, Name, Names, NoMemory, Place, Symbol};
use front_profile::Accessor;
use lang_derived::{is_word, list_items};
use std::alloc::Global;

/// What an option of a slot says: nothing that fits; the initform; an initarg; a method under the name of its generic function;
/// or an accessor, a reader of a name and a writer of `(setf name)`.
#[derive(Clone, Copy)]
pub enum SlotOption<'a> {
    Wrong,
    Initform(&'a Datum),
    Initarg(Name),
    Method(Accessor, GivenName),
    Accessor(Name, GivenName),
}

pub type SlotOptions<'a> = ItemList<SlotOption<'a>>;

/// A slot: its name, and its options.
#[derive(Drop)]
pub struct WrittenSlot<'a> {
    pub place: Place,
    pub name: Name,
    pub options: SlotOptions<'a>,
}

pub type WrittenSlots<'a> = ItemList<WrittenSlot<'a>>;

/// A superclass.
#[derive(Clone, Copy)]
pub struct WrittenSuper {
    pub name: Name,
    pub place: Place,
}

pub type WrittenSupers = ItemList<WrittenSuper>;

/// An option of a class: none that there is; one that this profile leaves out; or whether the class is abstract.
#[derive(Clone, Copy)]
pub enum ClassOption {
    NoOption,
    LeftOut,
    Abstract(bool),
}

pub type ClassOptions = ItemList<ClassOption>;

fn initarg_by<'a>(datum: &Datum) -> Option<SlotOption<'a>>
    ensures { maybe_slot_option result ≡ shape.initarg_by (symbol_of datum.now) }
{
    match symbol_of(datum) {
        None => Some(SlotOption::Wrong),
        Some(Symbol::Named(name)) => Some(SlotOption::Initarg(name)),
        Some(Symbol::Fresh { .. }) => None,
    }
}

fn method_with<'a>(accessor: Accessor, name: GivenName) -> Option<SlotOption<'a>>
    ensures { maybe_slot_option result ≡ shape.method_by accessor (view_given name) }
{
    match name {
        GivenName::NoName => Some(SlotOption::Wrong),
        GivenName::Unfit => None,
        GivenName::Lacking => Some(SlotOption::Method(accessor, name)),
        GivenName::Given(_) => Some(SlotOption::Method(accessor, name)),
    }
}

fn accessor_with<'a>(name: Name, setter: GivenName) -> SlotOption<'a>
    ensures { view_slot_option result ≡ shape.accessor_with name (view_given setter) }
{
    match setter {
        GivenName::NoName => SlotOption::Wrong,
        GivenName::Unfit => SlotOption::Wrong,
        GivenName::Lacking => SlotOption::Accessor(name, setter),
        GivenName::Given(_) => SlotOption::Accessor(name, setter),
    }
}

fn method_by<'a>(
    alloc: Global,
    names: &Names,
    accessor: Accessor,
    datum: &Datum,
) -> Result<Option<SlotOption<'a>>, NoMemory>
    ensures { IfOk result (λ found. maybe_slot_option found ≡ shape.method_by accessor (name.given_name names.now datum.now)) }
{
    let name = given_name(alloc, names, datum)?;
    Ok(method_with(accessor, name))
}

fn accessor_by<'a>(
    alloc: Global,
    names: &Names,
    datum: &Datum,
) -> Result<Option<SlotOption<'a>>, NoMemory>
    ensures { IfOk result (λ found. maybe_slot_option found ≡ shape.accessor_by names.now (symbol_of datum.now)) }
{
    match symbol_of(datum) {
        None => Ok(Some(SlotOption::Wrong)),
        Some(Symbol::Named(name)) => {
            let setter = setter_of(alloc, names, Symbol::Named(name))?;
            Ok(Some(accessor_with(name, setter)))
        }
        Some(Symbol::Fresh { .. }) => Ok(None),
    }
}

// What an option of a slot says, by its name and its value.
fn slot_option<'a>(
    alloc: Global,
    names: &Names,
    option: &Datum,
    datum: &'a Datum,
) -> Result<Option<SlotOption<'a>>, NoMemory>
    ensures { IfOk result (λ found. maybe_slot_option found ≡ shape.slot_option names.now option.now datum.now) }
{
    if is_word(names, b":initform", option) {
        Ok(Some(SlotOption::Initform(datum)))
    } else if is_word(names, b":initarg", option) {
        Ok(initarg_by(datum))
    } else if is_word(names, b":reader", option) {
        method_by(alloc, names, Accessor::Reads, datum)
    } else if is_word(names, b":writer", option) {
        method_by(alloc, names, Accessor::Writes, datum)
    } else if is_word(names, b":boundp", option) {
        method_by(alloc, names, Accessor::Asks, datum)
    } else if is_word(names, b":accessor", option) {
        accessor_by(alloc, names, datum)
    } else {
        Ok(Some(SlotOption::Wrong))
    }
}

// What options say, each a name and a value; none where one is not allowed.
fn options_in<'a>(
    alloc: Global,
    names: &Names,
    items: &'a [Datum],
) -> Result<Option<SlotOptions<'a>>, NoMemory>
    ensures { IfOk result (λ options. maybe_slot_options options ≡ shape.slot_options names.now items.now) }
{
    let mut options = SlotOptions::new(alloc);
    let mut left = items;
    while let [option, datum, others @ ..] = left {
        let Some(said) = slot_option(alloc, names, option, datum)? else {
            return Ok(None);
        };
        options.push(said)?;
        left = others;
    }
    if left.is_empty() {
        Ok(Some(options))
    } else {
        Ok(None)
    }
}

// The slot of that name with those options.
fn slot_with<'a>(
    place: Place,
    name: Option<Name>,
    options: Option<SlotOptions<'a>>,
) -> Option<WrittenSlot<'a>>
    ensures { maybe_slot result ≡ shape.slot_with place name (maybe_slot_options options.entry) }
{
    Some(WrittenSlot {
        place,
        name: name?,
        options: options?,
    })
}

fn name_in(datum: &Datum) -> Option<Name>
    ensures { result ≡ shape.name_in (symbol_of datum.now) }
{
    name_of(symbol_of(datum)?)
}

// The slot that a datum is: its name, or a list of its name and its options.
fn slot_by<'a>(
    alloc: Global,
    names: &Names,
    datum: &'a Datum,
) -> Result<Option<WrittenSlot<'a>>, NoMemory>
    ensures { IfOk result (λ slot. maybe_slot slot ≡ shape.slot_by names.now datum.now (symbol_of datum.now)) }
{
    if let Some(symbol) = symbol_of(datum) {
        let options = SlotOptions::new(alloc);
        return Ok(slot_with(datum.place, name_of(symbol), Some(options)));
    }
    match list_items(datum) {
        Some([head, options @ ..]) => {
            let options = options_in(alloc, names, options)?;
            Ok(slot_with(datum.place, name_in(head), options))
        }
        Some([]) => Ok(None),
        None => Ok(None),
    }
}

// The slots that data are.
fn each_slot<'a>(
    alloc: Global,
    names: &Names,
    items: &'a [Datum],
) -> Result<Option<WrittenSlots<'a>>, NoMemory>
    ensures { IfOk result (λ slots. maybe_slots slots ≡ shape.each_slot names.now items.now) }
{
    let mut slots = WrittenSlots::new(alloc);
    for item in items {
        let Some(slot) = slot_by(alloc, names, item)? else {
            return Ok(None);
        };
        slots.push(slot)?;
    }
    Ok(Some(slots))
}

/// The slots in a list.
pub fn slots_in<'a>(
    alloc: Global,
    names: &Names,
    datum: &'a Datum,
) -> Result<Option<WrittenSlots<'a>>, NoMemory>
    ensures { IfOk result (λ slots. maybe_slots slots ≡ shape.slots_in names.now (list_items datum.now)) }
{
    match list_items(datum) {
        Some(items) => each_slot(alloc, names, items),
        None => Ok(None),
    }
}

// The superclasses that data are.
fn each_super(alloc: Global, items: &[Datum]) -> Result<Option<WrittenSupers>, NoMemory>
    ensures { IfOk result (λ supers. maybe_supers supers ≡ shape.each_super items.now) }
{
    let mut supers = WrittenSupers::new(alloc);
    for item in items {
        let Some(name) = name_in(item) else {
            return Ok(None);
        };
        supers.push(WrittenSuper {
            name,
            place: item.place,
        })?;
    }
    Ok(Some(supers))
}

/// The superclasses in a list.
pub fn supers_in(alloc: Global, datum: &Datum) -> Result<Option<WrittenSupers>, NoMemory>
    ensures { IfOk result (λ supers. maybe_supers supers ≡ shape.supers_in (list_items datum.now)) }
{
    match list_items(datum) {
        Some(items) => each_super(alloc, items),
        None => Ok(None),
    }
}

fn is_nil(datum: &Datum) -> bool
    ensures { result ≡ shape.is_nil datum.now }
{
    match &datum.kind {
        Kind::Nil => true,
        Kind::Int(_) => false,
        Kind::Char(_) => false,
        Kind::Sym(_) => false,
        Kind::Str(_) => false,
        Kind::Vector(_) => false,
        Kind::List { .. } => false,
    }
}

// What an option says of whether the class is abstract.
fn abstract_option(names: &Names, items: &[Datum]) -> ClassOption
    ensures { view_class_option result ≡ shape.abstract_option names.now items.now }
{
    let [item] = items else {
        return ClassOption::NoOption;
    };
    if is_word(names, b"t", item) {
        ClassOption::Abstract(true)
    } else if is_nil(item) {
        ClassOption::Abstract(false)
    } else {
        ClassOption::NoOption
    }
}

fn is_left_out(names: &Names, head: &Datum) -> bool
    ensures { result ≡ shape.is_left_out_option names.now head.now }
{
    is_word(names, b":metaclass", head)
        || is_word(names, b":generic-function-class", head)
        || is_word(names, b":method-combination", head)
}

// The option of a class that a datum is.
fn class_option(names: &Names, datum: &Datum) -> ClassOption
    ensures { view_class_option result ≡ shape.class_option names.now (list_items datum.now) }
{
    let Some([head, others @ ..]) = list_items(datum) else {
        return ClassOption::NoOption;
    };
    if is_word(names, b":abstractp", head) {
        abstract_option(names, others)
    } else if is_left_out(names, head) {
        ClassOption::LeftOut
    } else {
        ClassOption::NoOption
    }
}

/// The options of a class that data are.
pub fn class_options(
    alloc: Global,
    names: &Names,
    items: &[Datum],
) -> Result<ClassOptions, NoMemory>
    ensures { IfOk result (λ options. view_class_options options ≡ shape.class_options names.now items.now) }
{
    let mut options = ClassOptions::new(alloc);
    for item in items {
        options.push(class_option(names, item))?;
    }
    Ok(options)
}

fn some_no_option(options: &ClassOptions) -> bool
    ensures { result ≡ list_any shape.is_no_option (view_class_options options.now) }
{
    for option in options.as_slice() {
        if matches!(option, ClassOption::NoOption) {
            return true;
        }
    }
    false
}

/// Whether this profile leaves one of the options out.
pub fn some_left_out(options: &ClassOptions) -> bool
    ensures { result ≡ list_any shape.is_of_left_out (view_class_options options.now) }
{
    for option in options.as_slice() {
        if matches!(option, ClassOption::LeftOut) {
            return true;
        }
    }
    false
}

// How many of them say whether the class is abstract.
fn abstract_count(options: &ClassOptions) -> usize
    ensures { result ≡ length (filter_map shape.abstract_in (view_class_options options.now)) }
{
    let mut count = 0;
    for option in options.as_slice() {
        if matches!(option, ClassOption::Abstract(_)) {
            count += 1;
        }
    }
    count
}

/// Whether there are such options, and at most one of them says whether the class is abstract.
pub fn are_options(options: &ClassOptions) -> bool
    ensures { result ≡ shape.are_options (view_class_options options.now) }
{
    !some_no_option(options) && abstract_count(options) < 2
}

/// Whether the class is abstract.
pub fn is_abstract(options: &ClassOptions) -> bool
    ensures { result ≡ shape.is_abstract (view_class_options options.now) }
{
    for option in options.as_slice() {
        if let ClassOption::Abstract(answer) = option {
            return *answer;
        }
    }
    false
}
