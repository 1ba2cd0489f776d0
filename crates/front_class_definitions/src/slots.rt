// The slots of a class definition: which is wrong, the parts of the others, and what the class has of them.

ghost use Rattle.std.specs.Prelude.{◌≡◌, ◌+◌, ◌<◌, ◌++◌, ◌∷◌, [], Some, None, ◌||◌, nat_lt, length, flat_map, IfOk, OnOk, if◌then◌else◌};
ghost use Rattle.std.specs.List.{list_any, filter_map};
ghost use Rattle.lang_classes.specs.Given as given;
ghost use Rattle.lang_classes.specs.InheritedClasses.{inherited_names};
ghost use Rattle.lang_classes.specs.InheritedSlots as inherited;
ghost use Rattle.front_profile.specs.ClassRows as row;
ghost use Rattle.front_profile.specs.Nodes.{wrong};
ghost use Rattle.front_syntax.specs.ClassDefinitions.{view_slot_option, view_slot_options, view_slot, view_slots, view_supers};
ghost use Rattle.front_class_definitions.specs.Functions.{view_functions};
ghost use Rattle.front_drafts.specs.Views.{view_parts};

use crate::functions::{functions_of, initform_from, push_parts};
use crate::supers::{first_unknown, has_name, inherited};
use base::{Name, NameList, NoMemory, Reason};
use front_drafts::here::FormContext;
use front_drafts::plan::{Part, Parts};
use front_syntax::slots::{SlotOption, SlotOptions, WrittenSlot, WrittenSlots, WrittenSupers};
use lang_classes::{SlotSpec, SlotSpecs};

// The most slots that a class may have.
const SLOT_LIMIT: usize = 64;

fn some_wrong(options: &SlotOptions) -> bool
    ensures { result ≡ list_any row.is_wrong_option (view_slot_options options.now) }
{
    for option in options.as_slice() {
        if matches!(option, SlotOption::Wrong) {
            return true;
        }
    }
    false
}

fn initform_count(options: &SlotOptions) -> usize
    ensures { result ≡ length (filter_map row.initform_in (view_slot_options options.now)) }
{
    let mut count = 0;
    for option in options.as_slice() {
        if matches!(option, SlotOption::Initform(_)) {
            count += 1;
        }
    }
    count
}

// Whether an option is wrong, or a second initform.
fn has_wrong_options(slot: &WrittenSlot) -> bool
    ensures { result ≡ row.has_wrong_options (view_slot slot.now) }
{
    some_wrong(&slot.options) || initform_count(&slot.options) > 1
}

// Whether a slot of this name repeats an earlier one, or is one past the limit behind these names.
fn is_wrong_name(names: &[Name], earlier: &[Name], name: Name) -> bool
    ensures { result ≡ given.is_wrong name earlier.now names.now }
{
    has_name(earlier, name) || is_past_limit(names, name)
}

// Whether there are too many names with that one.
fn is_past_limit(names: &[Name], name: Name) -> bool
    ensures { result ≡ nat_lt 64 (length (inherited.with_name name names.now)) }
{
    if has_name(names, name) {
        SLOT_LIMIT < names.len()
    } else {
        SLOT_LIMIT <= names.len()
    }
}

// With the name at its end, unless it is there.
fn push_new(names: &mut NameList, name: Name) -> Result<(), NoMemory>
    ensures { OnOk result (names.new ≡ inherited.with_name name names.old) }
{
    if has_name(names.as_slice(), name) {
        Ok(())
    } else {
        names.push(name)
    }
}

// Appends the parts that the functions of a slot are.
fn push_slot<'a>(
    here: FormContext,
    parts: &mut Parts<'a>,
    slot: &WrittenSlot<'a>,
) -> Result<(), NoMemory>
    ensures { OnOk result (view_parts parts.new ≡ view_parts parts.old
        ++ flat_map (row.part_of (view_slot slot.now)) (row.functions_of (view_slot slot.now))) }
{
    let functions = functions_of(here.alloc, slot)?;
    push_parts(parts, slot, &functions)
}

// Whether a slot is wrong by its options, or by its name behind these.
fn is_wrong(names: &NameList, earlier: &NameList, slot: &WrittenSlot) -> bool
    ensures { result ≡ (row.has_wrong_options (view_slot slot.now) || given.is_wrong slot.now.name earlier.now names.now) }
{
    has_wrong_options(slot) || is_wrong_name(names.as_slice(), earlier.as_slice(), slot.name)
}

// The parts that a slot is, which stands behind these.
fn push_right_slot<'a>(
    here: FormContext,
    parts: &mut Parts<'a>,
    names: &mut NameList,
    earlier: &mut NameList,
    slot: &WrittenSlot<'a>,
) -> Result<(), NoMemory>
    ensures parts { OnOk result (view_parts parts.new ≡ view_parts parts.old
        ++ flat_map (row.part_of (view_slot slot.now)) (row.functions_of (view_slot slot.now))) }
    ensures names { OnOk result (names.new ≡ inherited.with_name slot.now.name names.old) }
    ensures earlier { OnOk result (earlier.new ≡ earlier.old ++ slot.now.name ∷ []) }
{
    push_slot(here, parts, slot)?;
    push_new(names, slot.name)?;
    earlier.push(slot.name)
}

// The parts that slots are, up to the first that is wrong, of a class that has the slots of these superclasses.
#[tactic(auto, using(crate::proofs::ClassSlots::name_seen))]
fn slot_parts<'a>(
    here: FormContext,
    supers: &WrittenSupers,
    slots: &WrittenSlots<'a>,
) -> Result<Parts<'a>, NoMemory>
    ensures { IfOk result (λ parts. view_parts parts ≡ row.slot_parts (inherited_names here.entry.tables.now.classes
        (row.known_supers here.entry.tables.now.classes.rows (view_supers supers.now))) [] (view_slots slots.now)) }
{
    let mut names = inherited(here, supers)?;
    let mut earlier = NameList::new(here.alloc);
    let mut parts = Parts::new(here.alloc);
    for slot in slots.as_slice() {
        if is_wrong(&names, &earlier, slot) {
            parts.push(Part::Wrong(slot.place, Reason::BadSlot))?;
            return Ok(parts);
        }
        push_right_slot(here, &mut parts, &mut names, &mut earlier, slot)?;
    }
    Ok(parts)
}

/// The parts of a class definition: the offence of the first superclass that is not known, or those that its slots are.
pub(crate) fn class_parts<'a>(
    here: FormContext,
    supers: &WrittenSupers,
    slots: &WrittenSlots<'a>,
) -> Result<Parts<'a>, NoMemory>
    ensures { IfOk result (λ parts. view_parts parts
        ≡ row.class_parts here.entry.tables.now (view_supers supers.now) (view_slots slots.now)) }
{
    match first_unknown(&here.tables.classes, supers) {
        Some(place) => {
            let mut parts = Parts::new(here.alloc);
            parts.push(Part::Wrong(place, Reason::UnknownClass))?;
            Ok(parts)
        }
        None => slot_parts(here, supers, slots),
    }
}

// The initargs among options.
fn initargs(here: FormContext, options: &SlotOptions) -> Result<NameList, NoMemory>
    ensures { IfOk result (λ names. names ≡ filter_map row.initarg_in (view_slot_options options.now)) }
{
    let mut names = NameList::new(here.alloc);
    for option in options.as_slice() {
        if let SlotOption::Initarg(name) = option {
            names.push(*name)?;
        }
    }
    Ok(names)
}

// Appends what a class has of a slot whose functions are numbered from that one on, and gives the number behind them.
fn push_spec(
    here: FormContext,
    specs: &mut SlotSpecs,
    slot: &WrittenSlot,
    first: usize,
) -> Result<usize, NoMemory>
    ensures next { IfOk result (λ next. next ≡ first + length (row.functions_of (view_slot slot.now))) }
    ensures specs { OnOk result (specs.new ≡ specs.old ++ row.slot_spec first (view_slot slot.now) ∷ []) }
{
    let functions = functions_of(here.alloc, slot)?;
    let Some(next) = first.checked_add(functions.len()) else {
        return Err(NoMemory);
    };
    let initform = initform_from(first, &functions);
    drop(functions);
    specs.push(SlotSpec {
        place: slot.place,
        name: slot.name,
        initargs: initargs(here, &slot.options)?,
        initform,
    })?;
    Ok(next)
}

/// What a class has of its slots, whose functions take the next numbers of procedures.
pub(crate) fn slot_specs(here: FormContext, slots: &WrittenSlots) -> Result<SlotSpecs, NoMemory>
    ensures { IfOk result (λ specs. specs ≡ row.slot_specs (length here.entry.tables.now.procedures) (view_slots slots.now)) }
{
    let mut specs = SlotSpecs::new(here.alloc);
    let mut first = here.tables.procedures.len();
    for slot in slots.as_slice() {
        first = push_spec(here, &mut specs, slot, first)?;
    }
    Ok(specs)
}
