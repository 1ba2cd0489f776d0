// The functions that the slots of a class definition ask for, and the names that their methods are of.

ghost use Rattle.std.specs.Prelude.{◌≡◌, ◌+◌, ◌<◌, ◌++◌, ◌∷◌, [], Some, None, not, ◌&&◌, length, flat_map, IfOk, OnOk};
ghost use Rattle.std.specs.List.{list_any, filter_map};
ghost use Rattle.front_profile.specs.ClassRows as row;
ghost use Rattle.front_profile.specs.Elaborations.{arguments_of};
ghost use Rattle.front_syntax.specs.ClassDefinitions.{view_slot_option, view_slot, view_slots};
ghost use Rattle.front_class_definitions.specs.Functions.{view_read, view_functions, maybe_use, view_uses};
ghost use Rattle.front_drafts.specs.Views.{view_parts};

use base::{Datum, ItemList, Name, NoMemory};
use front_drafts::plan::{Part, Parts, Written};
use front_profile::{Accessor, SlotFunction, SlotFunctions};
use front_syntax::naming::GivenName;
use front_syntax::slots::{SlotOption, WrittenSlot, WrittenSlots};
use std::alloc::Global;

/// A function that an option of a slot asks for: an initform, or a method under the name of its generic function.
#[derive(Clone, Copy)]
pub(crate) enum Function<'a> {
    Initform(&'a Datum),
    Method(GivenName, Accessor),
}

pub(crate) type Functions<'a> = ItemList<Function<'a>>;

/// The name of a generic function that a method is of, and the number of its arguments.
#[derive(Clone, Copy)]
pub(crate) struct Use {
    pub(crate) name: Name,
    pub(crate) arguments: usize,
}

pub(crate) type Uses = ItemList<Use>;

// Appends the functions that an option asks for.
fn push_by_option<'a>(functions: &mut Functions<'a>, option: SlotOption<'a>) -> Result<(), NoMemory>
    ensures { OnOk result (view_functions functions.new
        ≡ view_functions functions.old ++ row.functions_of_option (view_slot_option option.entry)) }
{
    match option {
        SlotOption::Wrong => Ok(()),
        SlotOption::Initform(datum) => functions.push(Function::Initform(datum)),
        SlotOption::Initarg(_) => Ok(()),
        SlotOption::Method(accessor, name) => functions.push(Function::Method(name, accessor)),
        SlotOption::Accessor(name, setter) => {
            functions.push(Function::Method(GivenName::Given(name), Accessor::Reads))?;
            functions.push(Function::Method(setter, Accessor::Writes))
        }
    }
}

/// Appends the functions that a slot asks for.
pub(crate) fn push_functions<'a>(
    functions: &mut Functions<'a>,
    slot: &WrittenSlot<'a>,
) -> Result<(), NoMemory>
    ensures { OnOk result (view_functions functions.new
        ≡ view_functions functions.old ++ row.functions_of (view_slot slot.now)) }
{
    for option in slot.options.as_slice() {
        push_by_option(functions, *option)?;
    }
    Ok(())
}

/// The functions that a slot asks for.
pub(crate) fn functions_of<'a>(
    alloc: Global,
    slot: &WrittenSlot<'a>,
) -> Result<Functions<'a>, NoMemory>
    ensures { IfOk result (λ functions. view_functions functions ≡ row.functions_of (view_slot slot.now)) }
{
    let mut functions = Functions::new(alloc);
    push_functions(&mut functions, slot)?;
    Ok(functions)
}

/// The functions that all slots ask for.
pub(crate) fn all_functions<'a>(
    alloc: Global,
    slots: &WrittenSlots<'a>,
) -> Result<Functions<'a>, NoMemory>
    ensures { IfOk result (λ functions. view_functions functions ≡ row.all_functions (view_slots slots.now)) }
{
    let mut functions = Functions::new(alloc);
    for slot in slots.as_slice() {
        push_functions(&mut functions, slot)?;
    }
    Ok(functions)
}

fn is_lacking(function: &Function) -> bool
    ensures { result ≡ row.is_lacking (view_read function.now) }
{
    match function {
        Function::Initform(_) => false,
        Function::Method(name, _) => matches!(name, GivenName::Lacking),
    }
}

/// Whether the table of names lacks the name of one.
pub(crate) fn some_lacking(functions: &Functions) -> bool
    ensures { result ≡ list_any row.is_lacking (view_functions functions.now) }
{
    for function in functions.as_slice() {
        if is_lacking(function) {
            return true;
        }
    }
    false
}

fn arguments_of(accessor: Accessor) -> usize
    ensures { result ≡ arguments_of accessor }
{
    match accessor {
        Accessor::Reads => 1,
        Accessor::Writes => 2,
        Accessor::Asks => 1,
    }
}

// The name that a method is of.
fn use_of(function: &Function) -> Option<Use>
    ensures { maybe_use result ≡ row.use_of (view_read function.now) }
{
    match function {
        Function::Method(GivenName::Given(name), accessor) => Some(Use {
            name: *name,
            arguments: arguments_of(*accessor),
        }),
        Function::Method(GivenName::NoName, _) => None,
        Function::Method(GivenName::Unfit, _) => None,
        Function::Method(GivenName::Lacking, _) => None,
        Function::Initform(_) => None,
    }
}

/// The names that the methods are of.
pub(crate) fn uses(alloc: Global, functions: &Functions) -> Result<Uses, NoMemory>
    ensures { IfOk result (λ uses. view_uses uses ≡ filter_map row.use_of (view_functions functions.now)) }
{
    let mut uses = Uses::new(alloc);
    for function in functions.as_slice() {
        if let Some(one) = use_of(function) {
            uses.push(one)?;
        }
    }
    Ok(uses)
}

// Appends the part that a function of a slot is.
fn push_part<'a>(
    parts: &mut Parts<'a>,
    slot: &WrittenSlot<'a>,
    function: Function<'a>,
) -> Result<(), NoMemory>
    ensures { OnOk result (view_parts parts.new ≡ view_parts parts.old
        ++ row.part_of (view_slot slot.now) (view_read function.entry)) }
{
    match function {
        Function::Initform(datum) => parts.push(Part::Function(Written::Initform(datum))),
        Function::Method(GivenName::Given(name), accessor) => parts.push(Part::Function(
            Written::Accessor(name, accessor, slot.place, slot.name),
        )),
        Function::Method(GivenName::NoName, _) => Ok(()),
        Function::Method(GivenName::Unfit, _) => Ok(()),
        Function::Method(GivenName::Lacking, _) => Ok(()),
    }
}

/// Appends the parts that the functions of a slot are.
pub(crate) fn push_parts<'a>(
    parts: &mut Parts<'a>,
    slot: &WrittenSlot<'a>,
    functions: &Functions<'a>,
) -> Result<(), NoMemory>
    ensures { OnOk result (view_parts parts.new ≡ view_parts parts.old
        ++ flat_map (row.part_of (view_slot slot.now)) (view_functions functions.now)) }
{
    for function in functions.as_slice() {
        push_part(parts, slot, *function)?;
    }
    Ok(())
}

// Appends what the definition of the class says of a function.
fn push_slot_function(found: &mut SlotFunctions, function: &Function) -> Result<(), NoMemory>
    ensures { OnOk result (found.new ≡ found.old ++ row.slot_function (view_read function.now)) }
{
    match function {
        Function::Initform(_) => found.push(SlotFunction::Initform),
        Function::Method(GivenName::Given(name), accessor) => {
            found.push(SlotFunction::Method(*name, *accessor))
        }
        Function::Method(GivenName::NoName, _) => Ok(()),
        Function::Method(GivenName::Unfit, _) => Ok(()),
        Function::Method(GivenName::Lacking, _) => Ok(()),
    }
}

/// What the definition of the class says of the functions.
pub(crate) fn slot_functions(
    alloc: Global,
    functions: &Functions,
) -> Result<SlotFunctions, NoMemory>
    ensures { IfOk result (λ found. found ≡ flat_map row.slot_function (view_functions functions.now)) }
{
    let mut found = SlotFunctions::new(alloc);
    for function in functions.as_slice() {
        push_slot_function(&mut found, function)?;
    }
    Ok(found)
}

/// The number of the first initform, where the functions are numbered from that one on.
pub(crate) fn initform_from(first: usize, functions: &Functions) -> Option<usize>
    requires { first + length functions.now < 18446744073709551616 }
    ensures { result ≡ row.initform_from first (view_functions functions.now) }
{
    for (at, function) in functions.as_slice().iter().enumerate() {
        if matches!(function, Function::Initform(_)) {
            return Some(first + at);
        }
    }
    None
}
