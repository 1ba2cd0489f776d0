// Slots as a class has them, by all that is said of them.

ghost use Rattle.std.specs.Prelude.{◌≡◌, ◌++◌, [], ◌∷◌, OnOk, OnErr, IfOk, slice_get, is_some, if◌then◌else◌};
ghost use Rattle.lang_classes.specs.InheritedSlots as inherited;

use base::{ItemList, Name, NameList, NoMemory};
use lang_meaning::{ClassId, ProcedureId, SlotRow, SlotRows};
use std::alloc::Global;

/// What each class says of slots in its own definition, by the classes' numbers.
pub type OwnSlots = ItemList<SlotRows>;

/// Whether the name is one of these.
pub fn has_name(names: &[Name], name: Name) -> bool
    ensures { result ≡ inherited.has_name name names.now }
{
    for other in names {
        if name.0 == other.0 {
            return true;
        }
    }
    false
}

/// Appends the name, unless it is there. Unchanged after `NoMemory`.
pub fn push_new(names: &mut NameList, name: Name) -> Result<(), NoMemory>
    ensures ok { OnOk result (names.new ≡ inherited.with_name name names.old) }
    ensures err { OnErr result (names.new ≡ names.old) }
{
    if has_name(names.as_slice(), name) {
        Ok(())
    } else {
        names.push(name)
    }
}

// Appends the names that are not there. After `NoMemory` some of them may stand there.
fn push_all_new(names: &mut NameList, more: &[Name]) -> Result<(), NoMemory>
    ensures { OnOk result (names.new ≡ inherited.with_names more.now names.old) }
{
    for name in more {
        push_new(names, *name)?;
    }
    Ok(())
}

/// The names of slots, each once.
#[tactic(auto, using(crate::proofs::Names::names_turn))]
pub fn slot_names(alloc: Global, said: &[SlotRow]) -> Result<NameList, NoMemory>
    ensures { IfOk result (λ names. names ≡ inherited.each_first (inherited.names_of said.now)) }
{
    let mut names = NameList::new(alloc);
    for slot in said {
        push_new(&mut names, slot.name)?;
    }
    Ok(names)
}

// The initargs of the slot of a name, each once.
#[tactic(auto, using(crate::proofs::Names::initargs_turn))]
fn initargs_of(alloc: Global, said: &[SlotRow], name: Name) -> Result<NameList, NoMemory>
    ensures { IfOk result (λ names. names ≡ inherited.initargs_of name said.now) }
{
    let mut names = NameList::new(alloc);
    for slot in said {
        add_initargs(&mut names, name, slot)?;
    }
    Ok(names)
}

// With the initargs of this slot, if it is of the name. After `NoMemory` some of them may stand
// there.
fn add_initargs(names: &mut NameList, name: Name, slot: &SlotRow) -> Result<(), NoMemory>
    ensures { OnOk result (names.new
        ≡ (if inherited.same_name name slot.now.name then inherited.with_names slot.now.initargs names.old else names.old)) }
{
    if name.0 == slot.name.0 {
        push_all_new(names, slot.initargs.as_slice())
    } else {
        Ok(())
    }
}

// The initform of the slot of a name: the last that is given.
#[tactic(auto, using(crate::proofs::Names::initform_turn))]
fn initform_of(said: &[SlotRow], name: Name) -> Option<ProcedureId>
    ensures { result ≡ inherited.initform_of name said.now }
{
    let mut found = None;
    for slot in said {
        found = later_initform(found, name, slot);
    }
    found
}

// The initform of this slot, if it is of the name and has one.
fn later_initform(found: Option<ProcedureId>, name: Name, slot: &SlotRow) -> Option<ProcedureId>
    ensures { result
        ≡ (if inherited.same_name name slot.now.name then (if is_some slot.now.initform then slot.now.initform else found) else found) }
{
    if name.0 == slot.name.0 && slot.initform.is_some() {
        slot.initform
    } else {
        found
    }
}

// The slot of a name.
fn slot_of(alloc: Global, said: &[SlotRow], name: Name) -> Result<SlotRow, NoMemory>
    ensures { IfOk result (λ slot. slot ≡ inherited.slot_of said.now name) }
{
    let initargs = initargs_of(alloc, said, name)?;
    Ok(SlotRow {
        name,
        initargs,
        initform: initform_of(said, name),
    })
}

/// The slots of these names.
pub fn slots_of(alloc: Global, said: &[SlotRow], names: &[Name]) -> Result<SlotRows, NoMemory>
    ensures { IfOk result (λ slots. slots ≡ inherited.slots_of said.now names.now) }
{
    let mut slots = SlotRows::new(alloc);
    for name in names {
        let slot = slot_of(alloc, said, *name)?;
        slots.push(slot)?;
    }
    Ok(slots)
}

/// What the classes of a precedence list say of slots, from the least specific class to the most
/// specific one.
pub fn said_by(alloc: Global, own: &OwnSlots, line: &[ClassId]) -> Result<SlotRows, NoMemory>
    ensures { IfOk result (λ said. said ≡ inherited.said_by own.now line.now) }
{
    let mut said = SlotRows::new(alloc);
    for at in (0..line.len()).rev() {
        append_copies(alloc, &mut said, own_slots(own, line[at]))?;
    }
    Ok(said)
}

// What a class says of slots, nothing where there is no such class.
fn own_slots(own: &OwnSlots, class: ClassId) -> &[SlotRow]
    ensures { result.now ≡ inherited.own_slots own.now class }
{
    match own.get(class) {
        Some(slots) => slots.as_slice(),
        None => &[],
    }
}

/// Appends copies of these slots. After `NoMemory` some of them may stand there.
pub fn append_copies(alloc: Global, slots: &mut SlotRows, more: &[SlotRow]) -> Result<(), NoMemory>
    ensures { OnOk result (slots.new ≡ slots.old ++ more.now) }
{
    for slot in more {
        let initargs = copy_names(alloc, slot.initargs.as_slice())?;
        slots.push(SlotRow {
            name: slot.name,
            initargs,
            initform: slot.initform,
        })?;
    }
    Ok(())
}

/// A copy of these names.
pub fn copy_names(alloc: Global, names: &[Name]) -> Result<NameList, NoMemory>
    ensures { IfOk result (λ copied. copied ≡ names.now) }
{
    let mut copied = NameList::new(alloc);
    for name in names {
        copied.push(*name)?;
    }
    Ok(copied)
}
