// What a class definition comes to: a class, or a refusal.

ghost use Rattle.std.specs.Prelude.{◌≡◌, ◌<◌, ◌≤◌, ◌++◌, [], ◌∷◌, None, true, All, length, OnOk, IfOk, MatchResult};
ghost use Rattle.lang_classes.specs.InheritedPrecedence as inherited;
ghost use Rattle.lang_classes.specs.InheritedPrecedence.{above, precedence_below};
ghost use Rattle.lang_classes.specs.InheritedSlots.{each_first, said_by, united};
ghost use Rattle.lang_classes.specs.InheritedClasses.{IsHierarchy, IsRow, inherited_names, refusal, row_of, slot_limit, slots_given, with_own};
ghost use Rattle.lang_classes.specs.Given.{given, spec_names, StopsBy};

use crate::judged::{judge_slots, own_slots, refused};
use crate::line::{above, supers_fit};
use crate::row::row_of;
use crate::slot_spec::SlotSpecs;
use crate::slots::{said_by, slot_names};
use crate::table::ClassTable;
use base::{Name, NameList, NoMemory, Place, Reason, Stop};
use lang_meaning::{ClassId, ClassIds, ClassRow, SlotRows};
use std::alloc::Global;

/// What stands above a class: the classes, and what they say of slots.
#[derive(Drop)]
struct Above {
    line: ClassIds,
    inherited: SlotRows,
}

/// A class that is to be added: its row, and what it says of slots itself.
#[derive(Drop)]
pub struct NewClass {
    pub row: ClassRow,
    pub own: SlotRows,
}

/// The class that a definition adds to these. Refused where its superclasses do not go together or
/// have more than 64 slots, at the place given, and else at its first slot that repeats an earlier
/// one or is one past 64.
pub fn new_class(
    alloc: Global,
    table: &ClassTable,
    name: Name,
    place: Place,
    supers: &[ClassId],
    slots: &SlotSpecs,
    abstract_class: bool,
) -> Result<NewClass, Stop>
    requires hierarchy { IsHierarchy table.now }
    requires in_range { All (λ class. class < length table.now.rows) supers.now }
    ensures own { IfOk result (λ new. new.own ≡ slots_given (given slots.now)) }
    ensures row { IfOk result (λ new. new.row
        ≡ row_of name (precedence_below table.now.rows (length table.now.rows) supers.now) (with_own table.now (given slots.now)) abstract_class) }
    ensures right { IfOk result (λ new. IsRow table.now.rows (with_own table.now (given slots.now)) (length table.now.rows) new.row) }
    ensures judged { MatchResult result (λ _. refusal table.now place supers.now (given slots.now) ≡ None)
        (StopsBy (refusal table.now place supers.now (given slots.now))) }
{
    match judged(alloc, table, place, supers, slots) {
        Ok(above) => match made(alloc, table, name, above, slots, abstract_class) {
            Ok(new) => Ok(new),
            Err(_) => Err(Stop::NoMemory),
        },
        Err(stop) => Err(stop),
    }
}

// What stands above a class of this definition, where it is not refused.
#[tactic(auto, unfolding(crate::specs::InheritedClasses::refusal))]
fn judged(
    alloc: Global,
    table: &ClassTable,
    place: Place,
    supers: &[ClassId],
    slots: &SlotSpecs,
) -> Result<Above, Stop>
    ensures line { IfOk result (λ all. all.line ≡ above table.now.rows supers.now) }
    ensures inherited { IfOk result (λ all. all.inherited ≡ said_by table.now.own (above table.now.rows supers.now)) }
    ensures fit { OnOk result (inherited.supers_fit table.now.rows supers.now ≡ true) }
    ensures few { OnOk result (length (each_first (inherited_names table.now supers.now ++ spec_names slots.now)) ≤ slot_limit) }
    ensures judged { MatchResult result (λ _. refusal table.now place supers.now (given slots.now) ≡ None)
        (StopsBy (refusal table.now place supers.now (given slots.now))) }
{
    if !supers_fit(table.rows(), supers) {
        return Err(refused(place, Reason::BadSupers));
    }
    let above = all_above(alloc, table, supers)?;
    match judge_slots(alloc, above.inherited.as_slice(), place, slots.as_slice()) {
        Ok(()) => Ok(above),
        Err(stop) => Err(stop),
    }
}

fn all_above(alloc: Global, table: &ClassTable, supers: &[ClassId]) -> Result<Above, NoMemory>
    ensures line { IfOk result (λ all. all.line ≡ above table.now.rows supers.now) }
    ensures inherited { IfOk result (λ all. all.inherited ≡ said_by table.now.own (above table.now.rows supers.now)) }
{
    let line = above(alloc, table.rows(), supers)?;
    let inherited = said_by(alloc, table.own(), line.as_slice())?;
    Ok(Above { line, inherited })
}

/// The names of the slots that these superclasses have, each once.
pub fn inherited_names(
    alloc: Global,
    table: &ClassTable,
    supers: &[ClassId],
) -> Result<NameList, NoMemory>
    ensures { IfOk result (λ names. names ≡ each_first (inherited_names table.now supers.now)) }
{
    let above = all_above(alloc, table, supers)?;
    slot_names(alloc, above.inherited.as_slice())
}

// The class with these above it.
fn made(
    alloc: Global,
    table: &ClassTable,
    name: Name,
    above: Above,
    slots: &SlotSpecs,
    abstract_class: bool,
) -> Result<NewClass, NoMemory>
    ensures own { IfOk result (λ new. new.own ≡ slots_given (given slots.now)) }
    ensures row { IfOk result (λ new. new.row ≡ record {
      name = name;
      precedence = length table.now.rows ∷ above.line;
      slots = united (above.inherited ++ slots_given (given slots.now));
      abstract_class = abstract_class;
    }) }
{
    let own = own_slots(alloc, slots.as_slice())?;
    let class = table.rows().len();
    let line = above.line;
    let row = row_of(
        alloc,
        name,
        class,
        line.as_slice(),
        above.inherited,
        own.as_slice(),
        abstract_class,
    )?;
    Ok(NewClass { row, own })
}
