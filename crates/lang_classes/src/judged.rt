// The slots of a definition: what it says of them, and which of them is refused.

ghost use Rattle.std.specs.Prelude.{◌≡◌, ◌+◌, ◌≤◌, ◌++◌, Some, None, true, false, length, OnOk, OnErr, IfOk, MatchResult, if◌then◌else◌};
ghost use Rattle.lang_classes.specs.InheritedSlots.{each_first, names_of, with_name, has_name};
ghost use Rattle.lang_classes.specs.InheritedClasses.{bad_slot, slot_limit, slots_refusal, slots_given};
ghost use Rattle.lang_classes.specs.Given.{given, spec_names, is_wrong, StopsBy};

use crate::slot_spec::SlotSpec;
use crate::slots::{copy_names, has_name, push_new, slot_names};
use base::{Name, NameList, NoMemory, Place, Reason, Refusal, Stop};
use lang_meaning::{SlotRow, SlotRows};
use std::alloc::Global;

/// The most slots that a class may have.
const SLOT_LIMIT: usize = 64;

/// Judges the slots of a definition, where the superclasses say this of slots. Refused where the
/// inherited slots alone are more than 64, at the place given, and else at the first slot that
/// repeats an earlier one of the definition or is one past 64.
pub fn judge_slots(
    alloc: Global,
    inherited: &[SlotRow],
    place: Place,
    slots: &[SlotSpec],
) -> Result<(), Stop>
    ensures few { OnOk result (length (each_first (names_of inherited.now ++ spec_names slots.now)) ≤ slot_limit) }
    ensures judged { MatchResult result (λ _. slots_refusal place (names_of inherited.now) (given slots.now) ≡ None)
        (StopsBy (slots_refusal place (names_of inherited.now) (given slots.now))) }
{
    let mut names = slot_names(alloc, inherited)?;
    if names.len() > SLOT_LIMIT {
        return Err(refused(place, Reason::BadSlot));
    }
    for at in 0..slots.len() {
        if let Err(stop) = admit(&mut names, &slots[..at], &slots[at]) {
            return Err(stop);
        }
    }
    Ok(())
}

// One slot more, behind these of the same definition. Refused where it repeats one of them, and
// where it is one past 64.
fn admit(names: &mut NameList, earlier: &[SlotSpec], slot: &SlotSpec) -> Result<(), Stop>
    requires { length names.old ≤ slot_limit }
    ensures names { OnOk result (names.new ≡ with_name slot.now.name names.old) }
    ensures few { OnOk result (length names.new ≤ slot_limit) }
    ensures judged { MatchResult result (λ _. is_wrong slot.now.name (spec_names earlier.now) names.old ≡ false)
        (StopsBy (if is_wrong slot.now.name (spec_names earlier.now) names.old then Some (bad_slot slot.now.place) else None)) }
{
    if is_wrong(names.as_slice(), earlier, slot.name) {
        return Err(refused(slot.place, Reason::BadSlot));
    }
    push_new(names, slot.name)?;
    Ok(())
}

// Whether a slot of this name repeats an earlier one, or is one past 64 behind these names.
fn is_wrong(names: &[Name], earlier: &[SlotSpec], name: Name) -> bool
    requires { length names.now ≤ slot_limit }
    ensures { result ≡ is_wrong name (spec_names earlier.now) names.now }
{
    is_repeated(earlier, name) || names.len() == SLOT_LIMIT && !has_name(names, name)
}

// Whether one of the slots has this name.
fn is_repeated(earlier: &[SlotSpec], name: Name) -> bool
    ensures { result ≡ has_name name (spec_names earlier.now) }
{
    for slot in earlier {
        if name.0 == slot.name.0 {
            return true;
        }
    }
    false
}

/// The stop of a refusal.
pub fn refused(place: Place, reason: Reason) -> Stop
    ensures { result ≡ Stop.Refused (record { place = place; reason = reason }) }
{
    Stop::Refused(Refusal { place, reason })
}

/// What a definition says of slots, apart from their places.
pub fn own_slots(alloc: Global, slots: &[SlotSpec]) -> Result<SlotRows, NoMemory>
    ensures { IfOk result (λ own. own ≡ slots_given (given slots.now)) }
{
    let mut own = SlotRows::new(alloc);
    for slot in slots {
        let initargs = copy_names(alloc, slot.initargs.as_slice())?;
        own.push(SlotRow {
            name: slot.name,
            initargs,
            initform: slot.initform,
        })?;
    }
    Ok(own)
}
