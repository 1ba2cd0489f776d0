// The places of the registers of a procedure, and of its parameters at the entry.

ghost use Rattle.std.specs.Prelude.{◌≡◌, ◌≤◌, ◌<◌, ◌+◌, ◌^◌, ℕ, ◌==◌, [], length, map, slice_get, slice_index_or, true, Some, None, IfOk, IfSome, MatchOption, if◌then◌else◌};
ghost use Rattle.std.specs.List.{list_any};
ghost use Rattle.back_trivial.specs.OwnSlots.{no_target};
ghost use Rattle.mid_lines.specs.declared.line.Line.{Line};
ghost use Rattle.back_places.specs.declared.place.Place.TheVariants.{InRegister};
ghost use Rattle.back_places.specs.Places.{argument_register};
ghost use Rattle.back_places.specs.Facts.{IsPlace};
ghost use Rattle.back_allocation.specs.LineSteps.{line_reads, line_gives, landings_in};
ghost use Rattle.back_allocation.specs.StandingLandings.{line_landings};
ghost use Rattle.back_allocation.specs.Names.{AreNamings, IsPassedIn, NamesStand};
ghost use Rattle.back_allocation.specs.NamesFound.{owner_in, AreGrouped, AreOverwritten};
ghost use Rattle.back_allocation.specs.Allocated.{parameter_places};
ghost use Rattle.back_allocation.specs.Places.{place_of, place_chosen, place_in, place_at, enters_in, begins_in, ChosenWell};
ghost use Rattle.back_allocation.specs.RegistersPlaced.{StandInPlaces, StandInSlotsForReasons};
ghost use Rattle.back_liveness.specs.Liveness.{have_line};

use crate::allocation::{Chosen, allocate};
use crate::finding::names_of;
use crate::landings::landings_of_lines;
use crate::names::{Names, are_grouped, named_lines, overwritten_of, own_names};
use crate::steps::LandingsList;
use back_liveness::{Interval, IntervalList, PartLists};
use back_places::Place;
use back_scan::Spot;
use base::{ItemList, NoMemory};
use mid_code::Register;
use mid_lines::{LineList, LineProcedure};
use std::alloc::Global;

/// Places, by the numbers of registers, or of parameters.
pub type PlaceList = ItemList<Place>;

/// Where the registers of a procedure stand: its lines with names of registers, the places of names, where its entry brings the words of parameters, and
/// how many slots there are.
#[derive(Drop)]
pub struct RegisterPlaces {
    pub lines: LineList,
    pub places: PlaceList,
    pub parameters: PlaceList,
    pub slots: u32,
}

/// Where the registers of a procedure stand, with no more slots than there are registers, and names in slots for a reason; none where its frame has no
/// word for each slot and one for the return address, so it has no more words than there are registers.
pub fn place_registers(
    alloc: Global,
    procedure: &LineProcedure,
) -> Result<Option<RegisterPlaces>, NoMemory>
    requires registers { (line to : ℕ) (x : Line) → slice_get procedure.now.lines line ≡ Some x → line_gives x ≡ Some to → to < procedure.now.registers }
    requires read { (line v : ℕ) (x : Line) → slice_get procedure.now.lines line ≡ Some x → list_any (λ r. r == v) (line_reads x) ≡ true → v < procedure.now.registers }
    requires parameters { procedure.now.parameters ≤ procedure.now.registers }
    ensures stand { IfOk result (λ found. MatchOption found (procedure.now.frame ≤ procedure.now.registers)
        (λ a. StandInPlaces procedure.now a × (a.slots < procedure.now.frame) × (a.slots ≤ procedure.now.registers))) }
    ensures reasons { IfOk result (λ found. IfSome found (StandInSlotsForReasons procedure.now)) }
{
    if 4_611_686_018_427_387_904 <= procedure.lines.len() {
        return Err(NoMemory);
    }
    let landings = landings_of_lines(alloc, &procedure.lines)?;
    let names = names_of(alloc, procedure, &landings)?;
    if let Some(found) = with_names(alloc, procedure, &landings, &names)? {
        return Ok(Some(found));
    }
    with_own_names(alloc, procedure, &landings)
}

// The same with names that may be better; none where they do not say what registers have, or the frame has not a word for each slot then.
fn with_names(
    alloc: Global,
    procedure: &LineProcedure,
    landings: &LandingsList,
    names: &Names,
) -> Result<Option<RegisterPlaces>, NoMemory>
    requires room { length procedure.now.lines < 2 ^ 62 }
    requires registers { (line to : ℕ) (x : Line) → slice_get procedure.now.lines line ≡ Some x → line_gives x ≡ Some to → to < procedure.now.registers }
    requires read { (line v : ℕ) (x : Line) → slice_get procedure.now.lines line ≡ Some x → list_any (λ r. r == v) (line_reads x) ≡ true → v < procedure.now.registers }
    requires parameters { procedure.now.parameters ≤ procedure.now.registers }
    requires landings { landings.now ≡ line_landings 0 [] procedure.now.lines }
    ensures stand { IfOk result (λ found. IfSome found (λ a. StandInPlaces procedure.now a × (a.slots < procedure.now.frame) × (a.slots ≤ procedure.now.registers))) }
    ensures reasons { IfOk result (λ found. IfSome found (StandInSlotsForReasons procedure.now)) }
{
    if !are_grouped(names, procedure.registers) {
        return Ok(None);
    }
    let owners = names.owners.as_slice();
    let lines = named_lines(alloc, &procedure.lines, names, procedure.registers)?;
    let overwritten = overwritten_of(alloc, &lines, names)?;
    let chosen = allocate(
        alloc,
        &lines,
        landings,
        overwritten.as_slice(),
        procedure.parameters,
        owners,
    )?;
    let slots = chosen.allocation.slots;
    if !chosen.is_clear || procedure.frame as usize <= slots || procedure.registers < slots {
        return Ok(None);
    }
    if !are_passed_in(&chosen, owners, procedure.registers) {
        return Ok(None);
    }
    let placed = placed(alloc, lines, &chosen, procedure.parameters)?;
    Ok(Some(placed))
}

// The same where each register has one name, itself.
fn with_own_names(
    alloc: Global,
    procedure: &LineProcedure,
    landings: &LandingsList,
) -> Result<Option<RegisterPlaces>, NoMemory>
    requires room { length procedure.now.lines < 2 ^ 62 }
    requires registers { (line to : ℕ) (x : Line) → slice_get procedure.now.lines line ≡ Some x → line_gives x ≡ Some to → to < procedure.now.registers }
    requires read { (line v : ℕ) (x : Line) → slice_get procedure.now.lines line ≡ Some x → list_any (λ r. r == v) (line_reads x) ≡ true → v < procedure.now.registers }
    requires parameters { procedure.now.parameters ≤ procedure.now.registers }
    requires landings { landings.now ≡ line_landings 0 [] procedure.now.lines }
    ensures stand { IfOk result (λ found. MatchOption found (procedure.now.frame ≤ procedure.now.registers)
        (λ a. StandInPlaces procedure.now a × (a.slots < procedure.now.frame) × (a.slots ≤ procedure.now.registers))) }
    ensures reasons { IfOk result (λ found. IfSome found (StandInSlotsForReasons procedure.now)) }
{
    let names = own_names(alloc, procedure.registers)?;
    let lines = named_lines(alloc, &procedure.lines, &names, procedure.registers)?;
    let chosen = allocate(
        alloc,
        &lines,
        landings,
        &[],
        procedure.parameters,
        names.owners.as_slice(),
    )?;
    let slots = chosen.allocation.slots;
    if procedure.frame as usize <= slots {
        return Ok(None);
    }
    let placed = placed(alloc, lines, &chosen, procedure.parameters)?;
    Ok(Some(placed))
}

// Whether each name but the first ones that is there at the entry stands where its register is passed.
fn are_passed_in(chosen: &Chosen, owners: &[usize], registers: usize) -> bool
    ensures { result ≡ true → (w : ℕ) → registers ≤ w → w < length owners.now → begins_in chosen.now.lives w ≡ true
        → IsPassedIn (owner_in owners.now w) (place_in chosen.now.constants.items chosen.now.allocation.spots.items w) }
{
    for name in registers..owners.len() {
        if !is_passed_in(chosen, name, owners[name]) {
            return false;
        }
    }
    true
}

// Whether a name stands where a register is passed, if it is there at the entry.
fn is_passed_in(chosen: &Chosen, name: usize, register: Register) -> bool
    ensures { result ≡ true → begins_in chosen.now.lives name ≡ true
        → IsPassedIn register (place_in chosen.now.constants.items chosen.now.allocation.spots.items name) }
{
    if !begins(&chosen.lives, name) {
        return true;
    }
    let constant = constant_at(chosen.constants.as_slice(), name);
    let spot = spot_at(chosen.allocation.spots.as_slice(), name);
    is_held_by(constant, spot, register)
}

// Whether a name with that constant and spot stands where a register is passed.
fn is_held_by(constant: Option<u32>, spot: Option<Spot>, register: Register) -> bool
    ensures { result ≡ true → IsPassedIn register (place_chosen constant spot) }
{
    match (constant, spot) {
        (None, Some(Spot::Held(number))) => register < 14 && number == register,
        _ => false,
    }
}

// The places of names that were chosen, for lines with these names.
fn placed(
    alloc: Global,
    lines: LineList,
    chosen: &Chosen,
    parameters: usize,
) -> Result<RegisterPlaces, NoMemory>
    requires few { chosen.now.allocation.slots + 1 < 2 ^ 32 }
    requires placed { (v : ℕ) → IsPlace (chosen.now.allocation.slots + 1) (place_in chosen.now.constants.items chosen.now.allocation.spots.items v) }
    requires long { length chosen.now.constants.items ≡ length chosen.now.allocation.spots.items }
    ensures lines { IfOk result (λ a. a.lines ≡ lines) }
    ensures places { IfOk result (λ a. (v : ℕ) → place_at a.places v ≡ place_in chosen.now.constants.items chosen.now.allocation.spots.items v) }
    ensures parameters { IfOk result (λ a. a.parameters ≡ parameter_places (place_at a.places) (enters_in chosen.now.parts) 0 parameters) }
    ensures slots { IfOk result (λ a. a.slots ≡ chosen.now.allocation.slots) }
{
    let slots = chosen.allocation.slots;
    let places = places_of(
        alloc,
        chosen.constants.as_slice(),
        chosen.allocation.spots.as_slice(),
        slots,
    )?;
    let parameters = parameters_of(alloc, &places, &chosen.parts, parameters)?;
    Ok(RegisterPlaces {
        lines,
        places,
        parameters,
        slots: slots as u32,
    })
}

// The places of names with these constants and spots.
fn places_of(
    alloc: Global,
    constants: &[Option<u32>],
    spots: &[Option<Spot>],
    slots: usize,
) -> Result<PlaceList, NoMemory>
    requires few { slots + 1 < 2 ^ 32 }
    requires placed { (v : ℕ) → IsPlace (slots + 1) (place_in constants.now spots.now v) }
    requires long { length constants.now ≡ length spots.now }
    ensures { IfOk result (λ places. (v : ℕ) → place_at places v ≡ place_in constants.now spots.now v) }
{
    let mut places = PlaceList::new(alloc);
    for at in 0..spots.len() {
        places.push(place_of_name(constants, spots, at, slots))?;
    }
    Ok(places)
}

fn place_of_name(
    constants: &[Option<u32>],
    spots: &[Option<Spot>],
    name: usize,
    slots: usize,
) -> Place
    requires few { slots + 1 < 2 ^ 32 }
    requires placed { IsPlace (slots + 1) (place_in constants.now spots.now name) }
    ensures { result ≡ place_in constants.now spots.now name }
{
    place_chosen(constant_at(constants, name), spot_at(spots, name), slots)
}

fn constant_at(constants: &[Option<u32>], name: usize) -> Option<u32>
    ensures { result ≡ slice_index_or constants.now name None }
{
    if name < constants.len() {
        constants[name]
    } else {
        None
    }
}

fn spot_at(spots: &[Option<Spot>], name: usize) -> Option<Spot>
    ensures { result ≡ slice_index_or spots.now name None }
{
    if name < spots.len() {
        spots[name]
    } else {
        None
    }
}

fn place_chosen(constant: Option<u32>, spot: Option<Spot>, slots: usize) -> Place
    requires few { slots + 1 < 2 ^ 32 }
    requires placed { IsPlace (slots + 1) (place_chosen constant spot) }
    ensures { result ≡ place_chosen constant spot }
{
    match constant {
        Some(word) => Place::AsConstant(word),
        None => place_of(spot, slots),
    }
}

fn place_of(spot: Option<Spot>, slots: usize) -> Place
    requires few { slots + 1 < 2 ^ 32 }
    requires placed { IsPlace (slots + 1) (place_of spot) }
    ensures { result ≡ place_of spot }
{
    match spot {
        None => Place::AsConstant(0),
        Some(Spot::Held(register)) => Place::InRegister(held_in(register)),
        Some(Spot::Slot(slot)) => Place::InSlot((slot + 1) as u32),
    }
}

// A value register of the machine.
fn held_in(register: usize) -> u8
    requires { IsPlace 0 (InRegister (argument_register register)) }
    ensures { result ≡ argument_register register }
{
    let registers = [12u8, 13, 14, 15, 16, 8, 9, 18, 19, 20, 21, 22, 23, 24];
    registers[register]
}

/// The place of a register; none of those where words are given, if it is not there.
pub fn place_at(places: &PlaceList, register: Register) -> Place
    ensures { result ≡ place_at places.now register }
{
    match places.get(register) {
        Some(place) => *place,
        None => Place::AsConstant(0),
    }
}

// Where the entry brings so many parameters.
fn parameters_of(
    alloc: Global,
    places: &PlaceList,
    parts: &PartLists,
    parameters: usize,
) -> Result<PlaceList, NoMemory>
    ensures { IfOk result (λ list. list ≡ parameter_places (place_at places.now) (enters_in parts.now) 0 parameters) }
{
    let mut list = PlaceList::new(alloc);
    for register in 0..parameters {
        list.push(parameter_place(places, parts, register))?;
    }
    Ok(list)
}

fn parameter_place(places: &PlaceList, parts: &PartLists, register: Register) -> Place
    ensures { result ≡ (if enters_in parts.now register then place_at places.now register else no_target) }
{
    if enters(parts, register) {
        place_at(places, register)
    } else {
        Place::AsConstant(0)
    }
}

fn enters(parts: &PartLists, register: Register) -> bool
    ensures { result ≡ enters_in parts.now register }
{
    match parts.get(register) {
        Some(own) => have_first(own.as_slice()),
        None => false,
    }
}

// Whether some of the parts has the first line.
fn have_first(own: &[Interval]) -> bool
    ensures { result ≡ have_line own.now 0 }
{
    for at in 0..own.len() {
        if own[at].from == 0 {
            return true;
        }
    }
    false
}

fn begins(intervals: &IntervalList, register: Register) -> bool
    ensures { result ≡ begins_in intervals.now register }
{
    match intervals.get(register) {
        Some(Some(interval)) => interval.from == 0,
        Some(None) => false,
        None => false,
    }
}
