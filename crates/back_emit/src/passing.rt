// Arguments into the places where they are passed, and parameters from there.

ghost use Rattle.std.specs.Prelude.{◌≡◌, ◌+◌, ◌^◌, ◌<◌, ◌≤◌, [], ◌++◌, length, map, nat_lt, OnOk, if◌then◌else◌};
ghost use Rattle.rv_encode.specs.declared.instruction.Instr.TheVariants.{Lw};
ghost use Rattle.back_places.specs.declared.place.Place.TheVariants.{InSlot};
ghost use Rattle.back_places.specs.Places.{argument_register};
ghost use Rattle.back_places.specs.Operands.{at_word};
ghost use Rattle.back_places.specs.Passing.{argument_word_code, argument_code, arguments_code, stored_code, fetched_code, pass_code, parameter_code, parameters_code};
ghost use Rattle.back_allocation.specs.Places.{place_at};
ghost use Rattle.back_emit.specs.declared.ways.FrameWay.TheVariants.{FromStack};
ghost use Rattle.back_emit.specs.Ways.{way_of, IsInReach};
ghost use Rattle.back_emit.specs.Fits.{AreInReach};

use crate::in_order::are_in_order;
use crate::operands::{CodeList, put_at_slot, put_at_word, put_load, put_read, read_in};
use crate::registers::place_in_reach;
use crate::ways::{Access, FrameWay};
use back_allocation::PlaceList;
use back_places::Place;
use base::NoMemory;
use mid_code::RegisterList;

/// The register in which an argument is passed, one of the first fourteen.
pub fn argument_register(i: usize) -> u32
    requires { i < 14 }
    ensures is { result ≡ argument_register i }
    ensures small { result < 32 }
{
    let registers = [12u32, 13, 14, 15, 16, 8, 9, 18, 19, 20, 21, 22, 23, 24];
    registers[i]
}

/// Appends an argument into its word of the image.
pub fn put_argument_word(
    code: &mut CodeList,
    words_at: u32,
    way: FrameWay,
    i: usize,
    place: Place,
) -> Result<(), NoMemory>
    requires { IsInReach way place × (words_at + i < 2 ^ 24) }
    ensures { OnOk result (code.new ≡ code.old ++ argument_word_code words_at (way_of way) i place) }
{
    put_read(code, way, 5, place)?;
    let register = read_in(5, place);
    put_at_word(code, words_at + i as u32, Access::StoreFrom(register))
}

/// Appends an argument into its register, or its word.
pub fn put_argument(
    code: &mut CodeList,
    words_at: u32,
    way: FrameWay,
    i: usize,
    place: Place,
) -> Result<(), NoMemory>
    requires { IsInReach way place × (words_at + i < 2 ^ 24) }
    ensures { OnOk result (code.new ≡ code.old ++ argument_code words_at (way_of way) i place) }
{
    if i < 14 {
        put_load(code, way, argument_register(i), place)
    } else {
        put_argument_word(code, words_at, way, i, place)
    }
}

/// Appends arguments, one after the other.
pub fn put_arguments(
    code: &mut CodeList,
    words_at: u32,
    way: FrameWay,
    places: &PlaceList,
    arguments: &RegisterList,
) -> Result<(), NoMemory>
    requires { AreInReach way places.now × (words_at + length arguments.now ≤ 2 ^ 24) }
    ensures { OnOk result (code.new ≡ code.old ++ arguments_code words_at (way_of way) 0 (map (place_at places.now) arguments.now)) }
{
    for i in 0..arguments.len() {
        let Some(register) = arguments.get(i) else {
            unreachable!()
        };
        let place = place_in_reach(way, places, *register);
        put_argument(code, words_at, way, i, place)?;
    }
    Ok(())
}

/// Appends arguments, all into their words of the image.
pub fn put_stored(
    code: &mut CodeList,
    words_at: u32,
    way: FrameWay,
    places: &PlaceList,
    arguments: &RegisterList,
) -> Result<(), NoMemory>
    requires { AreInReach way places.now × (words_at + length arguments.now ≤ 2 ^ 24) }
    ensures { OnOk result (code.new ≡ code.old ++ stored_code words_at (way_of way) 0 (map (place_at places.now) arguments.now)) }
{
    for i in 0..arguments.len() {
        let Some(register) = arguments.get(i) else {
            unreachable!()
        };
        let place = place_in_reach(way, places, *register);
        put_argument_word(code, words_at, way, i, place)?;
    }
    Ok(())
}

/// Appends that an argument comes from its word of the image into its register, if it has one.
pub fn put_fetch(code: &mut CodeList, words_at: u32, i: usize) -> Result<(), NoMemory>
    requires { words_at + i < 2 ^ 24 }
    ensures { OnOk result (code.new ≡ code.old ++ (if nat_lt i 14 then at_word (words_at + i) (Lw (argument_register i)) else [])) }
{
    if i < 14 {
        let register = argument_register(i);
        put_at_word(code, words_at + i as u32, Access::LoadInto(register))
    } else {
        Ok(())
    }
}

/// Appends that so many arguments come from words of the image into registers.
pub fn put_fetched(code: &mut CodeList, words_at: u32, count: usize) -> Result<(), NoMemory>
    requires { words_at + count ≤ 2 ^ 24 }
    ensures { OnOk result (code.new ≡ code.old ++ fetched_code words_at 0 count) }
{
    for i in 0..count {
        put_fetch(code, words_at, i)?;
    }
    Ok(())
}

/// Appends that arguments are passed: one after the other, or by words of the image where a later one would be read from a register that was
/// written for one before it.
#[tactic(auto, using(crate::proofs::Passed::length_placed))]
pub fn put_passed(
    code: &mut CodeList,
    words_at: u32,
    way: FrameWay,
    places: &PlaceList,
    arguments: &RegisterList,
) -> Result<(), NoMemory>
    requires { AreInReach way places.now × (words_at + length arguments.now ≤ 2 ^ 24) }
    ensures { OnOk result (code.new ≡ code.old ++ pass_code words_at (way_of way) (map (place_at places.now) arguments.now)) }
{
    if are_in_order(places, arguments) {
        put_arguments(code, words_at, way, places, arguments)
    } else {
        put_stored(code, words_at, way, places, arguments)?;
        put_fetched(code, words_at, arguments.len())
    }
}

/// Appends that a parameter goes to its place.
pub fn put_parameter(
    code: &mut CodeList,
    words_at: u32,
    i: usize,
    place: Place,
) -> Result<(), NoMemory>
    requires { IsInReach (FromStack 0) place × (words_at + i < 2 ^ 24) }
    ensures { OnOk result (code.new ≡ code.old ++ parameter_code words_at i place) }
{
    match place {
        Place::InRegister(_) => Ok(()),
        Place::InSlot(slot) => put_parameter_slot(code, words_at, i, slot),
        Place::AsConstant(_) => Ok(()),
    }
}

fn put_parameter_slot(
    code: &mut CodeList,
    words_at: u32,
    i: usize,
    slot: u32,
) -> Result<(), NoMemory>
    requires { (slot < 2 ^ 30) × (words_at + i < 2 ^ 24) }
    ensures { OnOk result (code.new ≡ code.old ++ parameter_code words_at i (InSlot slot)) }
{
    if i < 14 {
        let register = argument_register(i);
        put_at_slot(
            code,
            FrameWay::FromStack(0),
            slot,
            Access::StoreFrom(register),
        )
    } else {
        put_at_word(code, words_at + i as u32, Access::LoadInto(5))?;
        put_at_slot(code, FrameWay::FromStack(0), slot, Access::StoreFrom(5))
    }
}

/// Appends that parameters go to these places.
pub fn put_parameters(
    code: &mut CodeList,
    words_at: u32,
    parameters: &PlaceList,
) -> Result<(), NoMemory>
    requires { AreInReach (FromStack 0) parameters.now × (words_at + length parameters.now ≤ 2 ^ 24) }
    ensures { OnOk result (code.new ≡ code.old ++ parameters_code words_at 0 parameters.now) }
{
    for i in 0..parameters.len() {
        let place = place_in_reach(FrameWay::FromStack(0), parameters, i);
        put_parameter(code, words_at, i, place)?;
    }
    Ok(())
}
