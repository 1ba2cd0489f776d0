// Whether arguments can be passed one after the other.

ghost use Rattle.std.specs.Prelude.{◌≡◌, map};
ghost use Rattle.back_places.specs.declared.place.Place.TheVariants.{InRegister};
ghost use Rattle.back_places.specs.Passing.{are_in_order};
ghost use Rattle.back_allocation.specs.Places.{place_at};
ghost use Rattle.back_emit.specs.InOrder.{is_unwritten};

use crate::passing::argument_register;
use back_allocation::{PlaceList, place_at};
use back_places::Place;
use mid_code::RegisterList;

/// Whether no argument is read from a register that was written for one before it.
pub fn are_in_order(places: &PlaceList, arguments: &RegisterList) -> bool
    ensures { result ≡ are_in_order 0 (map (place_at places.now) arguments.now) }
{
    let mut ordered = true;
    for i in 0..arguments.len() {
        let Some(register) = arguments.get(i) else {
            unreachable!()
        };
        let unwritten = is_unwritten(i, place_at(places, *register));
        ordered = ordered && unwritten;
    }
    ordered
}

/// Whether a place is another one than the registers of the first arguments.
#[tactic(auto, using(crate::proofs::InOrder::slot_unwritten, crate::proofs::InOrder::constant_unwritten))]
pub fn is_unwritten(count: usize, place: Place) -> bool
    ensures { result ≡ is_unwritten 0 count place }
{
    match place {
        Place::InRegister(register) => is_register_unwritten(count, u32::from(register)),
        Place::InSlot(_) => true,
        Place::AsConstant(_) => true,
    }
}

// Behind the first fourteen arguments, which have registers, register 0 stands for all others.
fn is_register_unwritten(count: usize, register: u32) -> bool
    ensures { result ≡ is_unwritten 0 count (InRegister register) }
{
    for i in 0..count {
        if i == 14 {
            return register != 0;
        }
        if argument_register(i) == register {
            return false;
        }
    }
    true
}
