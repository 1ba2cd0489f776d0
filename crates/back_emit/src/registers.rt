// Places of registers that are in reach.

ghost use Rattle.std.specs.Prelude.{◌≡◌};
ghost use Rattle.back_allocation.specs.Places.{place_at};
ghost use Rattle.back_emit.specs.Ways.{IsInReach};
ghost use Rattle.back_emit.specs.Fits.{AreInReach};

use crate::ways::FrameWay;
use back_allocation::{PlaceList, place_at};
use back_places::Place;
use mid_code::Register;

/// The place of a register, where all are in reach.
pub fn place_in_reach(way: FrameWay, places: &PlaceList, register: Register) -> Place
    requires { AreInReach way places.now }
    ensures is { result ≡ place_at places.now register }
    ensures reached { IsInReach way result }
{
    place_at(places, register)
}
