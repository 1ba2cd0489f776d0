// Which jumps are near.

ghost use Rattle.std.specs.Prelude.{◌≡◌, ◌+◌, ◌^◌, ◌<◌, ◌≤◌, length, IfOk};
ghost use Rattle.mid_code.specs.declared.operation.Callee.TheVariants.{Procedure};
ghost use Rattle.back_layout.specs.Layout.{is_near_branch, is_near_jump};
ghost use Rattle.back_emit.specs.PlacedCode.{placed_before_call, placed_tested};
ghost use Rattle.back_emit.specs.Fits.{FitsSpot};

use crate::lines::put_tested;
use crate::operands::CodeList;
use crate::operations::put_before_call;
use crate::spots::Spot;
use back_allocation::PlaceList;
use base::NoMemory;
use mid_code::{Callee, Register, RegisterList};

/// Whether a branch from a position to another is near.
pub fn is_near_branch(from: usize, to: usize) -> bool
    requires { (from < 2 ^ 63) × (to < 2 ^ 63) }
    ensures { result ≡ is_near_branch from to }
{
    to < from + 1024 && from <= to + 1024
}

/// Whether a jump is.
pub fn is_near_jump(from: usize, to: usize) -> bool
    requires { (from < 2 ^ 63) × (to < 2 ^ 63) }
    ensures { result ≡ is_near_jump from to }
{
    to < from + 262_144 && from <= to + 262_144
}

/// How many instructions come before the test of a branch.
pub fn tested_length(
    scratch: &mut CodeList,
    spot: &Spot,
    places: &PlaceList,
    first: Register,
    second: Register,
) -> Result<usize, NoMemory>
    requires { FitsSpot spot.now places.now }
    ensures { IfOk result (λ count. count ≡ length (placed_tested places.now spot.now first second)) }
{
    scratch.cut(0);
    put_tested(scratch, spot, places, first, second)?;
    Ok(scratch.len())
}

/// How many come before the jump of a call by number.
pub fn passed_length(
    scratch: &mut CodeList,
    spot: &Spot,
    places: &PlaceList,
    number: usize,
    arguments: &RegisterList,
) -> Result<usize, NoMemory>
    requires { FitsSpot spot.now places.now
        × (spot.now.arguments_at + length arguments.now ≤ 2 ^ 24) }
    ensures { IfOk result (λ count. count ≡ length (placed_before_call places.now spot.now (Procedure number) arguments.now)) }
{
    scratch.cut(0);
    put_before_call(scratch, spot, places, Callee::Procedure(number), arguments)?;
    Ok(scratch.len())
}
