// Where the registers of a procedure of lines stand.

ghost use Rattle.std.specs.Prelude.{◌≡◌, ◌≤◌, ◌<◌, ◌^◌, ℕ, true, false, length, slice_get, slice_index_or, Some, IfOk};
ghost use Rattle.mid_lines.specs.declared.line.Line.{Line};
ghost use Rattle.back_allocation.specs.LineSteps.{line_gives, landings_in, steps_from};
ghost use Rattle.back_allocation.specs.Places.{place_in, enters_in, begins_in, ChosenWell};
ghost use Rattle.back_allocation.specs.Slots.{AreLives, AreSlotsWanted};
ghost use Rattle.back_liveness.specs.Liveness.{AreStructured, AreTight};

use crate::barriers::barriers_of;
use crate::constants::{constants_of, parts_without_constants, without_constants};
use crate::hints::hints_of;
use crate::steps::{LandingsList, steps_of};
use crate::wishes::wishes_of;
use back_liveness::{Barrier, CrossedList, IntervalList, LiveIntervals, PartLists, live_intervals};
use back_scan::{Allocation, linear_scan};
use base::NoMemory;
use mid_lines::LineList;
use std::alloc::Global;

/// Where names stand, their constants, the intervals in which they are alive, and the parts of these of names that have no constant: the entry brings
/// those to their places that are held at the first line; and whether it is clear that none is alive where it is overwritten.
#[derive(Drop)]
pub struct Chosen {
    pub allocation: Allocation,
    pub constants: Vec<Option<u32>>,
    pub lives: IntervalList,
    pub parts: PartLists,
    pub is_clear: bool,
}

/// Where the names of registers with these owners stand, by which lines go, of which these are the landings of the records that stand at them; how
/// many slots they need, no more than there are names; and whether it is clear that none is alive where one of the barriers crosses it. A name is in a
/// slot only where it has to outlast a call or a cut, where it is passed there, or where all value registers are had by others when its interval
/// begins; the intervals have the lines at which names are alive, and none is longer than it has to be.
pub fn allocate(
    alloc: Global,
    lines: &LineList,
    landings: &LandingsList,
    overwritten: &[Barrier],
    parameters: usize,
    owners: &[usize],
) -> Result<Chosen, NoMemory>
    requires room { length lines.now < 2 ^ 62 }
    requires registers { (line to : ℕ) (x : Line) → slice_get lines.now line ≡ Some x → line_gives x ≡ Some to → to < length owners.now }
    requires parameters { parameters ≤ length owners.now }
    ensures chosen { IfOk result (λ a. ChosenWell lines.now parameters (landings_in landings.now) (place_in a.constants.items a.allocation.spots.items)
        (enters_in a.parts) (begins_in a.lives) a.allocation.slots overwritten.now (length owners.now) a.is_clear) }
    ensures few { IfOk result (λ a. a.allocation.slots ≤ length owners.now) }
    ensures long { IfOk result (λ a. length a.constants.items ≡ length a.allocation.spots.items) }
    ensures slots { IfOk result (λ a. AreSlotsWanted lines.now (landings_in landings.now) parameters owners.now a.constants.items a.lives a.parts
        a.allocation.spots.items) }
    ensures lives { IfOk result (λ a. AreLives (steps_from (landings_in landings.now) 0 lines.now) (length owners.now) a.lives) }
    ensures tight { AreStructured (steps_from (landings_in landings.now) 0 lines.now)
        → IfOk result (λ a. AreTight (steps_from (landings_in landings.now) 0 lines.now) a.lives) }
{
    let names = owners.len();
    let steps = steps_of(alloc, lines, landings)?;
    let barriers = barriers_of(alloc, lines, landings)?;
    let found = live_intervals(alloc, &steps, barriers.as_slice(), names)?;
    let again = live_intervals(alloc, &steps, overwritten, names)?;
    let is_clear = none_told(&again.crossed);
    let LiveIntervals {
        intervals,
        parts,
        crossed,
    } = found;
    let constants = constants_of(alloc, lines, parameters, names)?;
    let kept = without_constants(alloc, &intervals, constants.as_slice())?;
    let kept_parts = parts_without_constants(alloc, parts, constants.as_slice());
    let wishes = wishes_of(alloc, &kept, &crossed, parameters, owners)?;
    let hints = hints_of(alloc, lines, names)?;
    let allocation = linear_scan(alloc, &kept, &kept_parts, &wishes, &hints)?;
    Ok(Chosen {
        allocation,
        constants,
        lives: intervals,
        parts: kept_parts,
        is_clear,
    })
}

// Whether none is told to be crossed.
fn none_told(crossed: &CrossedList) -> bool
    ensures { result ≡ true → (v : ℕ) → slice_index_or crossed.now v false ≡ true → ⊥ }
{
    let all = crossed.as_slice();
    for name in 0..all.len() {
        if all[name] {
            return false;
        }
    }
    true
}
