// The scan over all intervals, in the order in which they begin.

ghost use Rattle.std.specs.Prelude.{◌≡◌, ◌≤◌, ◌<◌, ◌+◌, ◌-◌, ℕ, length, slice_index_or, true, Some, None, IfOk, OnOk};
ghost use Rattle.std.specs.List.Sorted.{IsNonDecreasingBy};
ghost use Rattle.back_scan.specs.Spots.{StandWell, spot_of};
ghost use Rattle.back_scan.specs.Entries.{AreEntries, begins};
ghost use Rattle.back_scan.specs.Scanned.{taken_of};
ghost use Rattle.back_liveness.specs.Liveness.{is_held, IsCovered};
ghost use Rattle.back_scan.specs.Run.{HasScanned};

use crate::entries::{Entry, by_beginnings, by_ends};
use crate::leaving::Leaving;
use crate::placing::place_entry;
use crate::spot::{Allocation, HintList, Spot, WishList};
use crate::windows::Window;
use back_liveness::{IntervalList, PartLists};
use base::NoMemory;
use std::alloc::Global;

/// Where registers with these intervals, which have these parts, stand. Parts of registers that stand in one place have no line in common; each register
/// stands as it asks; and it is in a slot only where, at the line at which its interval begins, others whose intervals have that line stand in all
/// value registers that it may have. Hints decide which of the value registers that are free a register gets.
pub fn linear_scan(
    alloc: Global,
    intervals: &IntervalList,
    parts: &PartLists,
    wishes: &WishList,
    hints: &HintList,
) -> Result<Allocation, NoMemory>
    requires wishes { length wishes.now ≡ length intervals.now }
    requires inside { (v x : ℕ) → is_held parts.now v x ≡ true → IsCovered intervals.now v x }
    ensures { IfOk result (λ a. StandWell intervals.now parts.now wishes.now a.spots.items a.slots) }
{
    let entries = by_beginnings(alloc, intervals)?;
    let mut leaving = Leaving {
        entries: by_ends(alloc, intervals)?,
        next: 0,
        free: Vec::new(alloc),
    };
    let mut spots = no_spots(alloc, intervals.len())?;
    let mut taken = nothing_taken(alloc)?;
    let mut windows = Vec::new(alloc);
    place_all(
        alloc,
        intervals,
        parts,
        wishes,
        hints,
        entries.as_slice(),
        spots.as_mut_slice(),
        &mut taken,
        &mut windows,
        &mut leaving,
    )?;
    let slots = taken.len() - 14;
    Ok(Allocation { spots, slots })
}

// No spots of so many registers.
fn no_spots(alloc: Global, registers: usize) -> Result<Vec<Option<Spot>>, NoMemory>
    ensures count { IfOk result (λ spots. length spots.items ≡ registers) }
    ensures none { IfOk result (λ spots. (v : ℕ) → spot_of spots.items v ≡ None) }
{
    Ok(vec![in alloc; None; registers]?)
}

// The value registers, and nothing is in them.
fn nothing_taken(alloc: Global) -> Result<Vec<Option<usize>>, NoMemory>
    ensures count { IfOk result (λ taken. length taken.items ≡ 14) }
    ensures none { IfOk result (λ taken. (q : ℕ) → taken_of taken.items q ≡ None) }
{
    Ok(vec![in alloc; None; 14]?)
}

// The registers of all entries get their spots.
fn place_all(
    alloc: Global,
    intervals: &IntervalList,
    parts: &PartLists,
    wishes: &WishList,
    hints: &HintList,
    entries: &[Entry],
    spots: &mut [Option<Spot>],
    taken: &mut Vec<Option<usize>>,
    windows: &mut Vec<Window>,
    leaving: &mut Leaving,
) -> Result<(), NoMemory>
    requires entries { AreEntries intervals.now (length intervals.now) entries.now }
    requires sorted { IsNonDecreasingBy begins entries.now }
    requires wishes { length wishes.now ≡ length intervals.now }
    requires inside { (v x : ℕ) → is_held parts.now v x ≡ true → IsCovered intervals.now v x }
    requires begun { HasScanned intervals.now parts.now wishes.now entries.now 0 spots.old taken.old.items windows.old.items 0 }
    ensures { OnOk result (StandWell intervals.now parts.now wishes.now spots.new (length taken.new.items - 14) × (14 ≤ length taken.new.items)) }
{
    let mut line = 0;
    for at in 0..entries.len() {
        let entry = entries[at];
        place_entry(
            alloc, intervals, parts, wishes, hints, entry, spots, taken, windows, leaving,
        )?;
        line = entry.interval.from;
    }
    Ok(())
}
