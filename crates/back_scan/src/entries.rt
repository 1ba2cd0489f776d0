// Registers with their intervals, by the lines at which these begin.

ghost use Rattle.std.specs.Prelude.{◌≡◌, ◌≤◌, ◌<◌, ℕ, length, slice_index_or, Some, None, IfOk};
ghost use Rattle.std.specs.List.Sorted.{IsNonDecreasingBy};
ghost use Rattle.back_liveness.specs.declared.step.Interval.{Interval};
ghost use Rattle.back_scan.specs.Entries.{AreEntries, begins};

use back_liveness::{Interval, IntervalList};
use base::NoMemory;
use mid_code::Register;
use std::alloc::Global;

/// A register with its interval.
#[derive(Clone, Copy)]
pub struct Entry {
    pub register: Register,
    pub interval: Interval,
}

/// All registers with intervals, those first that begin first; where they begin alike, the one of the lower number.
pub fn by_beginnings(alloc: Global, intervals: &IntervalList) -> Result<Vec<Entry>, NoMemory>
    ensures entries { IfOk result (λ entries. AreEntries intervals.now (length intervals.now) entries.items) }
    ensures sorted { IfOk result (λ entries. IsNonDecreasingBy begins entries.items) }
{
    let mut entries = entries_of(alloc, intervals)?;
    entries.sort_by_key(|e| e.interval.from)?;
    Ok(entries)
}

/// All registers with intervals, those first that end first.
pub fn by_ends(alloc: Global, intervals: &IntervalList) -> Result<Vec<Entry>, NoMemory> {
    let mut entries = entries_of(alloc, intervals)?;
    entries.sort_by_key(|e| e.interval.to)?;
    Ok(entries)
}

// All registers with intervals, by their numbers.
fn entries_of(alloc: Global, intervals: &IntervalList) -> Result<Vec<Entry>, NoMemory>
    ensures { IfOk result (λ entries. AreEntries intervals.now (length intervals.now) entries.items) }
{
    let mut entries = Vec::new(alloc);
    let all = intervals.as_slice();
    for register in 0..all.len() {
        if let Some(interval) = all[register] {
            entries.push(Entry { register, interval })?;
        }
    }
    Ok(entries)
}
