// One interval more gets its place.

ghost use Rattle.std.specs.Prelude.{◌≡◌, ◌≢◌, ◌≤◌, ◌<◌, ◌+◌, ◌^◌, ℕ, true, false, [], length, slice_index_or, slice_set, Some, None, IfOk, OnOk, OnErr};
ghost use Rattle.back_scan.specs.Spots.{spot_of, interval_of};
ghost use Rattle.back_scan.specs.Entries.{IsEntry};
ghost use Rattle.back_scan.specs.Scanned.{rank, IsFree, IsLater, taken_of, Scanned};
ghost use Rattle.back_liveness.specs.Liveness.{is_held, IsCovered};
ghost use Rattle.back_scan.specs.Chosen.{IsChosen, IsSame, IsSpotFor, GoesOn};
ghost use Rattle.back_scan.specs.Windows.{AreOpen, AreKept};
ghost use Rattle.back_scan.specs.declared.spot.Wish.TheVariants.{InSlot};

use crate::choosing::{free_register, is_free, later};
use crate::entries::Entry;
use crate::leaving::Leaving;
use crate::spot::{Hint, HintList, Spot, Wish, WishList};
use crate::windows::{Window, add, cleared, register_open};
use back_liveness::{Interval, IntervalList, PartLists};
use base::NoMemory;
use std::alloc::Global;
use std::mem;

/// The scan goes on with the register of an entry, which has its spot then.
pub fn place_entry(
    alloc: Global,
    intervals: &IntervalList,
    parts: &PartLists,
    wishes: &WishList,
    hints: &HintList,
    entry: Entry,
    spots: &mut [Option<Spot>],
    taken: &mut Vec<Option<usize>>,
    windows: &mut Vec<Window>,
    leaving: &mut Leaving,
) -> Result<(), NoMemory>
    requires entry { IsEntry intervals.now entry }
    requires inside { (v x : ℕ) → is_held parts.now v x ≡ true → IsCovered intervals.now v x }
    requires there { entry.register < length spots.old }
    requires wishes { length wishes.now ≡ length spots.old }
    requires room { 14 ≤ length taken.old.items }
    requires scanned { Scanned intervals.now parts.now wishes.now spots.old taken.old.items entry.interval.from }
    requires clear { AreOpen parts.now spots.old windows.old.items }
    ensures { OnOk result (GoesOn intervals.now parts.now wishes.now entry.register entry.interval.from spots.old spots.new taken.old.items taken.new.items
        windows.new.items) }
{
    match spots[entry.register] {
        Some(_) => Ok(()),
        None => {
            let own = parts_at(parts, entry.register);
            let found = spot_for(
                spots,
                windows.as_slice(),
                wish_of(wishes, entry.register),
                first_for(spots, hints, entry.register),
                own,
                entry.interval.from,
                taken,
                leaving,
            )?;
            stand(spots, taken, entry, found.spot);
            keep_windows(alloc, windows, found, own, entry.interval)?;
            Ok(())
        }
    }
}

// The parts of a register.
fn parts_at(parts: &PartLists, register: usize) -> &[Interval]
    ensures { result.now ≡ slice_index_or parts.now register [] }
{
    match parts.get(register) {
        Some(own) => own.as_slice(),
        None => &[],
    }
}

// A spot for a register, and whether all else in it has ended.
#[derive(Clone, Copy)]
pub(crate) struct Found {
    pub spot: Spot,
    pub is_ended: bool,
}

// A spot for a register with these parts whose interval begins at the line.
fn spot_for(
    spots: &[Option<Spot>],
    windows: &[Window],
    wish: Wish,
    first: Option<usize>,
    own: &[Interval],
    line: usize,
    taken: &mut Vec<Option<usize>>,
    leaving: &mut Leaving,
) -> Result<Found, NoMemory>
    requires { 14 ≤ length taken.old.items }
    ensures found { IfOk result (λ found. IsSpotFor wish taken.new.items windows.now own.now line found.is_ended found.spot) }
    ensures same { IsSame taken.old.items taken.new.items }
{
    match register_open(windows, wish, first, own) {
        Some(number) => Ok(Found {
            spot: Spot::Held(number),
            is_ended: false,
        }),
        None => {
            let spot = choose(spots, wish, first, line, taken, leaving)?;
            Ok(Found {
                spot,
                is_ended: true,
            })
        }
    }
}

// The windows when a register with these parts and this interval has come to its spot.
fn keep_windows(
    alloc: Global,
    windows: &mut Vec<Window>,
    found: Found,
    own: &[Interval],
    interval: Interval,
) -> Result<(), NoMemory>
    ensures { OnOk result (AreKept windows.old.items windows.new.items found.spot found.is_ended own.now interval.from) }
{
    match found.spot {
        Spot::Slot(_) => Ok(()),
        Spot::Held(number) => {
            if found.is_ended {
                let window = Window {
                    number,
                    from: interval.from,
                    to: interval.to,
                };
                add(windows, window, interval.from)?;
            }
            let kept = mem::replace(windows, Vec::new(alloc));
            *windows = cleared(alloc, kept, number, own, interval.from)?;
            Ok(())
        }
    }
}

// What a register asks.
fn wish_of(wishes: &WishList, register: usize) -> Wish
    ensures { result ≡ slice_index_or wishes.now register InSlot }
{
    match wishes.get(register) {
        Some(wish) => *wish,
        None => Wish::InSlot,
    }
}

// The value register that is tried first for a register.
fn first_for(spots: &[Option<Spot>], hints: &HintList, register: usize) -> Option<usize> {
    match hints.get(register) {
        Some(Hint::Held(number)) => Some(*number),
        Some(Hint::With(other)) => held_by(spots, *other),
        Some(Hint::Nothing) => None,
        None => None,
    }
}

// The value register in which a register stands, if it has one by now.
fn held_by(spots: &[Option<Spot>], register: usize) -> Option<usize> {
    if register < spots.len() {
        let spot = spots[register];
        match spot {
            Some(Spot::Held(number)) => Some(number),
            _ => None,
        }
    } else {
        None
    }
}

// The register stands there from now on, and its place is taken up to the end of its interval.
fn stand(spots: &mut [Option<Spot>], taken: &mut Vec<Option<usize>>, entry: Entry, spot: Spot)
    requires there { entry.register < length spots.old }
    requires known { rank spot < length taken.old.items }
    ensures spots { spots.new ≡ slice_set spots.old entry.register (Some spot) }
    ensures taken { (last : ℕ) × (taken.new.items ≡ slice_set taken.old.items (rank spot) (Some last)) × IsLater (taken_of taken.old.items (rank spot)) entry.interval.to last }
{
    let place = rank(spot);
    let last = later(taken[place], entry.interval.to);
    taken[place] = Some(last);
    spots[entry.register] = Some(spot);
}

// The number of a spot among all places.
fn rank(spot: Spot) -> usize
    requires { rank spot < 2 ^ 64 }
    ensures { result ≡ rank spot }
{
    match spot {
        Spot::Held(r) => r,
        Spot::Slot(k) => 14 + k,
    }
}

// A spot for an interval that begins at the line.
fn choose(
    spots: &[Option<Spot>],
    wish: Wish,
    first: Option<usize>,
    line: usize,
    taken: &mut Vec<Option<usize>>,
    leaving: &mut Leaving,
) -> Result<Spot, NoMemory>
    requires { 14 ≤ length taken.old.items }
    ensures chosen { IfOk result (λ p. IsChosen wish taken.new.items line p) }
    ensures same { IsSame taken.old.items taken.new.items }
{
    match free_register(taken.as_slice(), wish, first, line) {
        Some(r) => Ok(Spot::Held(r)),
        None => {
            let slot = free_slot(taken, leaving.slot_before(spots, line)?, line)?;
            Ok(Spot::Slot(slot))
        }
    }
}

// A slot that is free from the line on: that one, or a new one.
fn free_slot(
    taken: &mut Vec<Option<usize>>,
    returned: Option<usize>,
    line: usize,
) -> Result<usize, NoMemory>
    requires { 14 ≤ length taken.old.items }
    ensures known { IfOk result (λ k. 14 + k < length taken.new.items) }
    ensures free { IfOk result (λ k. IsFree (taken_of taken.new.items (14 + k)) line) }
    ensures same { IsSame taken.old.items taken.new.items }
{
    match returned {
        Some(slot) => {
            if is_free_slot(taken.as_slice(), slot, line) {
                Ok(slot)
            } else {
                new_slot(taken)
            }
        }
        None => new_slot(taken),
    }
}

fn is_free_slot(taken: &[Option<usize>], slot: usize, line: usize) -> bool
    ensures { result ≡ true → (14 + slot < length taken.now) × IsFree (taken_of taken.now (14 + slot)) line }
{
    slot < taken.len() && 14 + slot < taken.len() && is_free(taken[14 + slot], line)
}

// A slot that nothing has been in.
fn new_slot(taken: &mut Vec<Option<usize>>) -> Result<usize, NoMemory>
    requires { 14 ≤ length taken.old.items }
    ensures known { IfOk result (λ k. 14 + k < length taken.new.items) }
    ensures fresh { IfOk result (λ k. taken_of taken.new.items (14 + k) ≡ None) }
    ensures same { IsSame taken.old.items taken.new.items }
{
    let slot = taken.len() - 14;
    taken.push(None)?;
    Ok(slot)
}
