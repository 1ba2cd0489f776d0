// The spots of lines with their positions, which are known from what is left.

ghost use Rattle.std.specs.Prelude.{◌≡◌, ◌+◌, ◌^◌, ◌<◌, ℕ, slice_get, slice_index};
ghost use Rattle.back_emit.specs.PlacedSizes.{sizing_spot};
ghost use Rattle.back_emit.specs.PlacedLines.{line_position, callee_position, operation_goes, line_goes, placed_spot};

use crate::sizes::{LeftList, NearList, left_at, sizing_spot};
use crate::spots::{Sizing, Spot};
use crate::walking::WayList;
use base::ItemList;
use mid_code::{Callee, Operation};
use mid_lines::Line;

/// Positions of entries, by the numbers of procedures.
pub type EntryList = ItemList<u32>;

/// The position of a line, in a body at a position.
pub fn line_position(lefts: &LeftList, body: u32, line: usize) -> u32
    requires { body + slice_index lefts.now 0 < 2 ^ 24 }
    ensures is { result ≡ line_position lefts.now body line }
    ensures low { result < 2 ^ 24 }
{
    let behind = left_at(lefts, 0).saturating_sub(left_at(lefts, line));
    body + behind as u32
}

/// The position of an entry; 0 where the procedure is not there.
pub fn entry_position(entries: &EntryList, number: usize) -> u32
    ensures { result ≡ slice_index entries.now number }
{
    match entries.get(number) {
        Some(entry) => *entry,
        None => 0,
    }
}

/// Where an operation jumps.
pub fn operation_goes(entries: &EntryList, operation: &Operation) -> u32
    ensures { result ≡ operation_goes entries.now operation.now }
{
    match operation {
        Operation::Call { callee, .. } => callee_position(entries, *callee),
        Operation::Move { .. } => 0,
        Operation::Constant { .. } => 0,
        Operation::Compute { .. } => 0,
        Operation::Load { .. } => 0,
        Operation::Store { .. } => 0,
        Operation::Request { .. } => 0,
        Operation::Draw { .. } => 0,
        Operation::Put { .. } => 0,
        Operation::Get { .. } => 0,
    }
}

fn callee_position(entries: &EntryList, callee: Callee) -> u32
    ensures { result ≡ callee_position entries.now callee }
{
    match callee {
        Callee::Procedure(number) => entry_position(entries, number),
        Callee::Word(_) => 0,
    }
}

/// Where a line jumps, or its landing.
pub fn line_goes(lefts: &LeftList, entries: &EntryList, body: u32, line: &Line) -> u32
    requires { body + slice_index lefts.now 0 < 2 ^ 24 }
    ensures { result ≡ line_goes lefts.now entries.now body line.now }
{
    match line {
        Line::Do(operation) => operation_goes(entries, operation),
        Line::Branch { otherwise, .. } => line_position(lefts, body, *otherwise),
        Line::Switch { .. } => 0,
        Line::Jump(to) => line_position(lefts, body, *to),
        Line::Lay { landing, .. } => line_position(lefts, body, *landing),
        Line::Landed(_) => 0,
        Line::GiveBack(_) => 0,
        Line::Lend { .. } => 0,
        Line::GiveBackLent => 0,
        Line::Return(_) => 0,
        Line::Cut { .. } => 0,
        Line::Halt(_) => 0,
        Line::Unhandled { .. } => 0,
    }
}

/// The spot of a line with its positions, and that of its table.
pub fn placed_spot(
    sizing: Sizing,
    ways: &WayList,
    nears: &NearList,
    lefts: &LeftList,
    entries: &EntryList,
    body: u32,
    at: usize,
    table: u32,
    line: &Line,
) -> Spot
    requires { (at < 2 ^ 63) × (body + slice_index lefts.now 0 < 2 ^ 24) }
    ensures { result ≡ placed_spot sizing ways.now nears.now lefts.now entries.now body at table line.now }
{
    let mut spot = sizing_spot(sizing, ways, nears, at);
    spot.at = line_position(lefts, body, at);
    spot.next = line_position(lefts, body, at + 1);
    spot.to = line_goes(lefts, entries, body, line);
    spot.table = table;
    spot
}
