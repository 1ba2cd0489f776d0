// How many words are left from each line on, counted once, from the last line to the first.

ghost use Rattle.std.specs.Prelude.{◌≡◌, ◌+◌, ◌^◌, ◌<◌, ◌≤◌, length, drop, slice_index, replicate, IfOk, IfErr};
ghost use Rattle.back_emit.specs.declared.errors.EmitError.TheVariants.{TooLarge};
ghost use Rattle.mid_lines.specs.declared.line.Line.TheVariants.{Jump};
ghost use Rattle.back_layout.specs.Sizes.{jump_size, goes_over_nothing};
ghost use Rattle.back_emit.specs.PlacedCode.{placed_line, placed_behind};
ghost use Rattle.back_emit.specs.Fits.{FitsLine};
ghost use Rattle.back_emit.specs.PlacedSizes.{way_in, near_in, sizing_spot, placed_line_size, placed_rests, EachFits};
ghost use Rattle.std.specs.Prelude.{slice_get};

use crate::code_of_lines::{put_behind, put_line};
use crate::errors::EmitError;
use crate::operands::CodeList;
use crate::spots::{Sizing, Spot};
use crate::walking::WayList;
use crate::ways::FrameWay;
use back_allocation::PlaceList;
use base::{ItemList, NoMemory};
use mid_lines::{Line, LineList};
use std::alloc::Global;

/// Whether jumps are near, line by line.
pub type NearList = ItemList<bool>;

/// Numbers of words that are left, line by line, and none behind the last.
pub type LeftList = ItemList<usize>;

/// The way at a line; none where it is not there.
pub fn way_at(ways: &WayList, line: usize) -> FrameWay
    ensures { result ≡ way_in (slice_get ways.now line) }
{
    match ways.get(line) {
        Some(way) => *way,
        None => FrameWay::NoWay,
    }
}

/// Whether the jump at a line is near; not where the line is not there.
pub fn near_at(nears: &NearList, line: usize) -> bool
    ensures { result ≡ near_in (slice_get nears.now line) }
{
    match nears.get(line) {
        Some(near) => *near,
        None => false,
    }
}

/// How many words are left from a line on; none where it is not there.
pub fn left_at(lefts: &LeftList, line: usize) -> usize
    ensures { result ≡ slice_index lefts.now line }
{
    match lefts.get(line) {
        Some(left) => *left,
        None => 0,
    }
}

/// The spot of a line with no positions yet.
pub fn sizing_spot(sizing: Sizing, ways: &WayList, nears: &NearList, line: usize) -> Spot
    requires { line < 2 ^ 63 }
    ensures { result ≡ sizing_spot sizing ways.now nears.now line }
{
    Spot {
        line,
        way: way_at(ways, line),
        next_way: way_at(ways, line + 1),
        frame: sizing.frame,
        near: near_at(nears, line),
        at: 0,
        next: 0,
        to: 0,
        table: 0,
        arguments_at: sizing.arguments_at,
        procedures_at: sizing.procedures_at,
        full_at: sizing.full_at,
    }
}

/// The words of a line from its spot, with what stands behind it. The list is for instructions that are only counted.
pub fn words_of_line(
    scratch: &mut CodeList,
    spot: &Spot,
    places: &PlaceList,
    line: &Line,
) -> Result<usize, EmitError>
    requires { FitsLine spot.now places.now line.now }
    ensures ok { IfOk result (λ words. words ≡ length (placed_line places.now spot.now line.now) + length (placed_behind places.now spot.now line.now)) }
    ensures err { IfErr result (λ e. e ≡ TooLarge → 2 ^ 24 ≤ length (placed_line places.now spot.now line.now)) }
{
    scratch.cut(0);
    put_line(scratch, spot, places, line)?;
    put_behind(scratch, spot, places, line)?;
    Ok(scratch.len())
}

/// The words of a jump.
pub fn words_of_jump(lefts: &LeftList, line: usize, to: usize, near: bool) -> usize
    requires { line < 2 ^ 63 }
    ensures is { result ≡ jump_size (goes_over_nothing line to (drop (line + 1) lefts.now)) near }
    ensures few { result ≤ 2 }
{
    let silent = line < to && left_at(lefts, to) == left_at(lefts, line + 1);
    if silent { 0 } else { if near { 1 } else { 2 } }
}

/// The words of a line, where these are left from each later line on.
pub fn size_of_line(
    scratch: &mut CodeList,
    places: &PlaceList,
    sizing: Sizing,
    ways: &WayList,
    nears: &NearList,
    lefts: &LeftList,
    at: usize,
    line: &Line,
) -> Result<usize, EmitError>
    requires { (at < 2 ^ 63) × FitsLine (sizing_spot sizing ways.now nears.now at) places.now line.now }
    ensures ok { IfOk result (λ words. words ≡ placed_line_size places.now sizing ways.now nears.now at line.now (drop (at + 1) lefts.now)) }
    ensures err { IfErr result (λ e. e ≡ TooLarge → 2 ^ 24 ≤ placed_line_size places.now sizing ways.now nears.now at line.now (drop (at + 1) lefts.now)) }
{
    if let Line::Jump(to) = line {
        Ok(words_of_jump(lefts, at, *to, near_at(nears, at)))
    } else {
        let spot = sizing_spot(sizing, ways, nears, at);
        words_of_line(scratch, &spot, places, line)
    }
}

/// As many zeros as there are lines, and one more.
pub fn zeros_for(alloc: Global, lines: &LineList) -> Result<LeftList, NoMemory>
    ensures { IfOk result (λ zeros. zeros ≡ replicate (length lines.now + 1) 0) }
{
    let mut zeros = LeftList::new(alloc);
    zeros.push(0)?;
    for _line in lines.as_slice() {
        zeros.push(0)?;
    }
    Ok(zeros)
}

/// Counts what is left from each line on. It is too large where that is 2^24 words or more.
pub fn rests_of(
    alloc: Global,
    places: &PlaceList,
    sizing: Sizing,
    ways: &WayList,
    nears: &NearList,
    lines: &LineList,
) -> Result<LeftList, EmitError>
    requires { (length lines.now < 2 ^ 63) × EachFits places.now sizing ways.now nears.now lines.now }
    ensures ok { IfOk result (λ lefts. lefts ≡ placed_rests places.now sizing ways.now nears.now 0 lines.now) }
    ensures err { IfErr result (λ e. e ≡ TooLarge → 2 ^ 24 ≤ slice_index (placed_rests places.now sizing ways.now nears.now 0 lines.now) 0) }
{
    let mut lefts = zeros_for(alloc, lines)?;
    let mut scratch = CodeList::new(alloc);
    let count = lines.len();
    for k in 0..count {
        let at = count - 1 - k;
        let Some(line) = lines.get(at) else {
            unreachable!()
        };
        let words = size_of_line(&mut scratch, places, sizing, ways, nears, &lefts, at, line)?;
        if 16_777_216 <= words {
            return Err(EmitError::TooLarge);
        }
        let left = left_at(&lefts, at + 1);
        if 16_777_216 <= left {
            return Err(EmitError::TooLarge);
        }
        lefts.replace(at, left + words);
    }
    Ok(lefts)
}
