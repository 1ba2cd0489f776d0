// How many words entries, procedures, and all lines have.

ghost use Rattle.std.specs.Prelude.{◌≡◌, ◌+◌, ◌^◌, ◌<◌, ◌≤◌, [], length, slice_get, slice_index, IfOk, IfErr, OnOk, ◌++◌};
ghost use Rattle.back_emit.specs.declared.errors.EmitError.TheVariants.{TooLarge};
ghost use Rattle.back_layout.specs.Sizes.{all_targets, switch_targets};
ghost use Rattle.back_emit.specs.PlacedCode.{placed_entry};
ghost use Rattle.back_program_code.specs.Shapes.{listed, full_position, entry_words, shape_lefts, shape_words, all_lefts, code_end, sizing_of, FitsShape, EachShapeFits};

use crate::front::Front;
use crate::shapes::{Shape, ShapeList, sizing_of};
use back_emit::blocks::put_room;
use back_emit::operands::put_access;
use back_emit::passing::put_parameters;
use back_emit::sizes::{LeftList, NearList, left_at, rests_of};
use back_emit::ways::Access;
use back_emit::{CodeList, EmitError};
use base::{ItemList, NoMemory};
use mid_lines::{Line, LineList};
use rv_encode::Immediate12;
use std::alloc::Global;

/// Which jumps are near, procedure by procedure.
pub type NearTable = ItemList<NearList>;

/// How many words are left from each line on, procedure by procedure.
pub type LeftTable = ItemList<LeftList>;

/// Appends the entry of a procedure, at a position.
pub fn put_entry(code: &mut CodeList, front: Front, at: u32, shape: &Shape) -> Result<(), NoMemory>
    requires { FitsShape front shape.now × (at < 2 ^ 24) }
    ensures { OnOk result (code.new ≡ code.old ++ placed_entry (full_position front) front.arguments_at at shape.now.procedure.frame shape.now.chosen.parameters) }
{
    put_room(code, front.start_at + 5, at, shape.procedure.frame)?;
    put_access(code, Access::StoreFrom(1), 2, Immediate12::of(0))?;
    put_parameters(code, front.arguments_at, &shape.chosen.parameters)
}

/// How many words an entry has. The list is for instructions that are only counted.
pub fn entry_words(scratch: &mut CodeList, front: Front, shape: &Shape) -> Result<usize, NoMemory>
    requires { FitsShape front shape.now }
    ensures { IfOk result (λ words. words ≡ entry_words front shape.now) }
{
    scratch.cut(0);
    put_entry(scratch, front, 0, shape)?;
    Ok(scratch.len())
}

/// How many lines a line's switch goes to.
pub fn target_count(line: &Line) -> usize
    ensures { result ≡ length (switch_targets line.now) }
{
    if let Line::Switch { targets, .. } = line {
        targets.len()
    } else {
        0
    }
}

/// How many words the tables of all switches among lines have. It is too large where these are 2^24 or more.
pub fn table_words(lines: &LineList) -> Result<usize, EmitError>
    ensures ok { IfOk result (λ words. (words ≡ length (all_targets lines.now)) × (words < 2 ^ 24)) }
    ensures err { IfErr result (λ e. 2 ^ 24 ≤ length (all_targets lines.now)) }
{
    let mut words = 0;
    for i in 0..lines.len() {
        let Some(line) = lines.get(i) else {
            unreachable!()
        };
        let more = target_count(line);
        if 16_777_216 <= more {
            return Err(EmitError::TooLarge);
        }
        if 16_777_216 <= words + more {
            return Err(EmitError::TooLarge);
        }
        words += more;
    }
    Ok(words)
}

/// How many words a procedure has. It is too large where one of its parts has 2^24 words or more.
pub fn shape_words(
    scratch: &mut CodeList,
    front: Front,
    lefts: &LeftList,
    shape: &Shape,
) -> Result<usize, EmitError>
    requires { FitsShape front shape.now }
    ensures ok { IfOk result (λ words. (words ≡ shape_words front lefts.now shape.now) × (words < 2 ^ 26)) }
    ensures err { IfErr result (λ e. e ≡ TooLarge → 2 ^ 24 ≤ shape_words front lefts.now shape.now) }
{
    let entry = entry_words(scratch, front, shape)?;
    let left = left_at(lefts, 0);
    if 16_777_216 <= entry {
        return Err(EmitError::TooLarge);
    }
    if 16_777_216 <= left {
        return Err(EmitError::TooLarge);
    }
    let tables = table_words(&shape.chosen.lines)?;
    Ok(entry + left + tables)
}

/// How many words are left from each line of a procedure on, where these jumps are near.
pub fn shape_lefts(
    alloc: Global,
    front: Front,
    nears: &NearList,
    shape: &Shape,
) -> Result<LeftList, EmitError>
    requires { FitsShape front shape.now }
    ensures ok { IfOk result (λ lefts. lefts ≡ shape_lefts front nears.now shape.now) }
    ensures err { IfErr result (λ e. e ≡ TooLarge → 2 ^ 24 ≤ slice_index (shape_lefts front nears.now shape.now) 0) }
{
    let sizing = sizing_of(front, shape);
    let _count = shape.chosen.lines.as_slice().len();
    rests_of(
        alloc,
        &shape.chosen.places,
        sizing,
        &shape.ways,
        nears,
        &shape.chosen.lines,
    )
}

fn numbered_lefts(
    alloc: Global,
    front: Front,
    nears: &NearTable,
    number: usize,
    shape: &Shape,
) -> Result<LeftList, EmitError>
    requires { FitsShape front shape.now }
    ensures ok { IfOk result (λ lefts. lefts ≡ shape_lefts front (listed (slice_get nears.now number)) shape.now) }
    ensures err { IfErr result (λ e. e ≡ TooLarge → 2 ^ 24 ≤ slice_index (shape_lefts front (listed (slice_get nears.now number)) shape.now) 0) }
{
    match nears.get(number) {
        Some(list) => shape_lefts(alloc, front, list, shape),
        None => {
            let none = NearList::new(alloc);
            shape_lefts(alloc, front, &none, shape)
        }
    }
}

/// How many words are left from each line on, in all procedures.
pub fn all_lefts(
    alloc: Global,
    front: Front,
    nears: &NearTable,
    shapes: &ShapeList,
) -> Result<LeftTable, EmitError>
    requires { EachShapeFits front shapes.now }
    ensures is { IfOk result (λ lefts. lefts ≡ all_lefts front nears.now shapes.now) }
    ensures long { IfOk result (λ lefts. length lefts ≡ length shapes.now) }
    ensures err { IfErr result (λ e. e ≡ TooLarge → 2 ^ 24 ≤ code_end front (all_lefts front nears.now shapes.now) shapes.now) }
{
    let mut lefts = LeftTable::new(alloc);
    for number in 0..shapes.len() {
        let Some(shape) = shapes.get(number) else {
            unreachable!()
        };
        lefts.push(numbered_lefts(alloc, front, nears, number, shape)?)?;
    }
    Ok(lefts)
}
