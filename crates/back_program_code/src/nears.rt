// Which jumps are near.

ghost use Rattle.std.specs.Prelude.{◌≡◌, ◌+◌, ◌^◌, ◌<◌, length, slice_index, IfOk};
ghost use Rattle.mid_lines.specs.declared.line.Line.TheVariants.{Do};
ghost use Rattle.back_emit.specs.Fits.{FitsLine};
ghost use Rattle.back_emit.specs.PlacedNear.{placed_is_near};
ghost use Rattle.back_program_code.specs.Shapes.{first_position, shape_words, shape_nears, all_lefts, all_entries, all_nears, code_end, FitsShape, EachShapeFits, AreLow};

use crate::entries::body_position;
use crate::front::Front;
use crate::lefts::{LeftTable, NearTable};
use crate::shapes::{Shape, ShapeList, sizing_of};
use back_allocation::PlaceList;
use back_emit::nearness::{is_near_branch, is_near_jump, passed_length, tested_length};
use back_emit::placing::{EntryList, entry_position, placed_spot};
use back_emit::sizes::{LeftList, NearList};
use back_emit::{CodeList, Spot};
use base::NoMemory;
use mid_code::{Callee, Operation, RegisterList, Test};
use mid_lines::Line;
use std::alloc::Global;

/// Whether the jump of a line is near, from its spot.
pub fn line_is_near(
    scratch: &mut CodeList,
    spot: &Spot,
    places: &PlaceList,
    line: &Line,
) -> Result<bool, NoMemory>
    requires { FitsLine spot.now places.now line.now }
    ensures { IfOk result (λ near. near ≡ placed_is_near places.now spot.now line.now) }
{
    match line {
        Line::Do(operation) => operation_is_near(scratch, spot, places, operation),
        Line::Branch { test, .. } => {
            let read = tested_length(scratch, spot, places, test.first, test.second)?;
            Ok(read < 33_554_432 && is_near_branch(spot.at as usize + read, spot.to as usize))
        }
        Line::Switch { .. } => Ok(false),
        Line::Jump(_) => Ok(is_near_jump(spot.at as usize, spot.to as usize)),
        Line::Lay { .. } => Ok(false),
        Line::Landed(_) => Ok(false),
        Line::GiveBack(_) => Ok(false),
        Line::Lend { .. } => Ok(false),
        Line::GiveBackLent => Ok(false),
        Line::Return(_) => Ok(false),
        Line::Cut { .. } => Ok(false),
        Line::Halt(_) => Ok(false),
        Line::Unhandled { .. } => Ok(false),
    }
}

fn operation_is_near(
    scratch: &mut CodeList,
    spot: &Spot,
    places: &PlaceList,
    operation: &Operation,
) -> Result<bool, NoMemory>
    requires { FitsLine spot.now places.now (Do operation.now) }
    ensures { IfOk result (λ near. near ≡ placed_is_near places.now spot.now (Do operation.now)) }
{
    match operation {
        Operation::Call {
            callee,
            arguments,
            ..
        } => match callee {
            Callee::Procedure(number) => {
                let passed = passed_length(scratch, spot, places, *number, arguments)?;
                Ok(passed < 33_554_432 && is_near_jump(spot.at as usize + passed, spot.to as usize))
            }
            Callee::Word(_) => Ok(false),
        },
        Operation::Move { .. } => Ok(false),
        Operation::Constant { .. } => Ok(false),
        Operation::Compute { .. } => Ok(false),
        Operation::Load { .. } => Ok(false),
        Operation::Store { .. } => Ok(false),
        Operation::Request { .. } => Ok(false),
        Operation::Draw { .. } => Ok(false),
        Operation::Put { .. } => Ok(false),
        Operation::Get { .. } => Ok(false),
    }
}

/// Which jumps of a procedure are near, where what is left was counted with none that is.
pub fn shape_nears(
    alloc: Global,
    front: Front,
    entries: &EntryList,
    at: u32,
    lefts: &LeftList,
    shape: &Shape,
) -> Result<NearList, NoMemory>
    requires { FitsShape front shape.now × (at + shape_words front lefts.now shape.now < 2 ^ 24) × AreLow entries.now }
    ensures { IfOk result (λ nears. nears ≡ shape_nears front entries.now at lefts.now shape.now) }
{
    let mut nears = NearList::new(alloc);
    let none = NearList::new(alloc);
    let mut scratch = CodeList::new(alloc);
    let body = body_position(&mut scratch, front, at, lefts, shape)?;
    let sizing = sizing_of(front, shape);
    let count = shape.chosen.lines.as_slice().len();
    for i in 0..count {
        let Some(line) = shape.chosen.lines.get(i) else {
            unreachable!()
        };
        let spot = placed_spot(sizing, &shape.ways, &none, lefts, entries, body, i, 0, line);
        nears.push(line_is_near(&mut scratch, &spot, &shape.chosen.places, line)?)?;
    }
    Ok(nears)
}

/// Which jumps are near, in all procedures.
pub fn all_nears(
    alloc: Global,
    front: Front,
    lefts: &LeftTable,
    entries: &EntryList,
    shapes: &ShapeList,
) -> Result<NearTable, NoMemory>
    requires { EachShapeFits front shapes.now × (length lefts.now ≡ length shapes.now) × (entries.now ≡ all_entries front lefts.now shapes.now)
        × (code_end front lefts.now shapes.now < 2 ^ 24) }
    ensures { IfOk result (λ nears. nears ≡ all_nears front lefts.now entries.now shapes.now) }
{
    let mut nears = NearTable::new(alloc);
    for number in 0..shapes.len() {
        let Some(shape) = shapes.get(number) else {
            unreachable!()
        };
        let Some(left) = lefts.get(number) else {
            unreachable!()
        };
        let at = entry_position(entries, number);
        nears.push(shape_nears(alloc, front, entries, at, left, shape)?)?;
    }
    Ok(nears)
}
