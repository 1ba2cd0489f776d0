// The procedures of a program as lines, with the ways to the frame, and with the places that are chosen for their registers.

ghost use Rattle.std.specs.Prelude.{◌≡◌, ◌+◌, ◌^◌, ◌<◌, nat_lt, true, false, IfOk, IfErr};
ghost use Rattle.std.specs.List.{list_all};
ghost use Rattle.mid_code.specs.Checked.{is_checked_program};
ghost use Rattle.mid_lines.specs.Flattened.{procedure_lines};
ghost use Rattle.back_trivial.specs.FrameFound.{procedure_finds, finds_frames};
ghost use Rattle.back_allocation.specs.ProgramPlaces.{FitsProcedure};
ghost use Rattle.back_program_code.specs.declared.errors.ImageError.TheVariants as image;
ghost use Rattle.back_program_code.specs.TooLarge.{is_deep_procedure, has_deep_records};
ghost use Rattle.back_program_code.specs.Shapes.{sizing_of, is_near_way};
ghost use Rattle.back_program_code.specs.ShapesMade.{IsShapeOf, AreShapesOf, HasRegisters};

use crate::errors::ImageError;
use crate::front::Front;
use back_allocation::{RegisterPlaces, place_registers};
use back_emit::FrameWay;
use back_emit::finding::procedure_finds;
use back_emit::spots::Sizing;
use back_emit::walking::{WayList, ways_of};
use base::ItemList;
use mid_code::{MidProcedure, MidProgram};
use mid_lines::{LineProcedure, lines_of};
use std::alloc::Global;

/// A procedure as lines, the ways to the frame at each of them and behind the last, and the places that are chosen for its registers.
#[derive(Drop)]
pub struct Shape {
    pub procedure: LineProcedure,
    pub ways: WayList,
    pub chosen: RegisterPlaces,
}

/// Procedures, by their numbers from 0.
pub type ShapeList = ItemList<Shape>;

/// The procedures of a program, with places that fit it. `FrameNotFound`: at some line the frame of a procedure is not found. `TooLarge`: records have
/// 2^29 words or more, one inside the other.
pub fn shapes_of(alloc: Global, program: &MidProgram) -> Result<ShapeList, ImageError>
    requires { is_checked_program program.now ≡ true }
    ensures ok { IfOk result (λ shapes. AreShapesOf program.now.procedures shapes) }
    ensures large { IfErr result (λ e. e ≡ image.TooLarge → has_deep_records program.now ≡ true) }
    ensures not_found { IfErr result (λ e. e ≡ image.FrameNotFound → finds_frames program.now ≡ false) }
{
    let mut shapes = ShapeList::new(alloc);
    for procedure in program.procedures.as_slice() {
        shapes.push(shape_of(alloc, procedure)?)?;
    }
    Ok(shapes)
}

/// A procedure as lines, with the ways, and with places that fit it.
pub fn shape_of(alloc: Global, procedure: &MidProcedure) -> Result<Shape, ImageError>
    requires { HasRegisters (procedure_lines procedure.now) }
    ensures ok { IfOk result (λ shape. IsShapeOf procedure.now shape) }
    ensures large { IfErr result (λ e. e ≡ image.TooLarge → is_deep_procedure procedure.now ≡ true) }
    ensures not_found { IfErr result (λ e. e ≡ image.FrameNotFound → procedure_finds procedure.now ≡ false) }
{
    let mut ways = ways_of(alloc, &procedure.body)?;
    ways.push(FrameWay::FromStack(0))?;
    let lines = lines_of(alloc, procedure)?;
    let chosen = places_of(alloc, procedure, &lines)?;
    Ok(Shape {
        procedure: lines,
        ways,
        chosen,
    })
}

// Places for the registers of a procedure, which has these lines; with them its frame is found.
fn places_of(
    alloc: Global,
    procedure: &MidProcedure,
    lines: &LineProcedure,
) -> Result<RegisterPlaces, ImageError>
    requires { (lines.now ≡ procedure_lines procedure.now) × HasRegisters (procedure_lines procedure.now) }
    ensures ok { IfOk result (λ chosen. FitsProcedure procedure.now chosen) }
    ensures large { IfErr result (λ e. e ≡ image.TooLarge → is_deep_procedure procedure.now ≡ true) }
    ensures not_found { IfErr result (λ e. e ≡ image.FrameNotFound → procedure_finds procedure.now ≡ false) }
{
    let Some(chosen) = place_registers(alloc, lines)? else {
        return Err(ImageError::FrameNotFound);
    };
    let finds = procedure_finds(procedure, chosen.slots as usize)?;
    if finds {
        Ok(chosen)
    } else {
        drop(chosen);
        Err(ImageError::FrameNotFound)
    }
}

/// Whether each way reaches all slots, so that offsets are words.
pub fn are_near_ways(slots: u32, frame: u32, ways: &WayList) -> bool
    ensures { result ≡ list_all (is_near_way slots frame) ways.now }
{
    for way in ways.as_slice() {
        if !is_near_way(slots, frame, *way) {
            return false;
        }
    }
    true
}

/// Whether a way reaches all slots, so that offsets are words.
pub fn is_near_way(slots: u32, frame: u32, way: FrameWay) -> bool
    ensures { result ≡ is_near_way slots frame way }
{
    match way {
        FrameWay::FromStack(depth) => {
            is_sum_below(depth, slots, 1_073_741_824) && is_sum_below(depth, frame, 1_073_741_824)
        }
        FrameWay::PastLent(depth) => {
            is_sum_below(depth, slots, 1024) && is_sum_below(depth, frame, 1_073_741_824)
        }
        FrameWay::NoWay => frame < 1_073_741_824,
    }
}

fn is_sum_below(depth: u32, words: u32, limit: u64) -> bool
    ensures { result ≡ nat_lt (depth + words) limit }
{
    u64::from(depth) + u64::from(words) < limit
}

/// What is the same for all lines of a procedure.
pub fn sizing_of(front: Front, shape: &Shape) -> Sizing
    requires { front.start_at + 11 < 2 ^ 24 }
    ensures { result ≡ sizing_of front shape.now }
{
    Sizing {
        slots: shape.chosen.slots,
        frame: shape.procedure.frame,
        arguments_at: front.arguments_at,
        procedures_at: front.procedures_at,
        full_at: front.start_at + 5,
    }
}
