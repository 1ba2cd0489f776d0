// What is found of a program before its words are made.

ghost use Rattle.std.specs.Prelude.{◌≡◌, ◌+◌, ◌^◌, ◌<◌, ◌≤◌, ◌⊎◌, true, false, IfOk, IfErr};
ghost use Rattle.std.specs.List.{list_all};
ghost use Rattle.mid_code.specs.Checked.{is_checked_program};
ghost use Rattle.back_trivial.specs.FrameFound.{finds_frames};
ghost use Rattle.back_program_code.specs.Shapes.{shapes_of, chosen_in, front_of, first_position, is_near_shape, EachShapeFits};
ghost use Rattle.back_emit.specs.declared.errors.EmitError.TheVariants.{TooLarge};
ghost use Rattle.back_program_code.specs.declared.errors.ImageError.TheVariants as image;
ghost use Rattle.back_program_code.specs.TooLarge.{far_end, IsTooLarge};
ghost use Rattle.back_allocation.specs.ProgramPlaces.{PlacesFit};
ghost use Rattle.back_program_code.specs.Made.{IsPlan};

use crate::entries::all_entries;
use crate::errors::ImageError;
use crate::front::{Front, front_of};
use crate::lefts::{LeftTable, NearTable, all_lefts};
use crate::nears::all_nears;
use crate::shapes::{ShapeList, are_near_ways, shapes_of};
use back_emit::EmitError;
use back_emit::placing::EntryList;
use mid_code::MidProgram;
use std::alloc::Global;

/// The procedures of a program as lines with the places of their registers, what stands in front of them, which jumps are near, how many words are left from each line on, and the
/// positions of entries.
#[derive(Drop)]
pub struct Plan {
    pub shapes: ShapeList,
    pub front: Front,
    pub nears: NearTable,
    pub lefts: LeftTable,
    pub entries: EntryList,
}

/// Whether in all procedures each way reaches all slots, so that offsets are words.
pub fn are_near_shapes(shapes: &ShapeList) -> bool
    ensures { result ≡ list_all is_near_shape shapes.now }
{
    for shape in shapes.as_slice() {
        if !are_near_ways(shape.chosen.slots, shape.procedure.frame, &shape.ways) {
            return false;
        }
    }
    true
}

/// Finds all that the words of a program's image are made of.
pub fn plan_of(alloc: Global, program: &MidProgram) -> Result<Plan, ImageError>
    requires { is_checked_program program.now ≡ true }
    ensures ok { IfOk result (λ plan. IsPlan program.now (chosen_in plan.shapes) plan) }
    ensures large { IfErr result (λ e. e ≡ image.TooLarge → IsTooLarge program.now) }
    ensures not_found { IfErr result (λ e. e ≡ image.FrameNotFound → finds_frames program.now ≡ false) }
{
    let shapes = shapes_of(alloc, program)?;
    let front = front_of(program, &shapes)?;
    if !are_near_shapes(&shapes) {
        return Err(ImageError::TooLarge);
    }
    Ok(laid_out(alloc, program, shapes, front)?)
}

fn laid_out(
    alloc: Global,
    program: &MidProgram,
    shapes: ShapeList,
    front: Front,
) -> Result<Plan, EmitError>
    requires { (is_checked_program program.now ≡ true) × PlacesFit program.now (chosen_in shapes) × (shapes ≡ shapes_of program.now (chosen_in shapes)) × (front ≡ front_of program.now)
        × (first_position front < 2 ^ 24) × EachShapeFits front shapes }
    ensures ok { IfOk result (λ plan. IsPlan program.now (chosen_in plan.shapes) plan) }
    ensures err { IfErr result (λ e. e ≡ TooLarge → 2 ^ 24 ≤ far_end program.now (chosen_in shapes)) }
{
    let none = NearTable::new(alloc);
    let far = all_lefts(alloc, front, &none, &shapes)?;
    let far_entries = all_entries(alloc, front, &far, &shapes)?;
    let nears = all_nears(alloc, front, &far, &far_entries, &shapes)?;
    let lefts = all_lefts(alloc, front, &nears, &shapes)?;
    let entries = all_entries(alloc, front, &lefts, &shapes)?;
    Ok(Plan {
        shapes,
        front,
        nears,
        lefts,
        entries,
    })
}
