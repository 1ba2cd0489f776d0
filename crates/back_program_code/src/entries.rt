// The positions of entries.

ghost use Rattle.std.specs.Prelude.{◌≡◌, ◌+◌, ◌^◌, ◌<◌, ◌≤◌, length, IfOk, IfErr};
ghost use Rattle.back_emit.specs.declared.errors.EmitError.TheVariants.{TooLarge};
ghost use Rattle.back_program_code.specs.Shapes.{first_position, shape_words, all_entries, code_end, body_position, FitsShape, EachShapeFits};

use crate::front::Front;
use crate::lefts::{LeftTable, entry_words, shape_words};
use crate::shapes::{Shape, ShapeList};
use back_emit::placing::EntryList;
use back_emit::sizes::LeftList;
use back_emit::{CodeList, EmitError};
use base::NoMemory;
use std::alloc::Global;

/// The positions of all entries. It is too large where all code ends at 2^24 or more.
pub fn all_entries(
    alloc: Global,
    front: Front,
    lefts: &LeftTable,
    shapes: &ShapeList,
) -> Result<EntryList, EmitError>
    requires { EachShapeFits front shapes.now × (first_position front < 2 ^ 24) × (length lefts.now ≡ length shapes.now) }
    ensures is { IfOk result (λ entries. entries ≡ all_entries front lefts.now shapes.now) }
    ensures low { IfOk result (λ entries. code_end front lefts.now shapes.now < 2 ^ 24) }
    ensures err { IfErr result (λ e. e ≡ TooLarge → 2 ^ 24 ≤ code_end front lefts.now shapes.now) }
{
    let mut entries = EntryList::new(alloc);
    let mut scratch = CodeList::new(alloc);
    let mut at = front.start_at + 11;
    for number in 0..shapes.len() {
        let Some(shape) = shapes.get(number) else {
            unreachable!()
        };
        let Some(left) = lefts.get(number) else {
            unreachable!()
        };
        entries.push(at)?;
        let words = shape_words(&mut scratch, front, left, shape)?;
        if 16_777_216 <= at as usize + words {
            return Err(EmitError::TooLarge);
        }
        at += words as u32;
    }
    Ok(entries)
}

/// The position of the first line of a procedure, whose entry is at a position.
pub fn body_position(
    scratch: &mut CodeList,
    front: Front,
    at: u32,
    lefts: &LeftList,
    shape: &Shape,
) -> Result<u32, NoMemory>
    requires { FitsShape front shape.now × (at + shape_words front lefts.now shape.now < 2 ^ 24) }
    ensures { IfOk result (λ body. body ≡ body_position front at shape.now) }
{
    let entry = entry_words(scratch, front, shape)?;
    Ok(at + entry as u32)
}
