// The steps that find a slot of an instance, and its words in the class.

ghost use Rattle.std.specs.Prelude.{◌≡◌, ◌++◌, OnOk};
ghost use Rattle.mid_arena.specs.Steps as steps;
ghost use Rattle.mid_arena.specs.Steps.{steps_of};
ghost use Rattle.mid_arena.specs.declared.line.Line.TheVariants as line;

use crate::signals::signal_unless;
use crate::steps::{comparing, compute, compute_by, load, return_word};
use crate::tests::{need_instance, need_integer};
use crate::words::{HEADER, PROGRAM_ERROR, SECOND, STANDARD_OBJECT};
use base::NoMemory;
use mid_code::{Arithmetic, Code, Comparison, Register};
use std::alloc::Global;

/// A register has to hold an instance, and another one the place of a slot of it.
pub fn need_place(
    code: &mut Code,
    alloc: Global,
    of: Register,
    place: Register,
) -> Result<(), NoMemory>
    ensures { OnOk result (code.new ≡ code.old ++ steps_of (line.NeedPlace of place)) }
{
    need_instance(code, alloc, of, STANDARD_OBJECT)?;
    need_integer(code, alloc, place)?;
    code.push(load(7, of, HEADER))?;
    compute_by(code, 7, Arithmetic::ShiftRight, 7, 4)?;
    compute_by(code, 7, Arithmetic::ShiftLeft, 7, 2)?;
    let below = comparing(Comparison::LessUnsigned, place, 7);
    code.push(signal_unless(alloc, below, PROGRAM_ERROR)?)
}

/// Ends with the word at an offset from where the slot stands in its class.
pub fn slot_word(code: &mut Code, offset: i32) -> Result<(), NoMemory>
    ensures { OnOk result (code.new ≡ code.old ++ steps.slot_word offset) }
{
    code.push(load(4, 0, SECOND))?;
    code.push(load(5, 4, 18))?;
    code.push(compute(4, Arithmetic::Add, 4, 5))?;
    compute_by(code, 5, Arithmetic::Multiply, 1, 3)?;
    code.push(compute(4, Arithmetic::Add, 4, 5))?;
    code.push(load(5, 4, offset))?;
    code.push(return_word(5))?;
    Ok(())
}
