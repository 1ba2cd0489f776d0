// The steps that answer t or nil.

ghost use Rattle.std.specs.Prelude.{◌≡◌, ◌++◌, IfOk, OnOk};
ghost use Rattle.mid_arena.specs.Steps as steps;

use crate::steps::{comparing, compute_by, constant, load, return_if, return_word};
use crate::words::{HEADER, NIL, OBJECT_BITS, TRUE_AT};
use base::NoMemory;
use mid_code::{Arithmetic, Code, Comparison, Test};
use std::alloc::Global;

/// Ends with t where the test holds, else with nil.
pub fn says(code: &mut Code, alloc: Global, test: Test) -> Result<(), NoMemory>
    ensures { OnOk result (code.new ≡ code.old ++ steps.says test) }
{
    code.push(constant(5, 0))?;
    code.push(load(5, 5, TRUE_AT))?;
    code.push(return_if(alloc, test, 5)?)?;
    code.push(constant(5, NIL))?;
    code.push(return_word(5))
}

/// Ends with t where the argument is an object with one of so many headers, else with nil.
pub fn says_header(alloc: Global, header: u32, count: u32) -> Result<Code, NoMemory>
    ensures { IfOk result (λ code. code ≡ steps.says_header header count) }
{
    let mut code = Code::new(alloc);
    compute_by(&mut code, 7, Arithmetic::ShiftLeft, 0, 30)?;
    code.push(constant(6, OBJECT_BITS))?;
    code.push(constant(5, NIL))?;
    code.push(return_if(alloc, comparing(Comparison::Different, 7, 6), 5)?)?;
    code.push(load(7, 0, HEADER))?;
    compute_by(&mut code, 7, Arithmetic::Subtract, 7, header)?;
    code.push(constant(6, count))?;
    code.push(return_if(alloc, comparing(Comparison::AtLeastUnsigned, 7, 6), 5)?)?;
    code.push(constant(5, 0))?;
    code.push(load(5, 5, TRUE_AT))?;
    code.push(return_word(5))?;
    Ok(code)
}
