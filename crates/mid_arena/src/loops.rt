// The loops of primitives.

ghost use Rattle.std.specs.Prelude.{◌≡◌, ◌++◌, OnOk, IfOk};
ghost use Rattle.mid_arena.specs.Steps.{steps_of};
ghost use Rattle.mid_arena.specs.declared.line.Line.TheVariants as line;

use crate::steps::{
    comparing, compute_by, constant, either, load, return_if, return_word, store, while_below,
};
use crate::words::TRUE_AT;
use base::NoMemory;
use mid_code::{Arithmetic, Code, Comparison};
use std::alloc::Global;

/// Stores the same word again and again.
pub fn fill(code: &mut Code, alloc: Global) -> Result<(), NoMemory>
    ensures { OnOk result (code.new ≡ code.old ++ steps_of line.Fill) }
{
    let mut body = Code::new(alloc);
    body.push(store(4, 7, 8))?;
    compute_by(&mut body, 7, Arithmetic::Add, 7, 4)?;
    code.push(while_below(alloc, 7, 5, body))
}

/// Copies words.
pub fn copy_words(code: &mut Code, alloc: Global) -> Result<(), NoMemory>
    ensures { OnOk result (code.new ≡ code.old ++ steps_of line.CopyWords) }
{
    let mut body = Code::new(alloc);
    body.push(load(6, 4, 6))?;
    body.push(store(6, 7, 8))?;
    compute_by(&mut body, 7, Arithmetic::Add, 7, 4)?;
    compute_by(&mut body, 4, Arithmetic::Add, 4, 4)?;
    code.push(while_below(alloc, 7, 5, body))
}

/// Ends with t where the word is found.
pub fn search_class(code: &mut Code, alloc: Global) -> Result<(), NoMemory>
    ensures { OnOk result (code.new ≡ code.old ++ steps_of line.SearchClass) }
{
    let mut found = Code::new(alloc);
    found.push(constant(7, 0))?;
    found.push(load(7, 7, TRUE_AT))?;
    found.push(return_word(7))?;
    let mut body = Code::new(alloc);
    body.push(load(7, 5, 0))?;
    body.push(either(comparing(Comparison::Equal, 7, 4), found, Code::new(alloc)))?;
    compute_by(&mut body, 5, Arithmetic::Add, 5, 4)?;
    code.push(while_below(alloc, 5, 3, body))
}

/// Ends with the place where the word is found.
pub fn search_slot(code: &mut Code, alloc: Global) -> Result<(), NoMemory>
    ensures { OnOk result (code.new ≡ code.old ++ steps_of line.SearchSlot) }
{
    let mut body = Code::new(alloc);
    body.push(load(4, 5, 0))?;
    body.push(return_if(alloc, comparing(Comparison::Equal, 4, 1), 3)?)?;
    compute_by(&mut body, 5, Arithmetic::Add, 5, 12)?;
    compute_by(&mut body, 3, Arithmetic::Add, 3, 4)?;
    code.push(while_below(alloc, 5, 7, body))
}
