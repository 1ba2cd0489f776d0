// Registers one after another, and the words in them, stored and made a list.

ghost use Rattle.std.specs.Prelude.{◌≡◌, ◌++◌, ◌+◌, ◌<◌, ◌^◌, OnOk, IfOk};
ghost use Rattle.back_lowering.specs.Scope.{registers_from};
ghost use Rattle.back_lowering.specs.Steps as steps;
ghost use Rattle.back_lowering.specs.Calls as calls;
ghost use Rattle.back_leaves.specs.Conses.{consed};

use crate::steps::{request, store_far};
use base::NoMemory;
use mid_arena::steps::{compute, constant, store};
use mid_arena::words::{CONS, NIL};
use mid_code::{Arithmetic, Code, Register, RegisterList};
use std::alloc::Global;

/// So many registers from d on.
#[tactic(auto, using(crate::proofs::Stored::registers_next))]
pub fn registers(alloc: Global, d: Register, count: usize) -> Result<RegisterList, NoMemory>
    requires { d + count < 2 ^ 62 }
    ensures { IfOk result (λ list. list ≡ registers_from d count) }
{
    let mut list = RegisterList::new(alloc);
    for i in 0..count {
        list.push(d + i)?;
    }
    Ok(list)
}

/// So many words in registers from d on are stored one after another, from an address on; t is used.
pub fn words_stored(
    code: &mut Code,
    count: usize,
    d: Register,
    base: Register,
    t: Register,
) -> Result<(), NoMemory>
    requires { d + count < 2 ^ 62 }
    ensures { OnOk result (code.new ≡ code.old ++ steps.words_stored count d base t 0) }
{
    if count >= 0x1000_0000 {
        return Err(NoMemory);
    }
    for i in 0..count {
        store_far(code, d + i, base, t, 4 * i as u32)?;
    }
    Ok(())
}

// The words in t and in d are a cons, which comes to t; the next two registers are used.
fn consed(code: &mut Code, d: Register, t: Register) -> Result<(), NoMemory>
    requires { t < 2 ^ 62 }
    ensures { OnOk result (code.new ≡ code.old ++ consed d t) }
{
    code.push(constant(t + 1, 2))?;
    code.push(request(t + 1, t + 1))?;
    code.push(store(d, t + 1, 0))?;
    code.push(store(t, t + 1, 4))?;
    code.push(constant(t + 2, CONS))?;
    code.push(compute(t, Arithmetic::Add, t + 1, t + 2))
}

/// A list of the words in so many registers from d on comes to t; the next two registers are used.
pub fn list_of(code: &mut Code, count: usize, d: Register, t: Register) -> Result<(), NoMemory>
    requires many { d + count < 2 ^ 62 }
    requires free { t < 2 ^ 62 }
    ensures { OnOk result (code.new ≡ code.old ++ calls.list_of count d t) }
{
    code.push(constant(t, NIL))?;
    for i in 0..count {
        consed(code, d + (count - 1 - i), t)?;
    }
    Ok(())
}
