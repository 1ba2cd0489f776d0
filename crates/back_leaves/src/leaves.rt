// The code of what many forms do: a site is stored, a condition is signalled, variables are read and set, boxes are made.

ghost use Rattle.std.specs.Prelude.{◌≡◌, ◌++◌, ◌+◌, ◌<◌, ◌^◌, slice_get, OnOk, IfOk};
ghost use Rattle.back_lowering.specs.Leaves as leaves;
ghost use Rattle.back_lowering.specs.Placement.{routines_from};

use crate::steps::{call, load_far, move_word, one, store_to, two, word};
use crate::words::{
    CAPTURED, DOMAIN, FAILING, FAILING_WITH, MOST_REGISTERS, PRIMITIVES, SITE_ADDRESS,
};
use back_lowering::{Placement, Scope, SitePlace};
use base::NoMemory;
use flat_language::{ExitPlace, VariablePlace};
use mid_arena::steps::{constant, load, store};
use mid_arena::words::NIL;
use mid_code::{Code, Register};
use std::alloc::Global;

/// The number of a routine, by how many stand before it.
pub fn routine(at: &Placement, before: usize) -> Result<usize, NoMemory>
    requires { before < 64 }
    ensures { IfOk result (λ n. n ≡ routines_from at.now + before) }
{
    if at.procedures >= MOST_REGISTERS || at.lambdas >= MOST_REGISTERS {
        return Err(NoMemory);
    }
    let functions = at.procedures + at.lambdas;
    Ok(functions + functions + PRIMITIVES + before)
}

/// The site is stored where what is called may look at it; d and t are used.
pub fn site_stored(
    code: &mut Code,
    site: SitePlace,
    d: Register,
    t: Register,
) -> Result<(), NoMemory>
    ensures { OnOk result (code.new ≡ code.old ++ leaves.site_stored site d t) }
{
    match site {
        SitePlace::Known(number) => {
            code.push(constant(d, number))?;
            store_to(code, d, t, SITE_ADDRESS)
        }
        SitePlace::Held(register) => store_to(code, register, t, SITE_ADDRESS),
    }
}

/// A new condition of a class without slots is signalled.
pub fn failing(
    code: &mut Code,
    alloc: Global,
    at: &Placement,
    site: SitePlace,
    d: Register,
    class: u32,
) -> Result<(), NoMemory>
    requires { d < 2 ^ 62 }
    ensures { OnOk result (code.new ≡ code.old ++ leaves.failing at.now site d class) }
{
    let procedure = routine(at, FAILING)?;
    site_stored(code, site, d, d + 1)?;
    code.push(constant(d, class))?;
    code.push(call(d, procedure, one(alloc, d)?))
}

/// A new condition of a class with one slot, which has a word.
pub fn failing_with(
    code: &mut Code,
    alloc: Global,
    at: &Placement,
    site: SitePlace,
    d: Register,
    class: u32,
    word: u32,
) -> Result<(), NoMemory>
    requires { d < 2 ^ 62 }
    ensures { OnOk result (code.new ≡ code.old ++ leaves.failing_with at.now site d class word) }
{
    let procedure = routine(at, FAILING_WITH)?;
    site_stored(code, site, d, d + 1)?;
    code.push(constant(d, class))?;
    code.push(constant(d + 1, word))?;
    code.push(call(d, procedure, two(alloc, d, d + 1)?))
}

/// A domain error of the word in a register, which is to be an instance of a class.
pub fn domain_error(
    code: &mut Code,
    alloc: Global,
    at: &Placement,
    site: SitePlace,
    d: Register,
    of: Register,
    class: u32,
) -> Result<(), NoMemory>
    requires { d < 2 ^ 62 }
    ensures { OnOk result (code.new ≡ code.old ++ leaves.domain_error at.now site d of class) }
{
    let procedure = routine(at, DOMAIN)?;
    site_stored(code, site, d, d + 1)?;
    code.push(constant(d, class))?;
    code.push(call(d, procedure, two(alloc, of, d)?))
}

// The offset of what the function captured. Fails where it is no word.
fn captured_offset(number: usize) -> Result<u32, NoMemory>
    ensures { IfOk result (λ offset. offset ≡ leaves.captured_offset number) }
{
    if number >= MOST_REGISTERS {
        return Err(NoMemory);
    }
    word(CAPTURED as usize + 4 * number)
}

/// What the function itself captured.
pub fn captured_into(
    code: &mut Code,
    scope: &Scope,
    d: Register,
    number: usize,
) -> Result<(), NoMemory>
    ensures { OnOk result (code.new ≡ code.old ++ leaves.captured_into scope.now d number) }
{
    load_far(code, d, scope.function, d, captured_offset(number)?)
}

// The word in a slot's register.
fn slot_into(code: &mut Code, scope: &Scope, d: Register, slot: usize) -> Result<(), NoMemory>
    ensures { OnOk result (code.new ≡ code.old ++ leaves.slot_into d (slice_get scope.now.slots slot)) }
{
    match scope.slots.get(slot) {
        Some(register) => code.push(move_word(d, *register)),
        None => code.push(constant(d, NIL)),
    }
}

/// The value of a variable.
pub fn variable_into(
    code: &mut Code,
    scope: &Scope,
    d: Register,
    place: VariablePlace,
) -> Result<(), NoMemory>
    ensures { OnOk result (code.new ≡ code.old ++ leaves.variable_into scope.now d place) }
{
    match place {
        VariablePlace::Slot(number) => slot_into(code, scope, d, number),
        VariablePlace::SlotBox(number) => {
            slot_into(code, scope, d, number)?;
            code.push(load(d, d, 0))
        }
        VariablePlace::CapturedValue(number) => captured_into(code, scope, d, number),
        VariablePlace::CapturedBox(number) => {
            captured_into(code, scope, d, number)?;
            code.push(load(d, d, 0))
        }
    }
}

// The word in d comes to a slot's register.
fn slot_from(code: &mut Code, scope: &Scope, d: Register, slot: usize) -> Result<(), NoMemory>
    ensures { OnOk result (code.new ≡ code.old ++ leaves.slot_from d (slice_get scope.now.slots slot)) }
{
    match scope.slots.get(slot) {
        Some(register) => code.push(move_word(*register, d)),
        None => Ok(()),
    }
}

/// The word in d is the variable's; t is used.
pub fn variable_from(
    code: &mut Code,
    scope: &Scope,
    d: Register,
    t: Register,
    place: VariablePlace,
) -> Result<(), NoMemory>
    ensures { OnOk result (code.new ≡ code.old ++ leaves.variable_from scope.now d t place) }
{
    match place {
        VariablePlace::Slot(number) => slot_from(code, scope, d, number),
        VariablePlace::SlotBox(number) => {
            slot_into(code, scope, t, number)?;
            code.push(store(d, t, 0))
        }
        VariablePlace::CapturedValue(_) => Ok(()),
        VariablePlace::CapturedBox(number) => {
            captured_into(code, scope, t, number)?;
            code.push(store(d, t, 0))
        }
    }
}

/// What a function captures of a variable: the address of its box where it has one, else its word.
pub fn captured_variable(
    code: &mut Code,
    scope: &Scope,
    d: Register,
    place: VariablePlace,
) -> Result<(), NoMemory>
    ensures { OnOk result (code.new ≡ code.old ++ leaves.captured_variable scope.now d place) }
{
    match place {
        VariablePlace::Slot(number) => slot_into(code, scope, d, number),
        VariablePlace::SlotBox(number) => slot_into(code, scope, d, number),
        VariablePlace::CapturedValue(number) => captured_into(code, scope, d, number),
        VariablePlace::CapturedBox(number) => captured_into(code, scope, d, number),
    }
}

// The serial number of an exit of the same activation.
fn serial_into(code: &mut Code, scope: &Scope, d: Register, exit: usize) -> Result<(), NoMemory>
    ensures { OnOk result (code.new ≡ code.old ++ leaves.serial_into d (slice_get scope.now.exits exit)) }
{
    match scope.exits.get(exit) {
        Some(own) => code.push(move_word(d, own.serial)),
        None => code.push(constant(d, 0)),
    }
}

/// The serial number of an exit.
pub fn exit_into(
    code: &mut Code,
    scope: &Scope,
    d: Register,
    place: ExitPlace,
) -> Result<(), NoMemory>
    ensures { OnOk result (code.new ≡ code.old ++ leaves.exit_into scope.now d place) }
{
    match place {
        ExitPlace::Own(number) => serial_into(code, scope, d, number),
        ExitPlace::Captured(number) => captured_into(code, scope, d, number),
    }
}
