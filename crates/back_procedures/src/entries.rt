// The entries of functions: the arguments are words of a block, which come to the registers of a body.

ghost use Rattle.std.specs.Prelude.{◌≡◌, ◌++◌, ◌+◌, ◌<◌, ◌^◌, OnOk, IfOk};
ghost use Rattle.back_lowering.specs.Program as lowering;
ghost use Rattle.back_lowering.specs.Steps as steps;
ghost use Rattle.back_procedures.specs.Extras.{meant};

use crate::extra::Extra;
use crate::mentions::mentions;
use back_calls::Given;
use back_leaves::leaves::routine;
use back_leaves::registers::registers;
use back_leaves::steps::{call, if_equal, load_far, three, two, word};
use back_leaves::words::{LEVEL, LIST, METHOD};
use base::NoMemory;
use flat_language::FlatProcedure;
use mid_arena::steps::{compute, constant, return_word};
use mid_code::{Arithmetic, Code, Counted, MidProcedure, Register, RegisterList};
use std::alloc::Global;

/// A function with so many required variables has no entry: there is no memory for code of so many.
const MOST: usize = 1 << 28;

/// What calls an entry has no more words in reserve for the words of its parameters.
const MOST_PARAMETER_WORDS: u64 = 52;

// Where it makes a list or keeps a call, a level is judged first.
fn level_judged(
    code: &mut Code,
    alloc: Global,
    given: &Given,
    procedure: &FlatProcedure,
) -> Result<(), NoMemory>
    ensures { OnOk result (code.new ≡ code.old ++ lowering.level_judged given.now.names.now given.now.at.now given.now.program.now procedure.now) }
{
    if procedure.rest.is_some() || procedure.keeps_method {
        let level = routine(given.at, LEVEL)?;
        code.push(call(4, level, RegisterList::new(alloc)))?;
    }
    Ok(())
}

// The arguments behind the required ones are a list, in register 4.
fn rest_made(
    code: &mut Code,
    alloc: Global,
    given: &Given,
    procedure: &FlatProcedure,
) -> Result<(), NoMemory>
    ensures { OnOk result (code.new ≡ code.old ++ lowering.rest_made given.now.names.now given.now.at.now given.now.program.now procedure.now) }
{
    if procedure.rest.is_some() {
        let required = procedure.required.len();
        if required >= MOST {
            return Err(NoMemory);
        }
        let list = routine(given.at, LIST)?;
        code.push(constant(5, word(4 * required)?))?;
        code.push(compute(5, Arithmetic::Add, 3, 5))?;
        code.push(constant(6, word(required)?))?;
        code.push(compute(6, Arithmetic::Subtract, 2, 6))?;
        code.push(call(4, list, two(alloc, 5, 6)?))?;
    }
    Ok(())
}

// The chain and the arguments of a method are kept in the heap, where a function in it captures them.
fn method_kept(
    code: &mut Code,
    alloc: Global,
    given: &Given,
    procedure: &FlatProcedure,
) -> Result<(), NoMemory>
    ensures { OnOk result (code.new ≡ code.old ++ lowering.method_kept given.now.names.now given.now.at.now given.now.program.now procedure.now) }
{
    if procedure.keeps_method {
        let method = routine(given.at, METHOD)?;
        let mut kept = Code::new(alloc);
        kept.push(call(3, method, three(alloc, 1, 2, 3)?))?;
        code.push(constant(5, 0))?;
        code.push(if_equal(1, 5, Code::new(alloc), kept))?;
    }
    Ok(())
}

// So many words, one after another from the address in a register on, are loaded into registers from d on.
fn words_loaded(code: &mut Code, count: usize, d: Register, base: Register) -> Result<(), NoMemory>
    requires { d + count < 2 ^ 62 }
    ensures { OnOk result (code.new ≡ code.old ++ steps.words_loaded count d base 0) }
{
    if count >= MOST {
        return Err(NoMemory);
    }
    for i in 0..count {
        load_far(code, d + i, base, d + i, 4 * i as u32)?;
    }
    Ok(())
}

// What the body takes behind the words that were loaded.
fn taken_behind(
    variables: &mut RegisterList,
    given: &Given,
    procedure: &FlatProcedure,
    extra: Extra,
) -> Result<(), NoMemory>
    ensures { OnOk result (variables.new ≡ variables.old ++ (lowering.rest_register given.now.names.now given.now.at.now given.now.program.now procedure.now ++ lowering.entry_extras given.now.names.now given.now.at.now given.now.program.now (meant extra))) }
{
    if procedure.rest.is_some() {
        variables.push(4)?;
    }
    match extra {
        Extra::Nothing => Ok(()),
        Extra::Method => {
            variables.push(1)?;
            variables.push(2)?;
            variables.push(3)
        }
        Extra::Itself => variables.push(0),
    }
}

// How many words of the stack an entry has.
fn entry_frame(procedure: &FlatProcedure) -> u32
    ensures { result ≡ lowering.entry_frame procedure.now }
{
    let named = mentions(&procedure.body).min(MOST_PARAMETER_WORDS);
    6 + named.min(procedure.required.len() as u64) as u32
}

/// The entry of a function whose body has that number. Fails for want of memory.
pub fn entry(
    alloc: Global,
    given: &Given,
    body: usize,
    extra: Extra,
    procedure: &FlatProcedure,
) -> Result<MidProcedure, NoMemory>
    ensures { IfOk result (λ p. p ≡ lowering.entry given.now.names.now given.now.at.now given.now.program.now body (meant extra) procedure.now) }
{
    let required = procedure.required.len();
    if required >= MOST {
        return Err(NoMemory);
    }
    let mut variables = registers(alloc, 7, required)?;
    taken_behind(&mut variables, given, procedure, extra)?;
    let mut code = Code::new(alloc);
    level_judged(&mut code, alloc, given, procedure)?;
    rest_made(&mut code, alloc, given, procedure)?;
    method_kept(&mut code, alloc, given, procedure)?;
    words_loaded(&mut code, required, 7, 3)?;
    code.push(call(4, body, variables))?;
    code.push(return_word(4))?;
    Ok(MidProcedure {
        counted: Counted::Turn,
        parameters: 4,
        registers: 7 + required,
        frame: entry_frame(procedure),
        body: code,
    })
}
