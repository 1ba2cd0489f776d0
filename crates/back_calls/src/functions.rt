// The code of functions that forms make.

ghost use Rattle.std.specs.Prelude.{◌≡◌, ◌++◌, ◌+◌, ◌<◌, ◌^◌, [], ◌∷◌, OnOk, IfOk};
ghost use Rattle.mid_code.specs.declared.operation.Arithmetic.TheVariants as arithmetic;
ghost use Rattle.flat_language.specs.declared.place.FlatCapture.TheVariants as capture;
ghost use Rattle.flat_language.specs.declared.place.MethodPlace.TheVariants as method_place;
ghost use Rattle.back_lowering.specs.Codes as codes;
ghost use Rattle.back_lowering.specs.Placement.{entry_of_lambda};
ghost use Rattle.back_lowering.specs.Steps as steps;

use crate::given::Given;
use back_leaves::leaves::{captured_into, captured_variable, exit_into};
use back_leaves::steps::{if_equal, push_four, push_two, request, store_far, word};
use back_leaves::words::MOST_REGISTERS;
use back_lowering::{Placement, Scope};
use base::NoMemory;
use flat_language::{FlatCapture, FlatCaptureList, MethodPlace};
use mid_arena::steps::{compute, constant, store};
use mid_arena::words::{FUNCTION, OBJECT};
use mid_code::{Arithmetic, Code, Register};
use std::alloc::Global;

// Where the arguments in the heap begin, the chain and their number stand in front of them.
fn in_front(alloc: Global, t: Register, method: Register) -> Result<Code, NoMemory>
    requires { method < 2 ^ 62 }
    ensures { IfOk result (λ code. code ≡ steps.constant t 8 ∷ steps.compute t arithmetic.Subtract (method + 2) t ∷ []) }
{
    let mut code = Code::new(alloc);
    push_two(
        &mut code,
        constant(t, 8),
        compute(t, Arithmetic::Subtract, method + 2, t),
    )?;
    Ok(code)
}

// What a function captures of the method itself.
fn own_method_into(
    code: &mut Code,
    alloc: Global,
    given: &Given,
    scope: &Scope,
    t: Register,
) -> Result<(), NoMemory>
    ensures { OnOk result (code.new ≡ code.old ++ codes.part_into given.now.names.now given.now.at.now given.now.program.now scope.now t (capture.Method method_place.Own)) }
{
    match scope.method {
        None => code.push(constant(t, 0)),
        Some(method) => {
            if method >= MOST_REGISTERS {
                return Err(NoMemory);
            }
            let front = in_front(alloc, t, method)?;
            push_two(
                code,
                constant(t, 0),
                if_equal(method, t, Code::new(alloc), front),
            )
        }
    }
}

// What a function captures of its surroundings comes to t.
fn part_into(
    code: &mut Code,
    alloc: Global,
    given: &Given,
    scope: &Scope,
    t: Register,
    part: FlatCapture,
) -> Result<(), NoMemory>
    ensures { OnOk result (code.new ≡ code.old ++ codes.part_into given.now.names.now given.now.at.now given.now.program.now scope.now t part) }
{
    match part {
        FlatCapture::Variable(place) => captured_variable(code, scope, t, place),
        FlatCapture::Exit(place) => exit_into(code, scope, t, place),
        FlatCapture::Method(MethodPlace::Own) => own_method_into(code, alloc, given, scope, t),
        FlatCapture::Method(MethodPlace::Captured(number)) => {
            captured_into(code, scope, t, number)
        }
    }
}

// What a function captures is stored behind its number, at the address in d; t and the next one are used.
fn parts_stored(
    code: &mut Code,
    alloc: Global,
    given: &Given,
    scope: &Scope,
    d: Register,
    t: Register,
    parts: &FlatCaptureList,
) -> Result<(), NoMemory>
    requires { t < 2 ^ 62 }
    ensures { OnOk result (code.new ≡ code.old ++ codes.parts_stored given.now.names.now given.now.at.now given.now.program.now scope.now d t 8 parts.now) }
{
    if parts.len() >= 0x1000_0000 {
        return Err(NoMemory);
    }
    for i in 0..parts.len() {
        let Some(part) = parts.get(i) else {
            unreachable!()
        };
        part_into(code, alloc, given, scope, t, *part)?;
        store_far(code, t, d, t + 1, 8 + 4 * i as u32)?;
    }
    Ok(())
}

// The number of the entry of a function of a form, as a word.
fn entry_word(at: &Placement, number: usize) -> Result<u32, NoMemory>
    ensures { IfOk result (λ w. w ≡ entry_of_lambda at.now number) }
{
    if at.procedures >= MOST_REGISTERS || number >= MOST_REGISTERS {
        return Err(NoMemory);
    }
    word(at.procedures + number)
}

// How many words a function with so many captured things takes.
fn function_words(parts: usize) -> Result<u32, NoMemory>
    ensures { IfOk result (λ w. w ≡ 2 + parts) }
{
    if parts >= MOST_REGISTERS {
        return Err(NoMemory);
    }
    word(2 + parts)
}

/// A new function: its header, its number, and what it captures.
pub fn function_code(
    code: &mut Code,
    alloc: Global,
    given: &Given,
    scope: &Scope,
    d: Register,
    number: usize,
    parts: &FlatCaptureList,
) -> Result<(), NoMemory>
    requires { d < 2 ^ 61 }
    ensures { OnOk result (code.new ≡ code.old ++ codes.function_code given.now.names.now given.now.at.now given.now.program.now scope.now d number parts.now) }
{
    let words = function_words(parts.len())?;
    let entry = entry_word(given.at, number)?;
    push_four(
        code,
        constant(d, words),
        request(d, d),
        constant(d + 1, FUNCTION),
        store(d + 1, d, 0),
    )?;
    push_two(code, constant(d + 1, entry), store(d + 1, d, 4))?;
    parts_stored(code, alloc, given, scope, d, d + 1, parts)?;
    push_two(
        code,
        constant(d + 1, OBJECT),
        compute(d, Arithmetic::Add, d, d + 1),
    )
}
