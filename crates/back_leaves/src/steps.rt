// Steps of lowered code.

ghost use Rattle.std.specs.Prelude.{◌≡◌, ◌++◌, [], ◌∷◌, OnOk, IfOk};
ghost use Rattle.mid_code.specs.declared.operation.Comparison.TheVariants.{Equal, Different};
ghost use Rattle.back_lowering.specs.Steps as steps;

use crate::words::MOST_OFFSET;
use base::NoMemory;
use mid_arena::steps::{comparing, compute, constant, either, load, store};
use mid_arena::words::NIL;
use mid_code::{
    Arithmetic, Callee, Code, CodeStep, Comparison, Operation, Register, RegisterList, StepKind,
};
use std::alloc::Global;

/// A number as a word. Fails where it is none.
pub fn word(number: usize) -> Result<u32, NoMemory>
    ensures { IfOk result (λ w. w ≡ number) }
{
    if number <= 0xffff_ffff {
        Ok(number as u32)
    } else {
        Err(NoMemory)
    }
}

/// The word in another register.
pub fn move_word(to: Register, from: Register) -> CodeStep
    ensures { result ≡ steps.move to from }
{
    CodeStep::new(StepKind::Do(Operation::Move { to, from }))
}

/// So many words of the heap.
pub fn request(to: Register, words: Register) -> CodeStep
    ensures { result ≡ steps.request to words }
{
    CodeStep::new(StepKind::Do(Operation::Request { to, words }))
}

/// A call of a procedure.
pub fn call(to: Register, procedure: usize, arguments: RegisterList) -> CodeStep
    ensures { result ≡ steps.call to procedure arguments }
{
    CodeStep::new(StepKind::Do(Operation::Call {
        to,
        callee: Callee::Procedure(procedure),
        arguments,
    }))
}

/// One register.
pub fn one(alloc: Global, first: Register) -> Result<RegisterList, NoMemory>
    ensures { IfOk result (λ list. list ≡ first ∷ []) }
{
    let mut list = RegisterList::new(alloc);
    list.push(first)?;
    Ok(list)
}

/// Two registers.
pub fn two(alloc: Global, first: Register, second: Register) -> Result<RegisterList, NoMemory>
    ensures { IfOk result (λ list. list ≡ first ∷ second ∷ []) }
{
    let mut list = RegisterList::new(alloc);
    list.push(first)?;
    list.push(second)?;
    Ok(list)
}

/// Three registers.
pub fn three(
    alloc: Global,
    first: Register,
    second: Register,
    third: Register,
) -> Result<RegisterList, NoMemory>
    ensures { IfOk result (λ list. list ≡ first ∷ second ∷ third ∷ []) }
{
    let mut list = RegisterList::new(alloc);
    list.push(first)?;
    list.push(second)?;
    list.push(third)?;
    Ok(list)
}

/// One code or the other, as two registers compare.
pub fn where_so(how: Comparison, a: Register, b: Register, first: Code, second: Code) -> CodeStep
    ensures { result ≡ steps.where_so how a b first second }
{
    either(comparing(how, a, b), first, second)
}

/// One code where two registers are equal, else the other.
pub fn if_equal(a: Register, b: Register, first: Code, second: Code) -> CodeStep
    ensures { result ≡ steps.if_equal a b first second }
{
    where_so(Comparison::Equal, a, b, first, second)
}

/// One code where two registers are different, else the other.
pub fn if_different(a: Register, b: Register, first: Code, second: Code) -> CodeStep
    ensures { result ≡ steps.if_different a b first second }
{
    where_so(Comparison::Different, a, b, first, second)
}

/// One code where two registers are equal, which is likely, else the other.
pub fn if_likely_equal(a: Register, b: Register, likely: Code, other: Code) -> CodeStep
    ensures { result ≡ steps.if_likely_equal a b likely other }
{
    if_different(a, b, other, likely)
}

/// One code or the other, as the value in d is true or nil; t is used.
pub fn if_true(
    code: &mut Code,
    d: Register,
    t: Register,
    first: Code,
    second: Code,
) -> Result<(), NoMemory>
    ensures { OnOk result (code.new ≡ code.old ++ steps.if_true d t first second) }
{
    let choice = if_different(d, t, first, second);
    code.push(constant(t, NIL))?;
    code.push(choice)
}

/// One register is set to a word.
pub fn setting(alloc: Global, to: Register, word: u32) -> Result<Code, NoMemory>
    ensures { IfOk result (λ code. code ≡ steps.constant to word ∷ []) }
{
    let mut code = Code::new(alloc);
    code.push(constant(to, word))?;
    Ok(code)
}

/// The word at an address; t is used.
pub fn load_from(code: &mut Code, to: Register, t: Register, address: u32) -> Result<(), NoMemory>
    ensures { OnOk result (code.new ≡ code.old ++ steps.load_from to t address) }
{
    if address <= MOST_OFFSET {
        code.push(constant(t, 0))?;
        code.push(load(to, t, address as i32))
    } else {
        code.push(constant(t, address))?;
        code.push(load(to, t, 0))
    }
}

/// The word in a register is stored at an address; t is used.
pub fn store_to(code: &mut Code, from: Register, t: Register, address: u32) -> Result<(), NoMemory>
    ensures { OnOk result (code.new ≡ code.old ++ steps.store_to from t address) }
{
    if address <= MOST_OFFSET {
        code.push(constant(t, 0))?;
        code.push(store(from, t, address as i32))
    } else {
        code.push(constant(t, address))?;
        code.push(store(from, t, 0))
    }
}

/// The word at any offset from an address; t is used, where it may be `to`.
pub fn load_far(
    code: &mut Code,
    to: Register,
    base: Register,
    t: Register,
    offset: u32,
) -> Result<(), NoMemory>
    ensures { OnOk result (code.new ≡ code.old ++ steps.load_far to base t offset) }
{
    if offset <= MOST_OFFSET {
        code.push(load(to, base, offset as i32))
    } else {
        code.push(constant(t, offset))?;
        code.push(compute(t, Arithmetic::Add, t, base))?;
        code.push(load(to, t, 0))
    }
}

/// The word in a register is stored at any offset from an address; t is used.
pub fn store_far(
    code: &mut Code,
    from: Register,
    base: Register,
    t: Register,
    offset: u32,
) -> Result<(), NoMemory>
    ensures { OnOk result (code.new ≡ code.old ++ steps.store_far from base t offset) }
{
    if offset <= MOST_OFFSET {
        code.push(store(from, base, offset as i32))
    } else {
        code.push(constant(t, offset))?;
        code.push(compute(t, Arithmetic::Add, t, base))?;
        code.push(store(from, t, 0))
    }
}

/// Two steps more.
pub fn push_two(code: &mut Code, first: CodeStep, second: CodeStep) -> Result<(), NoMemory>
    ensures { OnOk result (code.new ≡ code.old ++ (first ∷ second ∷ [])) }
{
    code.push(first)?;
    code.push(second)
}

/// Three steps more.
pub fn push_three(
    code: &mut Code,
    first: CodeStep,
    second: CodeStep,
    third: CodeStep,
) -> Result<(), NoMemory>
    ensures { OnOk result (code.new ≡ code.old ++ (first ∷ second ∷ third ∷ [])) }
{
    code.push(first)?;
    code.push(second)?;
    code.push(third)
}

/// Four steps more.
pub fn push_four(
    code: &mut Code,
    first: CodeStep,
    second: CodeStep,
    third: CodeStep,
    fourth: CodeStep,
) -> Result<(), NoMemory>
    ensures { OnOk result (code.new ≡ code.old ++ (first ∷ second ∷ third ∷ fourth ∷ [])) }
{
    push_two(code, first, second)?;
    push_two(code, third, fourth)
}
