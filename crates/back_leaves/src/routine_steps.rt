// Steps that many routines have.

ghost use Rattle.std.specs.Prelude.{◌≡◌, ◌++◌, ◌+◌, ◌<◌, ◌^◌, [], ◌∷◌, OnOk, IfOk};
ghost use Rattle.mid_code.specs.MidCode.{return_word};
ghost use Rattle.back_lowering.specs.RoutineCodes as routines;
ghost use Rattle.back_lowering.specs.Steps as steps;

use crate::leaves::routine;
use crate::steps::{call, one, push_three, push_two, two};
use crate::words::{DOMAIN, FAILING};
use back_lowering::Placement;
use base::NoMemory;
use mid_arena::steps::{comparing, compute, constant, return_word};
use mid_code::{
    Arithmetic, Callee, Code, CodeStep, Comparison, Counted, Operation, Register, RegisterList,
    StepKind,
};
use std::alloc::Global;

/// A constant is added to a register; t is used.
pub fn add_to(code: &mut Code, r: Register, t: Register, word: u32) -> Result<(), NoMemory>
    ensures { OnOk result (code.new ≡ code.old ++ routines.add_to r t word) }
{
    push_two(code, constant(t, word), compute(r, Arithmetic::Add, r, t))
}

/// A loop of a routine.
pub fn turns_while(head: Code, first: Register, second: Register, body: Code) -> CodeStep
    ensures { result ≡ routines.turns_while head first second body }
{
    CodeStep::new(StepKind::Repeat {
        counted: Counted::Turn,
        head,
        test: comparing(Comparison::Different, first, second),
        body,
    })
}

/// A call of the procedure whose number is in a register.
pub fn call_number(to: Register, number: Register, arguments: RegisterList) -> CodeStep
    ensures { result ≡ steps.call_number to number arguments }
{
    CodeStep::new(StepKind::Do(Operation::Call {
        to,
        callee: Callee::Word(number),
        arguments,
    }))
}

/// Four registers.
pub fn four(
    alloc: Global,
    first: Register,
    second: Register,
    third: Register,
    fourth: Register,
) -> Result<RegisterList, NoMemory>
    ensures { IfOk result (λ list. list ≡ first ∷ second ∷ third ∷ fourth ∷ []) }
{
    let mut list = RegisterList::new(alloc);
    list.push(first)?;
    list.push(second)?;
    list.push(third)?;
    list.push(fourth)?;
    Ok(list)
}

/// What a call comes to is returned.
pub fn returning(
    code: &mut Code,
    t: Register,
    procedure: usize,
    arguments: RegisterList,
) -> Result<(), NoMemory>
    ensures { OnOk result (code.new ≡ code.old ++ (steps.call t procedure arguments ∷ return_word t ∷ [])) }
{
    push_two(code, call(t, procedure, arguments), return_word(t))
}

/// A condition of a class without slots is signalled; it uses t.
pub fn signals(alloc: Global, at: &Placement, t: Register, class: u32) -> Result<Code, NoMemory>
    ensures { IfOk result (λ code. code ≡ routines.signals at.now t class) }
{
    let failing = routine(at, FAILING)?;
    let mut code = Code::new(alloc);
    let arguments = one(alloc, t)?;
    push_three(
        &mut code,
        constant(t, class),
        call(t, failing, arguments),
        return_word(t),
    )?;
    Ok(code)
}

/// And a domain error of the word in a register.
pub fn signals_domain(
    alloc: Global,
    at: &Placement,
    of: Register,
    t: Register,
    class: u32,
) -> Result<Code, NoMemory>
    ensures { IfOk result (λ code. code ≡ routines.signals_domain at.now of t class) }
{
    let domain = routine(at, DOMAIN)?;
    let mut code = Code::new(alloc);
    let arguments = two(alloc, of, t)?;
    push_three(
        &mut code,
        constant(t, class),
        call(t, domain, arguments),
        return_word(t),
    )?;
    Ok(code)
}
