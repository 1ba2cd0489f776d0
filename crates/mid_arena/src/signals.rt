// The steps that make a condition and hand it over.

ghost use Rattle.std.specs.Prelude.{◌≡◌, ◌++◌, OnOk, IfOk};
ghost use Rattle.mid_arena.specs.Steps as steps;

use crate::steps::{compute, constant, either, load, return_word, store};
use crate::words::{DOMAIN_ERROR, NIL, OBJECT, PENDING_AT, SIGNAL};
use base::NoMemory;
use mid_code::{Arithmetic, Code, CodeStep, Operation, Register, StepKind, Test};
use std::alloc::Global;

/// A condition that was made is handed over: its address is in register 3, and 0 in register 5.
#[tactic(auto, unfolding(crate::specs::Steps::hand_over))]
fn hand_over(code: &mut Code) -> Result<(), NoMemory>
    ensures { OnOk result (code.new ≡ code.old ++ steps.hand_over) }
{
    code.push(constant(4, OBJECT))?;
    code.push(compute(3, Arithmetic::Add, 3, 4))?;
    code.push(store(3, 5, PENDING_AT))?;
    code.push(constant(4, SIGNAL))?;
    code.push(return_word(4))
}

/// So many words for an instance, with its header and its class, whose word stands at that address.
fn begin_instance(code: &mut Code, words: u32, header: u32, class: i32) -> Result<(), NoMemory>
    ensures { OnOk result (code.new ≡ code.old ++ steps.begin_instance words header class) }
{
    code.push(constant(3, words))?;
    code.push(CodeStep::new(StepKind::Do(Operation::Request { to: 3, words: 3 })))?;
    code.push(constant(5, 0))?;
    code.push(constant(4, header))?;
    code.push(store(4, 3, 0))?;
    code.push(load(4, 5, class))?;
    code.push(store(4, 3, 4))?;
    Ok(())
}

/// A condition without slots is signalled.
#[tactic(auto, unfolding(crate::specs::Steps::signal))]
pub fn signal(alloc: Global, class: i32) -> Result<Code, NoMemory>
    ensures { IfOk result (λ code. code ≡ steps.signal class) }
{
    let mut code = Code::new(alloc);
    begin_instance(&mut code, 3, 3, class)?;
    code.push(constant(4, NIL))?;
    code.push(store(4, 3, 8))?;
    hand_over(&mut code)?;
    Ok(code)
}

/// A domain error is signalled: the object in that register, and the class that was expected.
#[tactic(auto, unfolding(crate::specs::Steps::domain_error))]
pub fn domain_error(alloc: Global, of: Register, class: i32) -> Result<Code, NoMemory>
    ensures { IfOk result (λ code. code ≡ steps.domain_error of class) }
{
    let mut code = Code::new(alloc);
    begin_instance(&mut code, 5, 35, DOMAIN_ERROR)?;
    code.push(store(of, 3, 8))?;
    code.push(load(4, 5, class))?;
    code.push(store(4, 3, 12))?;
    code.push(constant(4, NIL))?;
    code.push(store(4, 3, 16))?;
    hand_over(&mut code)?;
    Ok(code)
}

/// A test has to hold, or a condition without slots is signalled.
pub fn signal_unless(alloc: Global, test: Test, class: i32) -> Result<CodeStep, NoMemory>
    ensures { IfOk result (λ s. s ≡ steps.signal_unless test class) }
{
    let error = signal(alloc, class)?;
    Ok(either(test, Code::new(alloc), error))
}
