// The code of chains of methods.

ghost use Rattle.std.specs.Prelude.{◌≡◌, ◌++◌, ◌<◌, ◌^◌, [], ◌∷◌, OnOk, IfOk};
ghost use Rattle.back_lowering.specs.RoutineCodes as routines;
ghost use Rattle.back_application_routines.specs.Parts as parts;

use back_leaves::routine_steps::{add_to, call_number, four, signals};
use back_leaves::steps::{if_equal, move_word, push_four, push_three, push_two};
use back_leaves::words::{CHAIN_END, CONTROL_ERROR_CLASS, SITE};
use back_lowering::Placement;
use base::NoMemory;
use mid_arena::steps::{comparing, compute, constant, load, return_word, store};
use mid_code::{Arithmetic, Code, CodeStep, Comparison, Counted, Register, StepKind};
use std::alloc::Global;

/// What the methods of a chain are, in the words of the chain.
const AROUND: u32 = 0;

const BEFORE: u32 = 1;

const AFTER: u32 = 2;

/// What the word in front of methods that run before or after the first primary one is.
const PRIMARY_BEHIND: u32 = 5;

// The kind of the method whose word is at an address.
fn kind_into(
    code: &mut Code,
    to: Register,
    word: Register,
    address: Register,
) -> Result<(), NoMemory>
    ensures { OnOk result (code.new ≡ code.old ++ parts.kind_into to word address) }
{
    push_three(
        code,
        load(word, address, 0),
        constant(to, 7),
        compute(to, Arithmetic::And, word, to),
    )
}

// The number of its function.
fn number_into(code: &mut Code, to: Register, word: Register, t: Register) -> Result<(), NoMemory>
    ensures { OnOk result (code.new ≡ code.old ++ parts.number_into to word t) }
{
    push_two(
        code,
        constant(t, 3),
        compute(to, Arithmetic::ShiftRight, word, t),
    )
}

// One method is called.
fn method_called(alloc: Global) -> Result<Code, NoMemory>
    ensures { IfOk result (λ code. code ≡ parts.method_called) }
{
    let mut code = Code::new(alloc);
    number_into(&mut code, 3, 3, 5)?;
    let arguments = four(alloc, 5, 5, 1, 2)?;
    push_three(
        &mut code,
        constant(5, 0),
        store(9, 5, SITE),
        call_number(6, 3, arguments),
    )?;
    add_to(&mut code, 7, 4, 4)?;
    Ok(code)
}

// Methods of a kind are called one after another.
fn methods_called(alloc: Global, kind: u32) -> Result<Code, NoMemory>
    ensures { IfOk result (λ code. code ≡ parts.methods_called kind) }
{
    let body = method_called(alloc)?;
    let mut head = Code::new(alloc);
    kind_into(&mut head, 4, 3, 7)?;
    head.push(constant(5, kind))?;
    let mut code = Code::new(alloc);
    code.push(CodeStep::new(StepKind::Repeat {
        counted: Counted::Turn,
        head,
        test: comparing(Comparison::Equal, 4, 5),
        body,
    }))?;
    Ok(code)
}

// The first around method is called, with the rest of the chain.
fn around_called(alloc: Global) -> Result<Code, NoMemory>
    ensures { IfOk result (λ code. code ≡ parts.around_called) }
{
    let mut code = Code::new(alloc);
    number_into(&mut code, 3, 3, 4)?;
    push_three(
        &mut code,
        constant(4, 4),
        compute(4, Arithmetic::Add, 0, 4),
        constant(5, 0),
    )?;
    let arguments = four(alloc, 5, 4, 1, 2)?;
    push_two(&mut code, call_number(6, 3, arguments), return_word(6))?;
    Ok(code)
}

// The first word says how many bytes behind it the first primary method is, and the methods before stand behind it.
fn primary_ahead(alloc: Global) -> Result<Code, NoMemory>
    ensures { IfOk result (λ code. code ≡ parts.primary_ahead) }
{
    let mut code = Code::new(alloc);
    number_into(&mut code, 3, 3, 5)?;
    code.push(compute(8, Arithmetic::Add, 0, 3))?;
    add_to(&mut code, 7, 5, 4)?;
    Ok(code)
}

// The first primary method is called with the rest behind it, and then the after methods.
fn primary_called(alloc: Global) -> Result<Code, NoMemory>
    ensures { IfOk result (λ code. code ≡ parts.primary_called) }
{
    let after = methods_called(alloc, AFTER)?;
    let mut code = Code::new(alloc);
    code.push(load(3, 8, 0))?;
    number_into(&mut code, 3, 3, 4)?;
    push_four(
        &mut code,
        constant(4, 4),
        compute(4, Arithmetic::Add, 8, 4),
        constant(5, 0),
        store(9, 5, SITE),
    )?;
    code.push(call_number(8, 3, four(alloc, 5, 4, 1, 2)?))?;
    code.append_list(after)?;
    code.push(return_word(8))?;
    Ok(code)
}

// A chain runs.
fn chain_run(alloc: Global) -> Result<Code, NoMemory>
    ensures { IfOk result (λ code. code ≡ parts.chain_run) }
{
    let around = around_called(alloc)?;
    let ahead = primary_ahead(alloc)?;
    let before = methods_called(alloc, BEFORE)?;
    let primary = primary_called(alloc)?;
    let mut code = Code::new(alloc);
    push_two(&mut code, constant(5, 0), load(9, 5, SITE))?;
    kind_into(&mut code, 4, 3, 0)?;
    push_three(
        &mut code,
        constant(5, AROUND),
        if_equal(4, 5, around, Code::new(alloc)),
        move_word(7, 0),
    )?;
    push_three(
        &mut code,
        move_word(8, 0),
        constant(5, PRIMARY_BEHIND),
        if_equal(4, 5, ahead, Code::new(alloc)),
    )?;
    code.append_list(before)?;
    code.append_list(primary)?;
    Ok(code)
}

/// The chain at the address in 0 runs on as many words as 1 says, at the address in 2.
#[tactic(auto, unfolding(back_lowering::specs::RoutineCodes::chain_code))]
pub fn chain_code(alloc: Global, at: &Placement) -> Result<Code, NoMemory>
    ensures { IfOk result (λ code. code ≡ routines.chain_code at.now) }
{
    chain_run(alloc)
}

// At the end of a chain there is no next method.
fn end_judged(alloc: Global, at: &Placement) -> Result<Code, NoMemory>
    ensures { IfOk result (λ code. code ≡ parts.end_judged at.now) }
{
    let none = signals(alloc, at, 4, CONTROL_ERROR_CLASS)?;
    let mut code = Code::new(alloc);
    kind_into(&mut code, 4, 3, 0)?;
    push_two(
        &mut code,
        constant(5, CHAIN_END),
        if_equal(4, 5, none, Code::new(alloc)),
    )?;
    Ok(code)
}

/// The same where there may be no chain, or one at its end: then there is no next method.
#[tactic(auto, unfolding(back_lowering::specs::RoutineCodes::next_code))]
pub fn next_code(alloc: Global, at: &Placement) -> Result<Code, NoMemory>
    ensures { IfOk result (λ code. code ≡ routines.next_code at.now) }
{
    let none = signals(alloc, at, 4, CONTROL_ERROR_CLASS)?;
    let judged = end_judged(alloc, at)?;
    let run = chain_run(alloc)?;
    let mut code = Code::new(alloc);
    push_two(&mut code, constant(3, 0), if_equal(0, 3, none, judged))?;
    code.append_list(run)?;
    Ok(code)
}
