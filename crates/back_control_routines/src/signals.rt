// The code of signals.

ghost use Rattle.std.specs.Prelude.{◌≡◌, ◌++◌, ◌+◌, ◌*◌, ◌<◌, ◌^◌, [], ◌∷◌, OnOk, IfOk};
ghost use Rattle.back_lowering.specs.RoutineCodes as routines;
ghost use Rattle.back_control_routines.specs.Parts as parts;

use back_calls::records::{exit_laid, record_landed, record_left, with_block};
use back_leaves::leaves::routine;
use back_leaves::primitives::where_tag;
use back_leaves::routine_steps::{returning, signals_domain};
use back_leaves::steps::{
    call, if_different, if_equal, one, push_four, push_three, push_two, request, three, two,
};
use back_leaves::words::{
    CONTROL_ERROR_CLASS, END, FAILING, FUNCTION, HANDLER_FUNCTION, HANDLER_OUTER, HANDLERS,
    LANDING, RAISE, RECORD_MARK, RECORD_TAG, RECORD_WORDS, SERIALS, SERIOUS_CONDITION_CLASS,
    SIGNAL_KIND, SITE, TRANSFER,
};
use back_lowering::Placement;
use base::NoMemory;
use mid_arena::steps::{compute, constant, load, return_word, store};
use mid_arena::words::{NIL, OBJECT, PENDING_AT};
use mid_code::{Arithmetic, Code, CodeStep, Operation, Register, StepKind};
use std::alloc::Global;

// The mark of the condition in 0 is the word in 1.
fn mark_set(alloc: Global) -> Result<Code, NoMemory>
    ensures { IfOk result (λ code. code ≡ parts.mark_set) }
{
    let mut code = Code::new(alloc);
    push_four(
        &mut code,
        load(2, 0, -2),
        constant(3, 4),
        compute(2, Arithmetic::ShiftRight, 2, 3),
        constant(3, 2),
    )?;
    push_three(
        &mut code,
        compute(2, Arithmetic::ShiftLeft, 2, 3),
        compute(2, Arithmetic::Add, 2, 0),
        store(1, 2, 6),
    )?;
    Ok(code)
}

// No handler: the program ends, at the site; the signal has an exit all the same.
fn unhandled_code(alloc: Global, at: &Placement) -> Result<Code, NoMemory>
    ensures { IfOk result (λ code. code ≡ routines.unhandled_code at.now) }
{
    let transfer = routine(at, TRANSFER)?;
    let mut code = Code::new(alloc);
    code.push(CodeStep::new(StepKind::Do(Operation::Draw {
        to: 5,
        base: 3,
        offset: SERIALS,
    })))?;
    push_three(
        &mut code,
        load(5, 3, SITE),
        store(5, 3, LANDING),
        load(5, 3, END),
    )?;
    returning(&mut code, 6, transfer, two(alloc, 5, 0)?)?;
    Ok(code)
}

// The handler is applied to the condition, which is a word of a block.
fn applied(alloc: Global, at: &Placement) -> Result<Code, NoMemory>
    ensures { IfOk result (λ code. code ≡ parts.applied at.now) }
{
    let function = routine(at, FUNCTION)?;
    let mut code = Code::new(alloc);
    push_two(&mut code, store(0, 16, 0), constant(17, 1))?;
    code.push(call(6, function, three(alloc, 5, 17, 16)?))?;
    Ok(code)
}

// Where the handler returns, that is a control error under the handlers outside it, at the same site.
fn returned(alloc: Global, at: &Placement) -> Result<Code, NoMemory>
    ensures { IfOk result (λ code. code ≡ parts.returned at.now) }
{
    let failing = routine(at, FAILING)?;
    let mut code = Code::new(alloc);
    push_three(
        &mut code,
        constant(5, 0),
        store(7, 5, SITE),
        constant(5, CONTROL_ERROR_CLASS),
    )?;
    code.push(call(6, failing, one(alloc, 5)?))?;
    record_left(&mut code, 8, 14)?;
    Ok(code)
}

// The handler is applied inside the record of the signal.
fn handler_inside(alloc: Global, at: &Placement) -> Result<Code, NoMemory>
    ensures { IfOk result (λ code. code ≡ parts.handler_inside at.now) }
{
    let applied = applied(alloc, at)?;
    let returned = returned(alloc, at)?;
    let mut code = Code::new(alloc);
    push_two(&mut code, store(0, 8, RECORD_TAG), store(1, 8, RECORD_MARK))?;
    exit_laid(&mut code, 13, 8, 14, SIGNAL_KIND)?;
    push_four(
        &mut code,
        load(5, 4, HANDLER_OUTER),
        store(5, 14, HANDLERS),
        load(5, 4, HANDLER_FUNCTION),
        with_block(16, 1, 6, applied, Code::new(alloc)),
    )?;
    code.append_list(returned)?;
    Ok(code)
}

// The innermost handler is applied.
fn handler_applied(alloc: Global, at: &Placement) -> Result<Code, NoMemory>
    ensures { IfOk result (λ code. code ≡ routines.handler_applied at.now) }
{
    let inside = handler_inside(alloc, at)?;
    let mut landing = Code::new(alloc);
    record_landed(&mut landing, 8, 14)?;
    let mut code = Code::new(alloc);
    push_three(
        &mut code,
        load(7, 3, SITE),
        with_block(8, RECORD_WORDS, 6, inside, landing),
        return_word(6),
    )?;
    Ok(code)
}

/// The condition in 0 is signalled with the mark in 1.
#[tactic(auto, unfolding(back_lowering::specs::RoutineCodes::raise_code))]
pub fn raise_code(alloc: Global, at: &Placement) -> Result<Code, NoMemory>
    ensures { IfOk result (λ code. code ≡ routines.raise_code at.now) }
{
    let unhandled = unhandled_code(alloc, at)?;
    let handled = handler_applied(alloc, at)?;
    let mut code = mark_set(alloc)?;
    push_three(
        &mut code,
        constant(3, 0),
        load(4, 3, HANDLERS),
        if_equal(4, 3, unhandled, handled),
    )?;
    Ok(code)
}

// An instance is signalled where its class is one of conditions.
fn condition_raised(alloc: Global, at: &Placement) -> Result<Code, NoMemory>
    ensures { IfOk result (λ code. code ≡ parts.condition_raised at.now) }
{
    let raise = routine(at, RAISE)?;
    let mut raised = Code::new(alloc);
    returning(&mut raised, 4, raise, two(alloc, 0, 1)?)?;
    let mut code = Code::new(alloc);
    push_four(
        &mut code,
        load(2, 0, 2),
        load(2, 2, 14),
        constant(3, NIL),
        if_different(2, 3, raised, Code::new(alloc)),
    )?;
    Ok(code)
}

// An object is signalled where it is an instance of such a class.
fn object_raised(alloc: Global, at: &Placement) -> Result<Code, NoMemory>
    ensures { IfOk result (λ code. code ≡ parts.object_raised at.now) }
{
    let raised = condition_raised(alloc, at)?;
    let mut code = Code::new(alloc);
    push_three(
        &mut code,
        load(2, 0, -2),
        constant(3, 28),
        compute(2, Arithmetic::ShiftLeft, 2, 3),
    )?;
    push_two(
        &mut code,
        constant(3, 805_306_368),
        if_equal(2, 3, raised, Code::new(alloc)),
    )?;
    Ok(code)
}

/// The value in 0, which may be no condition, is signalled with the mark in 1.
#[tactic(auto, unfolding(back_lowering::specs::RoutineCodes::signal_code))]
pub fn signal_code(alloc: Global, at: &Placement) -> Result<Code, NoMemory>
    ensures { IfOk result (λ code. code ≡ routines.signal_code at.now) }
{
    let raised = object_raised(alloc, at)?;
    let wrong = signals_domain(alloc, at, 0, 2, SERIOUS_CONDITION_CLASS)?;
    let mut code = Code::new(alloc);
    where_tag(&mut code, 0, 2, OBJECT, raised, Code::new(alloc))?;
    code.append_list(wrong)?;
    Ok(code)
}

/// The condition that a primitive made is signalled.
#[tactic(auto, unfolding(back_lowering::specs::RoutineCodes::pending_code))]
pub fn pending_code(alloc: Global, at: &Placement) -> Result<Code, NoMemory>
    ensures { IfOk result (λ code. code ≡ routines.pending_code at.now) }
{
    let raise = routine(at, RAISE)?;
    let mut code = Code::new(alloc);
    push_three(
        &mut code,
        constant(0, 0),
        load(0, 0, PENDING_AT),
        constant(1, NIL),
    )?;
    returning(&mut code, 2, raise, two(alloc, 0, 1)?)?;
    Ok(code)
}

// So many words for an instance whose class has its word at the address in 2; its address is in 3; 4 is used.
fn instance_begun(code: &mut Code, slots: u32) -> Result<(), NoMemory>
    requires { slots < 8 }
    ensures { OnOk result (code.new ≡ code.old ++ parts.instance_begun slots) }
{
    push_three(
        code,
        constant(3, 3 + slots),
        request(3, 3),
        constant(4, 16 * slots + 3),
    )?;
    push_three(code, store(4, 3, 0), load(4, 2, 0), store(4, 3, 4))
}

// The mark of the instance is nil, and it is signalled.
fn instance_raised(
    code: &mut Code,
    alloc: Global,
    at: &Placement,
    mark: i32,
) -> Result<(), NoMemory>
    ensures { OnOk result (code.new ≡ code.old ++ parts.raised_with at.now mark) }
{
    let raise = routine(at, RAISE)?;
    push_four(
        code,
        constant(4, NIL),
        store(4, 3, mark),
        constant(2, OBJECT),
        compute(3, Arithmetic::Add, 3, 2),
    )?;
    returning(code, 3, raise, two(alloc, 3, 4)?)
}

// Where the word of the class in a register is.
fn class_place(code: &mut Code, to: Register, class: Register) -> Result<(), NoMemory>
    ensures { OnOk result (code.new ≡ code.old ++ parts.class_place to class) }
{
    push_two(
        code,
        constant(to, 2),
        compute(to, Arithmetic::ShiftLeft, class, to),
    )
}

/// A new condition of the class in 0, without slots, is signalled.
#[tactic(auto, unfolding(back_lowering::specs::RoutineCodes::failing_code))]
pub fn failing_code(alloc: Global, at: &Placement) -> Result<Code, NoMemory>
    ensures { IfOk result (λ code. code ≡ routines.failing_code at.now) }
{
    let mut code = Code::new(alloc);
    class_place(&mut code, 2, 0)?;
    instance_begun(&mut code, 0)?;
    instance_raised(&mut code, alloc, at, 8)?;
    Ok(code)
}

/// A new condition of the class in 0, with the word in 1 in its one slot, is signalled.
#[tactic(auto, unfolding(back_lowering::specs::RoutineCodes::failing_with_code))]
pub fn failing_with_code(alloc: Global, at: &Placement) -> Result<Code, NoMemory>
    ensures { IfOk result (λ code. code ≡ routines.failing_with_code at.now) }
{
    let mut code = Code::new(alloc);
    class_place(&mut code, 2, 0)?;
    instance_begun(&mut code, 1)?;
    code.push(store(1, 3, 8))?;
    instance_raised(&mut code, alloc, at, 12)?;
    Ok(code)
}

/// A domain error of the word in 0, which is to be an instance of the class in 1, is signalled.
#[tactic(auto, unfolding(back_lowering::specs::RoutineCodes::domain_code))]
pub fn domain_code(alloc: Global, at: &Placement) -> Result<Code, NoMemory>
    ensures { IfOk result (λ code. code ≡ routines.domain_code at.now) }
{
    let mut code = Code::new(alloc);
    code.push(constant(2, 116))?;
    instance_begun(&mut code, 2)?;
    code.push(store(0, 3, 8))?;
    class_place(&mut code, 4, 1)?;
    push_two(&mut code, load(4, 4, 0), store(4, 3, 12))?;
    instance_raised(&mut code, alloc, at, 16)?;
    Ok(code)
}
