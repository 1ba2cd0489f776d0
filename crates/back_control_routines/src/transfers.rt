// The code of transfers.

ghost use Rattle.std.specs.Prelude.{◌≡◌, ◌++◌, [], ◌∷◌, OnOk, IfOk};
ghost use Rattle.back_lowering.specs.RoutineCodes as routines;
ghost use Rattle.back_control_routines.specs.Parts as parts;

use back_leaves::leaves::routine;
use back_leaves::routine_steps::{returning, signals, turns_while};
use back_leaves::steps::{if_equal, push_four, push_three, push_two, setting, two};
use back_leaves::words::{
    CATCH_KIND, CLEANUP_KIND, CONTROL_ERROR_CLASS, CURRENT, END_KIND, LANDING, LINK, RECORD_KIND,
    RECORD_LINK, RECORD_MARK, RECORD_OUTER, RECORD_SERIAL, RECORD_TAG, SIGNAL_KIND, TARGET,
    TRANSFER,
};
use back_lowering::Placement;
use base::NoMemory;
use mid_arena::steps::{comparing, constant, load, store};
use mid_arena::words::NIL;
use mid_code::{Code, CodeStep, Comparison, Counted, StepKind};
use std::alloc::Global;

/// From the current record outwards to the first that is the target, in 0, or a cleanup, and a cut there with the word in 1.
#[tactic(auto, unfolding(back_lowering::specs::RoutineCodes::transfer_code))]
pub fn transfer_code(alloc: Global, at: &Placement) -> Result<Code, NoMemory>
    ensures { IfOk result (λ code. code ≡ routines.transfer_code at.now) }
{
    let same = setting(alloc, 4, CLEANUP_KIND)?;
    let mut head = Code::new(alloc);
    head.push(load(4, 3, RECORD_KIND))?;
    head.push(if_equal(3, 0, same, Code::new(alloc)))?;
    let mut body = Code::new(alloc);
    body.push(load(3, 3, RECORD_OUTER))?;
    let mut code = Code::new(alloc);
    code.push(constant(2, 0))?;
    code.push(store(0, 2, TARGET))?;
    code.push(load(3, 2, CURRENT))?;
    code.push(constant(5, CLEANUP_KIND))?;
    code.push(turns_while(head, 4, 5, body))?;
    code.push(CodeStep::new(StepKind::Cut { block: 3, word: 1 }))?;
    Ok(code)
}

/// Along the links, where serial numbers fall, as long as they are above the one in 0; then a transfer with the word in 1.
#[tactic(auto, unfolding(back_lowering::specs::RoutineCodes::leave_code))]
pub fn leave_code(alloc: Global, at: &Placement) -> Result<Code, NoMemory>
    ensures { IfOk result (λ code. code ≡ routines.leave_code at.now) }
{
    let transfer = routine(at, TRANSFER)?;
    let wrong = signals(alloc, at, 6, CONTROL_ERROR_CLASS)?;
    let mut found = Code::new(alloc);
    found.push(store(2, 3, LANDING))?;
    returning(&mut found, 6, transfer, two(alloc, 4, 1)?)?;
    let mut head = Code::new(alloc);
    head.push(load(5, 4, RECORD_SERIAL))?;
    let mut body = Code::new(alloc);
    body.push(load(4, 4, RECORD_LINK))?;
    let mut code = Code::new(alloc);
    push_two(&mut code, constant(3, 0), load(4, 3, LINK))?;
    code.push(CodeStep::new(StepKind::Repeat {
        counted: Counted::Turn,
        head,
        test: comparing(Comparison::LessUnsigned, 0, 5),
        body,
    }))?;
    code.push(if_equal(5, 0, found, wrong))?;
    Ok(code)
}

// What is asked of a record, on the way to the first of a kind whose tag is in 0, or to the end.
fn tag_asked(alloc: Global, kind: u32) -> Result<Code, NoMemory>
    ensures { IfOk result (λ code. code ≡ parts.tag_asked kind) }
{
    let same = setting(alloc, 6, 0)?;
    let mut at_tag = Code::new(alloc);
    push_two(
        &mut at_tag,
        load(5, 3, RECORD_TAG),
        if_equal(5, 0, same, Code::new(alloc)),
    )?;
    let mut ended = Code::new(alloc);
    push_two(&mut ended, constant(6, 0), constant(3, 0))?;
    let mut other = Code::new(alloc);
    push_two(
        &mut other,
        constant(5, END_KIND),
        if_equal(4, 5, ended, Code::new(alloc)),
    )?;
    let mut head = Code::new(alloc);
    push_four(
        &mut head,
        constant(6, 1),
        load(4, 3, RECORD_KIND),
        constant(5, kind),
        if_equal(4, 5, at_tag, other),
    )?;
    Ok(head)
}

// Along the links to the first record of a kind whose tag is in 0, or to the end: 3 is that record, or 0.
fn tag_sought(alloc: Global, kind: u32) -> Result<Code, NoMemory>
    ensures { IfOk result (λ code. code ≡ parts.tag_sought kind) }
{
    let head = tag_asked(alloc, kind)?;
    let mut body = Code::new(alloc);
    body.push(load(3, 3, RECORD_LINK))?;
    let mut code = Code::new(alloc);
    push_three(
        &mut code,
        constant(2, 0),
        load(3, 2, LINK),
        turns_while(head, 6, 2, body),
    )?;
    Ok(code)
}

// The transfer goes to the record that was found.
fn transfers_to_found(alloc: Global, at: &Placement) -> Result<Code, NoMemory>
    ensures { IfOk result (λ code. code ≡ routines.transfers_to_found at.now) }
{
    let transfer = routine(at, TRANSFER)?;
    let mut code = Code::new(alloc);
    code.push(store(2, 2, LANDING))?;
    returning(&mut code, 6, transfer, two(alloc, 3, 1)?)?;
    Ok(code)
}

/// To the innermost exit of the tag in 0, with the word in 1.
#[tactic(auto, unfolding(back_lowering::specs::RoutineCodes::throw_code))]
pub fn throw_code(alloc: Global, at: &Placement) -> Result<Code, NoMemory>
    ensures { IfOk result (λ code. code ≡ routines.throw_code at.now) }
{
    let wrong = signals(alloc, at, 6, CONTROL_ERROR_CLASS)?;
    let found = transfers_to_found(alloc, at)?;
    let mut code = tag_sought(alloc, CATCH_KIND)?;
    code.push(if_equal(3, 2, wrong, found))?;
    Ok(code)
}

// A condition that is not continuable is not continued.
fn continued(alloc: Global, at: &Placement) -> Result<Code, NoMemory>
    ensures { IfOk result (λ code. code ≡ parts.continued at.now) }
{
    let wrong = signals(alloc, at, 6, CONTROL_ERROR_CLASS)?;
    let found = transfers_to_found(alloc, at)?;
    let mut code = Code::new(alloc);
    push_three(
        &mut code,
        load(4, 3, RECORD_MARK),
        constant(5, NIL),
        if_equal(4, 5, wrong, found),
    )?;
    Ok(code)
}

/// To the innermost signal of the condition in 0, with the word in 1.
#[tactic(auto, unfolding(back_lowering::specs::RoutineCodes::continue_code))]
pub fn continue_code(alloc: Global, at: &Placement) -> Result<Code, NoMemory>
    ensures { IfOk result (λ code. code ≡ routines.continue_code at.now) }
{
    let wrong = signals(alloc, at, 6, CONTROL_ERROR_CLASS)?;
    let found = continued(alloc, at)?;
    let mut code = tag_sought(alloc, SIGNAL_KIND)?;
    code.push(if_equal(3, 2, wrong, found))?;
    Ok(code)
}
