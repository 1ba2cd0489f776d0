// The code of lists of arguments, of calls of methods that are kept, of bindings and of classes.

ghost use Rattle.std.specs.Prelude.{◌≡◌, ◌++◌, [], ◌∷◌, OnOk, IfOk};
ghost use Rattle.back_lowering.specs.RoutineCodes as routines;
ghost use Rattle.back_control_routines.specs.Parts as parts;

use back_leaves::routine_steps::{add_to, turns_while};
use back_leaves::steps::{if_equal, move_word, push_four, push_three, push_two, request, setting};
use back_leaves::words::BINDINGS;
use back_lowering::Placement;
use base::NoMemory;
use mid_arena::class_words::class_word;
use mid_arena::steps::{compute, constant, load, return_word, store};
use mid_arena::words::{CONS, NIL};
use mid_code::{Arithmetic, Code};
use std::alloc::Global;

/// The words of a binding's cell, by offsets.
const VARIABLE: i32 = 0;

const VALUE: u32 = 4;

const OUTER: i32 = 8;

/// Nothing is done, a level below.
#[tactic(auto, unfolding(back_lowering::specs::RoutineCodes::level_code))]
pub fn level_code(alloc: Global, at: &Placement) -> Result<Code, NoMemory>
    ensures { IfOk result (λ code. code ≡ routines.level_code at.now) }
{
    let mut code = Code::new(alloc);
    push_two(&mut code, constant(0, 0), return_word(0))?;
    Ok(code)
}

// A cons of the last word that is left, in front of the list in 2.
fn cons_in_front(alloc: Global) -> Result<Code, NoMemory>
    ensures { IfOk result (λ code. code ≡ parts.cons_in_front) }
{
    let mut code = Code::new(alloc);
    push_four(
        &mut code,
        constant(4, 1),
        compute(1, Arithmetic::Subtract, 1, 4),
        constant(4, 4),
        compute(0, Arithmetic::Subtract, 0, 4),
    )?;
    push_four(
        &mut code,
        load(5, 0, 0),
        constant(4, 2),
        request(4, 4),
        store(5, 4, 0),
    )?;
    push_three(
        &mut code,
        store(2, 4, 4),
        constant(5, CONS),
        compute(2, Arithmetic::Add, 4, 5),
    )?;
    Ok(code)
}

/// A list of as many words as 1 says, at the address in 0.
#[tactic(auto, unfolding(back_lowering::specs::RoutineCodes::list_code))]
pub fn list_code(alloc: Global, at: &Placement) -> Result<Code, NoMemory>
    ensures { IfOk result (λ code. code ≡ routines.list_code at.now) }
{
    let body = cons_in_front(alloc)?;
    let mut code = Code::new(alloc);
    push_four(
        &mut code,
        constant(3, 2),
        compute(4, Arithmetic::ShiftLeft, 1, 3),
        compute(0, Arithmetic::Add, 0, 4),
        constant(2, NIL),
    )?;
    push_three(
        &mut code,
        constant(3, 0),
        turns_while(Code::new(alloc), 1, 3, body),
        return_word(2),
    )?;
    Ok(code)
}

// One word is copied.
fn word_copied(alloc: Global) -> Result<Code, NoMemory>
    ensures { IfOk result (λ code. code ≡ parts.word_copied) }
{
    let mut code = Code::new(alloc);
    push_two(&mut code, load(7, 2, 0), store(7, 6, 0))?;
    add_to(&mut code, 2, 7, 4)?;
    add_to(&mut code, 6, 7, 4)?;
    Ok(code)
}

/// The chain in 0, the number in 1 and the words at 2, copied into the heap; where the words' copy is.
#[tactic(auto, unfolding(back_lowering::specs::RoutineCodes::method_code))]
pub fn method_code(alloc: Global, at: &Placement) -> Result<Code, NoMemory>
    ensures { IfOk result (λ code. code ≡ routines.method_code at.now) }
{
    let body = word_copied(alloc)?;
    let mut code = Code::new(alloc);
    push_three(
        &mut code,
        constant(3, 2),
        compute(4, Arithmetic::Add, 1, 3),
        request(4, 4),
    )?;
    push_two(&mut code, store(0, 4, 0), store(1, 4, 4))?;
    add_to(&mut code, 4, 5, 8)?;
    push_three(
        &mut code,
        compute(5, Arithmetic::ShiftLeft, 1, 3),
        compute(5, Arithmetic::Add, 5, 2),
        move_word(6, 4),
    )?;
    push_two(
        &mut code,
        turns_while(Code::new(alloc), 2, 5, body),
        return_word(4),
    )?;
    Ok(code)
}

// Whether a binding is of another variable.
fn binding_asked(alloc: Global) -> Result<Code, NoMemory>
    ensures { IfOk result (λ code. code ≡ parts.binding_asked) }
{
    let other = setting(alloc, 4, 1)?;
    let mut cell = Code::new(alloc);
    push_two(
        &mut cell,
        load(3, 2, VARIABLE),
        if_equal(3, 0, Code::new(alloc), other),
    )?;
    let mut code = Code::new(alloc);
    push_two(
        &mut code,
        constant(4, 0),
        if_equal(2, 1, Code::new(alloc), cell),
    )?;
    Ok(code)
}

/// Where the value of the innermost binding of a variable is, by the address of its outermost value, in 0.
#[tactic(auto, unfolding(back_lowering::specs::RoutineCodes::binding_code))]
pub fn binding_code(alloc: Global, at: &Placement) -> Result<Code, NoMemory>
    ensures { IfOk result (λ code. code ≡ routines.binding_code at.now) }
{
    let head = binding_asked(alloc)?;
    let mut body = Code::new(alloc);
    body.push(load(2, 2, OUTER))?;
    let mut outermost = Code::new(alloc);
    outermost.push(return_word(0))?;
    let mut inner = Code::new(alloc);
    add_to(&mut inner, 2, 3, VALUE)?;
    inner.push(return_word(2))?;
    let mut code = Code::new(alloc);
    push_four(
        &mut code,
        constant(1, 0),
        load(2, 1, BINDINGS),
        turns_while(head, 4, 1, body),
        if_equal(2, 1, outermost, inner),
    )?;
    Ok(code)
}

/// The number of the class of the value in 0, four times.
#[tactic(auto, unfolding(back_lowering::specs::RoutineCodes::class_code))]
pub fn class_code(alloc: Global, at: &Placement) -> Result<Code, NoMemory>
    ensures { IfOk result (λ code. code ≡ routines.class_code at.now) }
{
    let mut code = class_word(alloc, 1, 0)?;
    push_two(&mut code, load(1, 1, 2), return_word(1))?;
    Ok(code)
}
