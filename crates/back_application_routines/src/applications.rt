// The code of applications.

ghost use Rattle.std.specs.Prelude.{◌≡◌, ◌++◌, ◌+◌, ◌<◌, ◌^◌, [], ◌∷◌, OnOk, IfOk};
ghost use Rattle.back_lowering.specs.RoutineCodes as routines;
ghost use Rattle.back_application_routines.specs.Parts as parts;

use back_leaves::leaves::routine;
use back_leaves::primitives::{car_into, where_tag};
use back_leaves::routine_steps::{
    call_number, four, returning, signals, signals_domain, turns_while,
};
use back_leaves::steps::{
    call, if_different, if_equal, move_word, one, push_four, push_three, push_two, setting, three,
    two, where_so,
};
use back_leaves::words::{
    CHAIN, CLASS, FAILING_WITH, FUNCTION_CLASS, GENERIC, IS_FUNCTION, LEVEL, LIST_CLASS,
    PROGRAM_ERROR_CLASS, UNDEFINED_FUNCTION_CLASS,
};
use back_lowering::Placement;
use base::NoMemory;
use mid_arena::steps::{comparing, compute, constant, load, return_word, store};
use mid_arena::words::{CONS, FUNCTION, GENERIC as GENERIC_HEADER, NIL, OBJECT};
use mid_code::{Arithmetic, Code, CodeStep, Comparison, Counted, Register, RegisterList, StepKind};
use std::alloc::Global;

/// The words of a generic function, by offsets.
const ARITY: i32 = 0;

const NAME: i32 = 4;

const SPECIALISED: i32 = 8;

const GROUPS: u32 = 12;

// A wrong number of arguments is judged a level below.
fn wrong_number(alloc: Global, at: &Placement, t: Register) -> Result<Code, NoMemory>
    ensures { IfOk result (λ code. code ≡ routines.wrong_number at.now t) }
{
    let level = routine(at, LEVEL)?;
    let signalled = signals(alloc, at, t, PROGRAM_ERROR_CLASS)?;
    let mut code = Code::new(alloc);
    code.push(call(t, level, RegisterList::new(alloc)))?;
    code.append_list(signalled)?;
    Ok(code)
}

// Whether so many arguments as in `count` are taken; what is done where they are not is given twice.
fn where_takes(
    code: &mut Code,
    alloc: Global,
    arity: Register,
    count: Register,
    t: Register,
    few: Code,
    other: Code,
) -> Result<(), NoMemory>
    requires same { other ≡ few }
    requires free { t < 2 ^ 61 }
    ensures { OnOk result (code.new ≡ code.old ++ parts.where_takes arity count t few) }
{
    let mut least = Code::new(alloc);
    least.push(where_so(
        Comparison::LessUnsigned,
        count,
        t + 2,
        few,
        Code::new(alloc),
    ))?;
    let mut just = Code::new(alloc);
    just.push(where_so(Comparison::Different, count, t + 2, other, Code::new(alloc)))?;
    push_four(
        code,
        constant(t, 1),
        compute(t + 1, Arithmetic::And, arity, t),
        compute(t + 2, Arithmetic::ShiftRight, arity, t),
        if_equal(t + 1, t, least, just),
    )
}

// The arity of the function in a register, whose number comes to n.
fn arity_into(
    code: &mut Code,
    at: &Placement,
    to: Register,
    n: Register,
    f: Register,
) -> Result<(), NoMemory>
    requires { to < 2 ^ 61 }
    ensures { OnOk result (code.new ≡ code.old ++ routines.arity_into at.now to n f) }
{
    push_three(
        code,
        load(n, f, 2),
        constant(to, 2),
        compute(to, Arithmetic::ShiftLeft, n, to),
    )?;
    push_three(
        code,
        constant(to + 1, at.arities),
        compute(to, Arithmetic::Add, to, to + 1),
        load(to, to, 0),
    )
}

// The words of the generic function in a register.
fn generic_into(
    code: &mut Code,
    at: &Placement,
    to: Register,
    t: Register,
    f: Register,
) -> Result<(), NoMemory>
    ensures { OnOk result (code.new ≡ code.old ++ routines.generic_into at.now to t f) }
{
    push_four(
        code,
        load(to, f, 2),
        constant(t, at.generics),
        compute(to, Arithmetic::Add, to, t),
        load(to, to, 0),
    )
}

// One thing for an object that is a function, another for a generic function.
fn object_by_function(
    alloc: Global,
    t: Register,
    function: Code,
    generic: Code,
) -> Result<Code, NoMemory>
    requires { t < 2 ^ 61 }
    ensures { IfOk result (λ code. code ≡ parts.object_by_function t function generic) }
{
    let mut other = setting(alloc, t + 1, GENERIC_HEADER)?;
    other.push(if_equal(t, t + 1, generic, Code::new(alloc)))?;
    let mut code = Code::new(alloc);
    push_three(
        &mut code,
        load(t, 0, -2),
        constant(t + 1, FUNCTION),
        if_equal(t, t + 1, function, other),
    )?;
    Ok(code)
}

// The same for any value.
fn by_function(
    code: &mut Code,
    alloc: Global,
    t: Register,
    function: Code,
    generic: Code,
) -> Result<(), NoMemory>
    requires { t < 2 ^ 61 }
    ensures { OnOk result (code.new ≡ code.old ++ parts.by_function t function generic) }
{
    let object = object_by_function(alloc, t, function, generic)?;
    where_tag(code, 0, t, OBJECT, object, Code::new(alloc))
}

// A function is applied.
fn function_applied(alloc: Global, at: &Placement) -> Result<Code, NoMemory>
    ensures { IfOk result (λ code. code ≡ parts.function_applied at.now) }
{
    let few = wrong_number(alloc, at, 6)?;
    let other = wrong_number(alloc, at, 6)?;
    let mut code = Code::new(alloc);
    arity_into(&mut code, at, 3, 5, 0)?;
    where_takes(&mut code, alloc, 3, 1, 6, few, other)?;
    let arguments = four(alloc, 0, 3, 1, 2)?;
    push_three(
        &mut code,
        constant(3, 0),
        call_number(6, 5, arguments),
        return_word(6),
    )?;
    Ok(code)
}

// A generic function is applied.
fn generic_applied(alloc: Global, at: &Placement) -> Result<Code, NoMemory>
    ensures { IfOk result (λ code. code ≡ parts.generic_applied at.now) }
{
    let generic = routine(at, GENERIC)?;
    let mut code = Code::new(alloc);
    generic_into(&mut code, at, 3, 4, 0)?;
    returning(&mut code, 6, generic, three(alloc, 3, 1, 2)?)?;
    Ok(code)
}

/// The value in 0 is applied to as many words as 1 says, at the address in 2.
#[tactic(auto, unfolding(back_lowering::specs::RoutineCodes::function_code))]
pub fn function_code(alloc: Global, at: &Placement) -> Result<Code, NoMemory>
    ensures { IfOk result (λ code. code ≡ routines.function_code at.now) }
{
    let function = function_applied(alloc, at)?;
    let generic = generic_applied(alloc, at)?;
    let wrong = signals_domain(alloc, at, 0, 3, FUNCTION_CLASS)?;
    let mut code = Code::new(alloc);
    by_function(&mut code, alloc, 3, function, generic)?;
    code.append_list(wrong)?;
    Ok(code)
}

/// Whether the value in 0 is a function.
#[tactic(auto, unfolding(back_lowering::specs::RoutineCodes::is_function_code))]
pub fn is_function_code(alloc: Global, at: &Placement) -> Result<Code, NoMemory>
    ensures { IfOk result (λ code. code ≡ routines.is_function_code at.now) }
{
    let mut function = setting(alloc, 1, 1)?;
    function.push(return_word(1))?;
    let mut generic = setting(alloc, 1, 1)?;
    generic.push(return_word(1))?;
    let mut code = Code::new(alloc);
    by_function(&mut code, alloc, 1, function, generic)?;
    push_two(&mut code, constant(1, 0), return_word(1))?;
    Ok(code)
}

// How far the next step of the count is.
fn count_doubled(alloc: Global) -> Result<Code, NoMemory>
    ensures { IfOk result (λ code. code ≡ parts.count_doubled) }
{
    let mut doubled = Code::new(alloc);
    push_three(
        &mut doubled,
        move_word(4, 3),
        compute(5, Arithmetic::Add, 5, 5),
        move_word(6, 5),
    )?;
    let mut code = Code::new(alloc);
    push_four(
        &mut code,
        constant(7, 1),
        compute(6, Arithmetic::Subtract, 6, 7),
        constant(7, 0),
        if_equal(6, 7, doubled, Code::new(alloc)),
    )?;
    Ok(code)
}

// One cons is counted.
fn cons_counted(alloc: Global) -> Result<CodeStep, NoMemory>
    ensures { IfOk result (λ step. step ≡ parts.conses_counted) }
{
    let doubled = count_doubled(alloc)?;
    let circle = setting(alloc, 3, 0)?;
    let mut body = Code::new(alloc);
    push_four(
        &mut body,
        constant(7, 1),
        compute(2, Arithmetic::Add, 2, 7),
        load(3, 3, 3),
        if_equal(3, 4, circle, doubled),
    )?;
    let mut head = Code::new(alloc);
    push_three(
        &mut head,
        constant(7, 3),
        compute(7, Arithmetic::And, 3, 7),
        constant(8, CONS),
    )?;
    Ok(CodeStep::new(StepKind::Repeat {
        counted: Counted::Turn,
        head,
        test: comparing(Comparison::Equal, 7, 8),
        body,
    }))
}

// How many conses the list in 1 has.
fn list_counted(alloc: Global) -> Result<Code, NoMemory>
    ensures { IfOk result (λ code. code ≡ parts.list_counted) }
{
    let counting = cons_counted(alloc)?;
    let mut code = Code::new(alloc);
    push_three(&mut code, constant(2, 0), move_word(3, 1), move_word(4, 1))?;
    push_three(&mut code, constant(5, 1), constant(6, 1), counting)?;
    Ok(code)
}

// The words of the list in 1 are copied to the address in 9.
fn list_copied(alloc: Global) -> Result<Code, NoMemory>
    ensures { IfOk result (λ code. code ≡ parts.list_copied) }
{
    let mut body = car_into(alloc, 6, 3)?;
    push_four(
        &mut body,
        store(6, 4, 0),
        load(3, 3, 3),
        constant(6, 4),
        compute(4, Arithmetic::Add, 4, 6),
    )?;
    let mut code = Code::new(alloc);
    push_four(
        &mut code,
        move_word(3, 1),
        move_word(4, 9),
        constant(5, NIL),
        turns_while(Code::new(alloc), 3, 5, body),
    )?;
    Ok(code)
}

// The element of the list whose offset is in 7 comes to 7, on from the cons in 10, whose offset is in 11.
fn element_into(alloc: Global) -> Result<Code, NoMemory>
    ensures { IfOk result (λ code. code ≡ parts.element_into) }
{
    let element = car_into(alloc, 7, 10)?;
    let mut body = Code::new(alloc);
    push_three(
        &mut body,
        load(10, 10, 3),
        constant(8, 4),
        compute(11, Arithmetic::Add, 11, 8),
    )?;
    let mut code = Code::new(alloc);
    code.push(turns_while(Code::new(alloc), 11, 7, body))?;
    code.append_list(element)?;
    Ok(code)
}

// One specialised argument of a call.
fn group_added(alloc: Global, at: &Placement, argument: Code) -> Result<Code, NoMemory>
    ensures { IfOk result (λ code. code ≡ parts.group_added at.now argument) }
{
    let class = routine(at, CLASS)?;
    let mut code = Code::new(alloc);
    code.push(load(7, 4, 0))?;
    code.append_list(argument)?;
    code.push(call(7, class, one(alloc, 7)?))?;
    push_four(
        &mut code,
        load(8, 4, 4),
        compute(7, Arithmetic::Add, 7, 8),
        load(7, 7, 0),
        compute(5, Arithmetic::Add, 5, 7),
    )?;
    push_four(
        &mut code,
        constant(7, 8),
        compute(4, Arithmetic::Add, 4, 7),
        constant(7, 1),
        compute(3, Arithmetic::Subtract, 3, 7),
    )?;
    Ok(code)
}

// The offset of the tuple of groups of a call.
fn groups_added(alloc: Global, at: &Placement, argument: Code) -> Result<Code, NoMemory>
    ensures { IfOk result (λ code. code ≡ routines.groups_added at.now argument) }
{
    let body = group_added(alloc, at, argument)?;
    let mut code = Code::new(alloc);
    push_three(
        &mut code,
        constant(5, 0),
        constant(6, 0),
        turns_while(Code::new(alloc), 3, 6, body),
    )?;
    Ok(code)
}

// There is no chain: the function is undefined.
fn undefined(alloc: Global, at: &Placement) -> Result<Code, NoMemory>
    ensures { IfOk result (λ code. code ≡ parts.undefined at.now) }
{
    let failing = routine(at, FAILING_WITH)?;
    let mut code = Code::new(alloc);
    let arguments = two(alloc, 8, 7)?;
    push_four(
        &mut code,
        load(7, 0, NAME),
        constant(8, UNDEFINED_FUNCTION_CLASS),
        call(7, failing, arguments),
        return_word(7),
    )?;
    Ok(code)
}

// The chain of a call of the generic function whose words are at 0 comes to 4.
fn chain_sought(alloc: Global, at: &Placement, argument: Code) -> Result<Code, NoMemory>
    ensures { IfOk result (λ code. code ≡ routines.chain_sought at.now argument) }
{
    let groups = groups_added(alloc, at, argument)?;
    let none = undefined(alloc, at)?;
    let mut code = Code::new(alloc);
    push_three(
        &mut code,
        load(3, 0, SPECIALISED),
        constant(4, GROUPS),
        compute(4, Arithmetic::Add, 4, 0),
    )?;
    code.append_list(groups)?;
    push_three(
        &mut code,
        compute(4, Arithmetic::Add, 4, 5),
        load(4, 4, 0),
        if_equal(4, 6, none, Code::new(alloc)),
    )?;
    Ok(code)
}

/// The generic function whose words are at 0 is applied to as many words as 1 says, at the address in 2.
#[tactic(auto, unfolding(back_lowering::specs::RoutineCodes::generic_code))]
pub fn generic_code(alloc: Global, at: &Placement) -> Result<Code, NoMemory>
    ensures { IfOk result (λ code. code ≡ routines.generic_code at.now) }
{
    let run = routine(at, CHAIN)?;
    let few = signals(alloc, at, 4, PROGRAM_ERROR_CLASS)?;
    let other = signals(alloc, at, 4, PROGRAM_ERROR_CLASS)?;
    let mut argument = Code::new(alloc);
    push_two(
        &mut argument,
        compute(7, Arithmetic::Add, 7, 2),
        load(7, 7, 0),
    )?;
    let sought = chain_sought(alloc, at, argument)?;
    let mut code = Code::new(alloc);
    code.push(load(3, 0, ARITY))?;
    where_takes(&mut code, alloc, 3, 1, 4, few, other)?;
    code.append_list(sought)?;
    returning(&mut code, 7, run, three(alloc, 4, 1, 2)?)?;
    Ok(code)
}

// The elements of the list are words of a block while the steps run.
fn lent(inside: Code) -> CodeStep
    ensures { result ≡ parts.lent inside }
{
    CodeStep::new(StepKind::Lend {
        block: 9,
        words: 2,
        inside,
    })
}

// A function is applied to them, where there is a level.
fn function_spread(alloc: Global, at: &Placement) -> Result<Code, NoMemory>
    ensures { IfOk result (λ code. code ≡ parts.function_spread at.now) }
{
    let few = wrong_number(alloc, at, 5)?;
    let other = wrong_number(alloc, at, 5)?;
    let level = routine(at, LEVEL)?;
    let mut inside = list_copied(alloc)?;
    let arguments = four(alloc, 0, 3, 2, 9)?;
    push_two(&mut inside, constant(3, 0), call_number(10, 11, arguments))?;
    let mut code = Code::new(alloc);
    arity_into(&mut code, at, 3, 11, 0)?;
    where_takes(&mut code, alloc, 3, 2, 5, few, other)?;
    push_three(
        &mut code,
        call(10, level, RegisterList::new(alloc)),
        lent(inside),
        return_word(10),
    )?;
    Ok(code)
}

// A chain is, where there is a level.
fn chain_spread(alloc: Global, at: &Placement) -> Result<Code, NoMemory>
    ensures { IfOk result (λ code. code ≡ parts.chain_spread at.now) }
{
    let run = routine(at, CHAIN)?;
    let level = routine(at, LEVEL)?;
    let mut inside = list_copied(alloc)?;
    inside.push(call(10, run, three(alloc, 11, 2, 9)?))?;
    let mut code = Code::new(alloc);
    push_four(
        &mut code,
        move_word(11, 4),
        call(10, level, RegisterList::new(alloc)),
        lent(inside),
        return_word(10),
    )?;
    Ok(code)
}

// A generic function is, whose chain is sought before.
fn generic_spread(alloc: Global, at: &Placement) -> Result<Code, NoMemory>
    ensures { IfOk result (λ code. code ≡ parts.generic_spread at.now) }
{
    let few = signals(alloc, at, 4, PROGRAM_ERROR_CLASS)?;
    let other = signals(alloc, at, 4, PROGRAM_ERROR_CLASS)?;
    let sought = chain_sought(alloc, at, element_into(alloc)?)?;
    let run = chain_spread(alloc, at)?;
    let mut code = Code::new(alloc);
    generic_into(&mut code, at, 11, 4, 0)?;
    push_two(&mut code, move_word(0, 11), load(3, 0, ARITY))?;
    where_takes(&mut code, alloc, 3, 2, 4, few, other)?;
    push_two(&mut code, move_word(10, 1), constant(11, 0))?;
    code.append_list(sought)?;
    code.append_list(run)?;
    Ok(code)
}

/// The value in 0 is applied to the elements of the list in 1.
#[tactic(auto, unfolding(back_lowering::specs::RoutineCodes::apply_code))]
pub fn apply_code(alloc: Global, at: &Placement) -> Result<Code, NoMemory>
    ensures { IfOk result (λ code. code ≡ routines.apply_code at.now) }
{
    let is_function = routine(at, IS_FUNCTION)?;
    let no_function = signals_domain(alloc, at, 0, 2, FUNCTION_CLASS)?;
    let counted = list_counted(alloc)?;
    let no_list = signals_domain(alloc, at, 1, 2, LIST_CLASS)?;
    let function = function_spread(alloc, at)?;
    let generic = generic_spread(alloc, at)?;
    let wrong = signals_domain(alloc, at, 0, 3, FUNCTION_CLASS)?;
    let mut code = Code::new(alloc);
    let asked = one(alloc, 0)?;
    push_three(
        &mut code,
        call(2, is_function, asked),
        constant(3, 0),
        if_equal(2, 3, no_function, Code::new(alloc)),
    )?;
    code.append_list(counted)?;
    push_two(
        &mut code,
        constant(4, NIL),
        if_different(3, 4, no_list, Code::new(alloc)),
    )?;
    by_function(&mut code, alloc, 3, function, generic)?;
    code.append_list(wrong)?;
    Ok(code)
}
