// The code of primitives where they are called: what is quick is done in line, and the rest by the procedure of the primitive.

ghost use Rattle.std.specs.Prelude.{◌≡◌, ◌++◌, ◌+◌, ◌<◌, ◌^◌, [], ◌∷◌, OnOk, IfOk};
ghost use Rattle.lang_meaning.specs.model.ShapeCode.{primitive_number};
ghost use Rattle.mid_arena.specs.FixedWords.{true_address};
ghost use Rattle.back_lowering.specs.Placement.{primitives_from};
ghost use Rattle.back_lowering.specs.Steps as steps;
ghost use Rattle.back_leaves.specs.Elements as elements;
ghost use Rattle.back_lowering.specs.Primitives as primitives;

use crate::leaves::{routine, site_stored};
use crate::numbers::primitive_number;
use crate::registers::registers;
use crate::steps::{
    call, if_different, if_equal, if_likely_equal, load_from, move_word, push_four, push_three,
    push_two, request, setting, where_so,
};
use crate::words::{MOST_REGISTERS, PENDING, PRIMITIVES, TRUE_ADDRESS};
use back_lowering::{Placement, SitePlace};
use base::NoMemory;
use lang_meaning::Primitive;
use mid_arena::steps::{compute, constant, load, store};
use mid_arena::words::{CAR, CDR, CONS, NIL, OBJECT, SIGNAL, VECTOR};
use mid_code::{Arithmetic, Code, Comparison, Register, RegisterList};
use std::alloc::Global;

/// t or nil in d, as two registers compare.
pub fn truth_where(
    alloc: Global,
    how: Comparison,
    d: Register,
    a: Register,
    b: Register,
) -> Result<Code, NoMemory>
    ensures { IfOk result (λ code. code ≡ primitives.truth_where how d a b) }
{
    let truth = truth(alloc, d)?;
    let nil = setting(alloc, d, NIL)?;
    let mut code = Code::new(alloc);
    code.push(where_so(how, a, b, truth, nil))?;
    Ok(code)
}

/// t in d.
pub fn truth(alloc: Global, d: Register) -> Result<Code, NoMemory>
    ensures { IfOk result (λ code. code ≡ steps.load_from d d true_address) }
{
    let mut code = Code::new(alloc);
    load_from(&mut code, d, d, TRUE_ADDRESS)?;
    Ok(code)
}

/// One code where the two lowest bits of a word are these, else the other; t and the next one are used.
pub fn where_tag(
    code: &mut Code,
    of: Register,
    t: Register,
    tag: u32,
    first: Code,
    second: Code,
) -> Result<(), NoMemory>
    requires { t < 2 ^ 62 }
    ensures { OnOk result (code.new ≡ code.old ++ primitives.where_tag of t tag first second) }
{
    push_four(
        code,
        constant(t, 3),
        compute(t, Arithmetic::And, of, t),
        constant(t + 1, tag),
        if_equal(t, t + 1, first, second),
    )
}

/// The same where these are likely.
pub fn where_likely_tag(
    code: &mut Code,
    of: Register,
    t: Register,
    tag: u32,
    likely: Code,
    other: Code,
) -> Result<(), NoMemory>
    requires { t < 2 ^ 62 }
    ensures { OnOk result (code.new ≡ code.old ++ primitives.where_likely_tag of t tag likely other) }
{
    push_four(
        code,
        constant(t, 3),
        compute(t, Arithmetic::And, of, t),
        constant(t + 1, tag),
        if_likely_equal(t, t + 1, likely, other),
    )
}

// One code where the words in two registers are integers, else the other.
fn where_both(
    code: &mut Code,
    first_asked: Register,
    second_asked: Register,
    t: Register,
    first: Code,
    second: Code,
) -> Result<(), NoMemory>
    requires { t < 2 ^ 62 }
    ensures { OnOk result (code.new ≡ code.old ++ primitives.where_integers (first_asked ∷ second_asked ∷ []) t first second) }
{
    let choice = if_likely_equal(t, t + 1, first, second);
    push_three(
        code,
        compute(t, Arithmetic::Or, first_asked, second_asked),
        constant(t + 1, 3),
        compute(t, Arithmetic::And, t, t + 1),
    )?;
    push_two(code, constant(t + 1, 0), choice)
}

/// One code where the words in these registers are integers, else the other; t and the next one are used.
pub fn where_integers(
    code: &mut Code,
    asked: &RegisterList,
    t: Register,
    first: Code,
    second: Code,
) -> Result<(), NoMemory>
    requires { t < 2 ^ 62 }
    ensures { OnOk result (code.new ≡ code.old ++ primitives.where_integers asked.now t first second) }
{
    let Some(first_asked) = asked.get(0) else {
        return code.append_list(first);
    };
    match asked.get(1) {
        None => where_likely_tag(code, *first_asked, t, 0, first, second),
        Some(second_asked) => where_both(code, *first_asked, *second_asked, t, first, second),
    }
}

/// A primitive is applied to the words in registers from d on by its procedure. Where it answers that a condition is to be signalled, it
/// is.
pub fn by_procedure(
    alloc: Global,
    at: &Placement,
    which: Primitive,
    count: usize,
    d: Register,
    site: SitePlace,
) -> Result<Code, NoMemory>
    requires { d + count < 2 ^ 62 }
    ensures { IfOk result (λ code. code ≡ primitives.by_procedure at.now which count d site) }
{
    let procedure = primitive_procedure(at, which)?;
    let pending = routine(at, PENDING)?;
    let mut signalling = Code::new(alloc);
    site_stored(&mut signalling, site, d, d + 1)?;
    signalling.push(call(d, pending, RegisterList::new(alloc)))?;
    let mut code = Code::new(alloc);
    code.push(call(d, procedure, registers(alloc, d, count)?))?;
    code.push(constant(d + 1, SIGNAL))?;
    code.push(if_equal(d, d + 1, signalling, Code::new(alloc)))?;
    Ok(code)
}

// The number of the procedure of a primitive.
fn primitive_procedure(at: &Placement, which: Primitive) -> Result<usize, NoMemory>
    ensures { IfOk result (λ n. n ≡ primitives_from at.now + primitive_number which) }
{
    if at.procedures >= MOST_REGISTERS || at.lambdas >= MOST_REGISTERS {
        return Err(NoMemory);
    }
    let functions = at.procedures + at.lambdas;
    let number = primitive_number(which);
    if number >= PRIMITIVES {
        return Err(NoMemory);
    }
    Ok(functions + functions + number)
}

// The sum or difference in t is moved to d.
fn taken(alloc: Global, d: Register, t: Register) -> Result<Code, NoMemory>
    ensures { IfOk result (λ code. code ≡ steps.move d t ∷ []) }
{
    let mut code = Code::new(alloc);
    code.push(move_word(d, t))?;
    Ok(code)
}

/// The sum of two integers, where it is in range. Where the second is known, one of two tests is.
pub fn sum_where(
    alloc: Global,
    second: Option<u32>,
    d: Register,
    t: Register,
    slow: Code,
) -> Result<Code, NoMemory>
    requires many { d < 2 ^ 62 }
    requires free { t < 2 ^ 62 }
    ensures { IfOk result (λ code. code ≡ primitives.sum_where second d t slow) }
{
    let taken = taken(alloc, d, t)?;
    let mut code = Code::new(alloc);
    code.push(compute(t, Arithmetic::Add, d, d + 1))?;
    match second {
        Some(word) => {
            if word < 0x8000_0000 {
                code.push(where_so(Comparison::Less, t, d, slow, taken))?;
            } else {
                code.push(where_so(Comparison::Less, d, t, slow, taken))?;
            }
        }
        None => {
            push_four(
                &mut code,
                constant(t + 1, 0),
                compute(t + 1, Arithmetic::Less, d + 1, t + 1),
                compute(t + 2, Arithmetic::Less, t, d),
                if_likely_equal(t + 1, t + 2, taken, slow),
            )?;
        }
    }
    Ok(code)
}

/// And the difference.
pub fn difference_where(
    alloc: Global,
    second: Option<u32>,
    d: Register,
    t: Register,
    slow: Code,
) -> Result<Code, NoMemory>
    requires many { d < 2 ^ 62 }
    requires free { t < 2 ^ 62 }
    ensures { IfOk result (λ code. code ≡ primitives.difference_where second d t slow) }
{
    let taken = taken(alloc, d, t)?;
    let mut code = Code::new(alloc);
    code.push(compute(t, Arithmetic::Subtract, d, d + 1))?;
    match second {
        Some(word) => {
            if word < 0x8000_0000 {
                code.push(where_so(Comparison::Less, d, t, slow, taken))?;
            } else {
                code.push(where_so(Comparison::Less, t, d, slow, taken))?;
            }
        }
        None => {
            push_four(
                &mut code,
                constant(t + 1, 0),
                compute(t + 1, Arithmetic::Less, t + 1, d + 1),
                compute(t + 2, Arithmetic::Less, t, d),
                if_likely_equal(t + 1, t + 2, taken, slow),
            )?;
        }
    }
    Ok(code)
}

/// The parts of a cons, from a pointer to it.
pub fn car_into(alloc: Global, to: Register, pointer: Register) -> Result<Code, NoMemory>
    ensures { IfOk result (λ code. code ≡ primitives.car_into to pointer) }
{
    let mut code = Code::new(alloc);
    code.push(load(to, pointer, CAR))?;
    Ok(code)
}

pub fn cdr_into(alloc: Global, to: Register, pointer: Register) -> Result<Code, NoMemory>
    ensures { IfOk result (λ code. code ≡ primitives.cdr_into to pointer) }
{
    let mut code = Code::new(alloc);
    code.push(load(to, pointer, CDR))?;
    Ok(code)
}

/// A cons of the words in d and the next register.
pub fn cons_made(code: &mut Code, d: Register, t: Register) -> Result<(), NoMemory>
    requires many { d < 2 ^ 62 }
    requires free { t < 2 ^ 62 }
    ensures { OnOk result (code.new ≡ code.old ++ primitives.cons_made d t) }
{
    push_four(
        code,
        constant(t, 2),
        request(t, t),
        store(d, t, 0),
        store(d + 1, t, 4),
    )?;
    push_two(
        code,
        constant(t + 1, CONS),
        compute(d, Arithmetic::Add, t, t + 1),
    )
}

// The index is below the number of elements: the element comes to d, and t is 0.
fn element_at(alloc: Global, d: Register, t: Register) -> Result<Code, NoMemory>
    requires many { d < 2 ^ 62 }
    requires free { t < 2 ^ 62 }
    ensures { IfOk result (λ code. code ≡ elements.element_at d t) }
{
    let mut found = Code::new(alloc);
    push_three(
        &mut found,
        compute(t + 1, Arithmetic::Add, d, d + 1),
        load(d, t + 1, 6),
        constant(t, 0),
    )?;
    let mut code = Code::new(alloc);
    code.push(load(t + 1, d, 2))?;
    code.push(where_so(
        Comparison::LessUnsigned,
        d + 1,
        t + 1,
        found,
        Code::new(alloc),
    ))?;
    Ok(code)
}

// It is an object: where it is a vector and the index an integer, so.
fn element_of_object(
    alloc: Global,
    asked: &RegisterList,
    d: Register,
    t: Register,
) -> Result<Code, NoMemory>
    requires many { d < 2 ^ 62 }
    requires free { t < 2 ^ 61 }
    ensures { IfOk result (λ code. code ≡ elements.element_of_object asked.now d t) }
{
    let element = element_at(alloc, d, t)?;
    let mut indexed = Code::new(alloc);
    where_integers(&mut indexed, asked, t + 1, element, Code::new(alloc))?;
    let mut code = Code::new(alloc);
    push_three(
        &mut code,
        load(t + 1, d, -2),
        constant(t + 2, VECTOR),
        if_equal(t + 1, t + 2, indexed, Code::new(alloc)),
    )?;
    Ok(code)
}

/// An element of a vector; t is 1 as long as the element was not taken.
pub fn element_where(
    code: &mut Code,
    alloc: Global,
    asked: &RegisterList,
    d: Register,
    t: Register,
    slow: Code,
) -> Result<(), NoMemory>
    requires many { d < 2 ^ 62 }
    requires free { t < 2 ^ 61 }
    ensures { OnOk result (code.new ≡ code.old ++ primitives.element_where asked.now d t slow) }
{
    let choice = if_different(t, t + 1, slow, Code::new(alloc));
    let vector = element_of_object(alloc, asked, d, t)?;
    code.push(constant(t, 1))?;
    where_tag(code, d, t + 1, OBJECT, vector, Code::new(alloc))?;
    code.push(constant(t + 1, 0))?;
    code.push(choice)
}
