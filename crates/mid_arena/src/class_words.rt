// The steps that find the word of the class of a value.

ghost use Rattle.std.specs.Prelude.{◌≡◌, ◌++◌, [], ◌∷◌, IfOk, OnOk};
ghost use Rattle.mid_arena.specs.Steps as steps;

use crate::steps::{comparing, compute_by, constant, either, load};
use crate::words::{
    BUILT_IN_CLASS, CHARACTER_CLASS, CLASS, CONS_BITS, CONS_CLASS, FUNCTION, FUNCTION_CLASS,
    GENERIC, GENERIC_CLASS, HEADER, INTEGER_BITS, INTEGER_CLASS, NIL, NULL_CLASS, OBJECT_BITS,
    SECOND, STANDARD_CLASS, STREAM_CLASS, STRING, STRING_CLASS, SYMBOL, SYMBOL_CLASS, VECTOR,
    VECTOR_CLASS,
};
use base::NoMemory;
use mid_code::{Arithmetic, Code, Comparison, Register, Test};
use std::alloc::Global;

// The word of the class at a fixed address.
fn fixed(alloc: Global, to: Register, class: i32) -> Result<Code, NoMemory>
    ensures { IfOk result (λ code. code ≡ steps.load to 5 class ∷ []) }
{
    let mut code = Code::new(alloc);
    code.push(load(to, 5, class))?;
    Ok(code)
}

// That class where the word in a register is that one, else what follows.
fn class_where(
    alloc: Global,
    to: Register,
    register: Register,
    word: u32,
    class: i32,
    otherwise: Code,
) -> Result<Code, NoMemory>
    ensures { IfOk result (λ code. code ≡ steps.class_where to register word class otherwise) }
{
    let found = fixed(alloc, to, class)?;
    let mut code = Code::new(alloc);
    code.push(constant(6, word))?;
    code.push(either(comparing(Comparison::Equal, register, 6), found, otherwise))?;
    Ok(code)
}

// One class where the word in register 7 is below another, else the other class.
fn class_below(
    alloc: Global,
    to: Register,
    word: u32,
    class: i32,
    other: i32,
) -> Result<Code, NoMemory>
    ensures { IfOk result (λ code. code ≡ steps.class_below to word class other) }
{
    let below = fixed(alloc, to, class)?;
    let above = fixed(alloc, to, other)?;
    let mut code = Code::new(alloc);
    code.push(constant(6, word))?;
    code.push(either(comparing(Comparison::LessUnsigned, 7, 6), below, above))?;
    Ok(code)
}

// The class of a class.
fn class_of_class(alloc: Global, to: Register, of: Register) -> Result<Code, NoMemory>
    ensures { IfOk result (λ code. code ≡ steps.class_of_class to of) }
{
    let rest = class_below(alloc, to, 68, BUILT_IN_CLASS, STANDARD_CLASS)?;
    let mut code = Code::new(alloc);
    code.push(load(7, of, SECOND))?;
    code.append_list(rest)?;
    Ok(code)
}

// The class of an object that is no instance, by its header.
#[tactic(auto, unfolding(crate::specs::Steps::class_by_header))]
fn class_by_header(alloc: Global, to: Register, of: Register) -> Result<Code, NoMemory>
    ensures { IfOk result (λ code. code ≡ steps.class_by_header to of) }
{
    let rest = class_below(alloc, to, SYMBOL, STREAM_CLASS, SYMBOL_CLASS)?;
    let rest = class_where(alloc, to, 7, GENERIC, GENERIC_CLASS, rest)?;
    let rest = class_where(alloc, to, 7, FUNCTION, FUNCTION_CLASS, rest)?;
    let rest = class_where(alloc, to, 7, VECTOR, VECTOR_CLASS, rest)?;
    let rest = class_where(alloc, to, 7, STRING, STRING_CLASS, rest)?;
    let class = class_of_class(alloc, to, of)?;
    let mut code = Code::new(alloc);
    code.push(constant(6, CLASS))?;
    code.push(either(comparing(Comparison::Equal, 7, 6), class, rest))?;
    Ok(code)
}

// The class of an object: an instance has it, the others by their headers.
#[tactic(auto, unfolding(crate::specs::Steps::class_of_object))]
fn class_of_object(alloc: Global, to: Register, of: Register) -> Result<Code, NoMemory>
    ensures { IfOk result (λ code. code ≡ steps.class_of_object to of) }
{
    let others = class_by_header(alloc, to, of)?;
    let mut instance = Code::new(alloc);
    instance.push(load(to, of, SECOND))?;
    let mut code = Code::new(alloc);
    code.push(load(7, of, HEADER))?;
    compute_by(&mut code, 4, Arithmetic::ShiftLeft, 7, 28)?;
    code.push(constant(6, 805306368))?;
    code.push(either(comparing(Comparison::Equal, 4, 6), instance, others))?;
    Ok(code)
}

/// The word of the class of a value.
#[tactic(auto, unfolding(crate::specs::Steps::class_word))]
pub fn class_word(alloc: Global, to: Register, of: Register) -> Result<Code, NoMemory>
    ensures { IfOk result (λ code. code ≡ steps.class_word to of) }
{
    let character = fixed(alloc, to, CHARACTER_CLASS)?;
    let immediate = class_where(alloc, to, of, NIL, NULL_CLASS, character)?;
    let object = class_of_object(alloc, to, of)?;
    let mut rest = Code::new(alloc);
    rest.push(constant(6, OBJECT_BITS))?;
    rest.push(either(comparing(Comparison::Equal, 7, 6), object, immediate))?;
    let rest = class_where(alloc, to, 7, CONS_BITS, CONS_CLASS, rest)?;
    let rest = class_where(alloc, to, 7, INTEGER_BITS, INTEGER_CLASS, rest)?;
    let mut code = Code::new(alloc);
    code.push(constant(5, 0))?;
    compute_by(&mut code, 7, Arithmetic::ShiftLeft, of, 30)?;
    code.append_list(rest)?;
    Ok(code)
}
