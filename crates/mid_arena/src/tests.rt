// The steps that test an argument.

ghost use Rattle.std.specs.Prelude.{◌≡◌, ◌++◌, [], ◌∷◌, OnOk};
ghost use Rattle.mid_arena.specs.Steps as steps;
ghost use Rattle.mid_arena.specs.Steps.{steps_of};
ghost use Rattle.mid_arena.specs.declared.line.Line.TheVariants as line;

use crate::signals::{domain_error, signal_unless};
use crate::steps::{comparing, compute_by, constant, either, load};
use crate::words::{
    CHARACTER_CLASS, HEADER, INTEGER_BITS, INTEGER_CLASS, NIL, OBJECT_BITS, PROGRAM_ERROR, SECOND,
    SYMBOL, SYMBOL_CLASS,
};
use base::NoMemory;
use mid_code::{Arithmetic, Code, Comparison, Register, Test};
use std::alloc::Global;

/// The test has to hold, or the argument is a domain error.
pub fn need_test(
    code: &mut Code,
    alloc: Global,
    test: Test,
    of: Register,
    class: i32,
) -> Result<(), NoMemory>
    ensures { OnOk result (code.new ≡ code.old ++ steps.either test [] (steps.domain_error of class) ∷ []) }
{
    let error = domain_error(alloc, of, class)?;
    code.push(either(test, Code::new(alloc), error))
}

/// The argument has to have that tag.
pub fn need_tag(
    code: &mut Code,
    alloc: Global,
    of: Register,
    bits: u32,
    class: i32,
) -> Result<(), NoMemory>
    ensures { OnOk result (code.new ≡ code.old ++ steps.need_tag of bits class) }
{
    compute_by(code, 7, Arithmetic::ShiftLeft, of, 30)?;
    code.push(constant(6, bits))?;
    need_test(code, alloc, comparing(Comparison::Equal, 7, 6), of, class)
}

/// It has to be an integer.
pub fn need_integer(code: &mut Code, alloc: Global, of: Register) -> Result<(), NoMemory>
    ensures { OnOk result (code.new ≡ code.old ++ steps.need_integer of) }
{
    need_tag(code, alloc, of, INTEGER_BITS, INTEGER_CLASS)
}

/// Both arguments have to be integers.
pub fn need_integers(code: &mut Code, alloc: Global) -> Result<(), NoMemory>
    ensures { OnOk result (code.new ≡ code.old ++ steps_of line.NeedIntegers) }
{
    need_integer(code, alloc, 0)?;
    need_integer(code, alloc, 1)
}

/// The first argument has to be an integer that is not negative.
pub fn need_length(code: &mut Code, alloc: Global) -> Result<(), NoMemory>
    ensures { OnOk result (code.new ≡ code.old ++ steps_of line.NeedLength) }
{
    need_integer(code, alloc, 0)?;
    code.push(constant(6, 0))?;
    need_test(
        code,
        alloc,
        comparing(Comparison::AtLeast, 0, 6),
        0,
        INTEGER_CLASS,
    )
}

/// A register has to hold an index of the string or vector in another one.
pub fn need_index(
    code: &mut Code,
    alloc: Global,
    of: Register,
    index: Register,
) -> Result<(), NoMemory>
    ensures { OnOk result (code.new ≡ code.old ++ steps_of (line.NeedIndex of index)) }
{
    need_integer(code, alloc, index)?;
    code.push(load(7, of, SECOND))?;
    let below = comparing(Comparison::LessUnsigned, index, 7);
    code.push(signal_unless(alloc, below, PROGRAM_ERROR)?)
}

/// It has to be a character.
pub fn need_character(code: &mut Code, alloc: Global, of: Register) -> Result<(), NoMemory>
    ensures { OnOk result (code.new ≡ code.old ++ steps_of (line.NeedCharacter of)) }
{
    compute_by(code, 7, Arithmetic::ShiftLeft, of, 24)?;
    code.push(constant(6, 251658240))?;
    need_test(
        code,
        alloc,
        comparing(Comparison::Equal, 7, 6),
        of,
        CHARACTER_CLASS,
    )
}

/// It has to be an object with one of so many headers.
#[tactic(auto, unfolding(crate::specs::Steps::need_header))]
pub fn need_header(
    code: &mut Code,
    alloc: Global,
    of: Register,
    header: u32,
    count: u32,
    class: i32,
) -> Result<(), NoMemory>
    ensures { OnOk result (code.new ≡ code.old ++ steps.need_header of header count class) }
{
    need_tag(code, alloc, of, OBJECT_BITS, class)?;
    code.push(load(7, of, HEADER))?;
    compute_by(code, 7, Arithmetic::Subtract, 7, header)?;
    code.push(constant(6, count))?;
    need_test(
        code,
        alloc,
        comparing(Comparison::LessUnsigned, 7, 6),
        of,
        class,
    )
}

/// It has to be an instance.
pub fn need_instance(
    code: &mut Code,
    alloc: Global,
    of: Register,
    class: i32,
) -> Result<(), NoMemory>
    ensures { OnOk result (code.new ≡ code.old ++ steps.need_instance of class) }
{
    need_tag(code, alloc, of, OBJECT_BITS, class)?;
    code.push(load(7, of, HEADER))?;
    compute_by(code, 7, Arithmetic::ShiftLeft, 7, 28)?;
    code.push(constant(6, 805306368))?;
    need_test(code, alloc, comparing(Comparison::Equal, 7, 6), of, class)
}

/// It has to be a symbol; nil is one.
pub fn need_symbol(code: &mut Code, alloc: Global, of: Register) -> Result<(), NoMemory>
    ensures { OnOk result (code.new ≡ code.old ++ steps_of (line.NeedSymbol of)) }
{
    let mut other = Code::new(alloc);
    need_header(&mut other, alloc, of, SYMBOL, 2, SYMBOL_CLASS)?;
    code.push(constant(6, NIL))?;
    code.push(either(comparing(Comparison::Equal, of, 6), Code::new(alloc), other))
}
