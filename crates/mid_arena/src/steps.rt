// Steps of middle code that the lines of primitives are made of.

ghost use Rattle.std.specs.Prelude.{◌≡◌, ◌++◌, [], ◌∷◌, OnOk, IfOk};
ghost use Rattle.mid_code.specs.MidCode.{return_word};
ghost use Rattle.mid_arena.specs.Steps as steps;

use base::NoMemory;
use mid_code::{
    Arithmetic, Code, CodeStep, Comparison, Counted, Operation, Register, StepKind, Test,
};
use std::alloc::Global;

/// The word.
pub fn constant(to: Register, word: u32) -> CodeStep
    ensures { result ≡ steps.constant to word }
{
    CodeStep::new(StepKind::Do(Operation::Constant { to, word }))
}

/// What is computed of two words.
pub fn compute(to: Register, which: Arithmetic, first: Register, second: Register) -> CodeStep
    ensures { result ≡ steps.compute to which first second }
{
    CodeStep::new(StepKind::Do(Operation::Compute {
        to,
        which,
        first,
        second,
    }))
}

/// The word at an offset from a word.
pub fn load(to: Register, base: Register, offset: i32) -> CodeStep
    ensures { result ≡ steps.load to base offset }
{
    CodeStep::new(StepKind::Do(Operation::Load { to, base, offset }))
}

/// Stores the word at an offset from a word.
pub fn store(from: Register, base: Register, offset: i32) -> CodeStep
    ensures { result ≡ steps.store from base offset }
{
    CodeStep::new(StepKind::Do(Operation::Store { from, base, offset }))
}

/// Ends with the word.
pub fn return_word(from: Register) -> CodeStep
    ensures { result ≡ return_word from }
{
    CodeStep::new(StepKind::Return(from))
}

/// A test of two registers.
pub fn comparing(comparison: Comparison, first: Register, second: Register) -> Test
    ensures { result ≡ steps.comparing comparison first second }
{
    Test {
        comparison,
        first,
        second,
    }
}

/// The first code where the test holds, else the second.
pub fn either(test: Test, first: Code, second: Code) -> CodeStep
    ensures { result ≡ steps.either test first second }
{
    CodeStep::new(StepKind::Choose(test, first, second))
}

/// A loop of a routine, as long as one word is below another.
pub fn while_below(alloc: Global, first: Register, second: Register, body: Code) -> CodeStep
    ensures { result ≡ steps.while_below first second body }
{
    CodeStep::new(StepKind::Repeat {
        counted: Counted::Turn,
        head: Code::new(alloc),
        test: comparing(Comparison::LessUnsigned, first, second),
        body,
    })
}

/// Ends with the word, where the test holds.
pub fn return_if(alloc: Global, test: Test, from: Register) -> Result<CodeStep, NoMemory>
    ensures { IfOk result (λ s. s ≡ steps.return_if test from) }
{
    let mut ending = Code::new(alloc);
    ending.push(return_word(from))?;
    Ok(either(test, ending, Code::new(alloc)))
}

/// What is computed of a word and that word, which is put into register 6.
pub fn compute_by(
    code: &mut Code,
    to: Register,
    which: Arithmetic,
    first: Register,
    word: u32,
) -> Result<(), NoMemory>
    ensures { OnOk result (code.new ≡ code.old ++ steps.compute_by to which first word) }
{
    code.push(constant(6, word))?;
    code.push(compute(to, which, first, 6))
}
