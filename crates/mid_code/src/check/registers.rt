// Whether code names registers that are there, words, offsets that an instruction holds, and blocks that are not too large.

ghost use Rattle.std.specs.Prelude.{◌≡◌, nat_lt};
ghost use Rattle.std.specs.List.{list_all};
ghost use Rattle.mid_code.specs.MidCode.{code_of};
ghost use Rattle.mid_code.specs.Checked.{is_register, is_constant, is_block_size, is_offset, callee_fits, operation_fits, test_fits, step_fits, code_fits, codes_fit};
ghost use Rattle.mid_code.specs.model.View.{codes_of};

use crate::code::{CaseList, Code, CodeStep, StepKind};
use crate::operation::{Callee, Operation, Register, RegisterList, Test};

/// Whether code fits so many registers.
#[cycle(fits)]
#[tactic(auto, using(crate::specs::model::Sizes::step_turn))]
pub fn code_fits(count: usize, code: &Code) -> bool
    ensures { result ≡ code_fits count (code_of code.now) }
{
    for step in code.as_slice() {
        if !step_fits(count, step) {
            return false;
        }
    }
    true
}

#[cycle(fits)]
fn step_fits(count: usize, step: &CodeStep) -> bool
    ensures { result ≡ step_fits count step.now }
{
    match &step.kind {
        StepKind::Do(operation) => operation_fits(count, operation),
        StepKind::Choose(test, first, second) => {
            test_fits(count, test) && code_fits(count, first) && code_fits(count, second)
        }
        StepKind::Switch { register, codes } => {
            is_register(count, *register) && codes_fit(count, codes)
        }
        StepKind::Repeat {
            counted: _,
            head,
            test,
            body,
        } => code_fits(count, head) && test_fits(count, test) && code_fits(count, body),
        StepKind::WithBlock {
            block,
            words,
            word,
            inside,
            landing,
        } => {
            is_register(count, *block)
                && is_block_size(*words)
                && is_register(count, *word)
                && code_fits(count, inside)
                && code_fits(count, landing)
        }
        StepKind::Lend {
            block,
            words,
            inside,
        } => {
            is_register(count, *block) && is_register(count, *words) && code_fits(count, inside)
        }
        StepKind::Return(word) | StepKind::Halt(word) => is_register(count, *word),
        StepKind::Cut { block, word } => is_register(count, *block) && is_register(count, *word),
        StepKind::Unhandled {
            class,
            site,
            condition,
        } => {
            is_register(count, *class)
                && is_register(count, *site)
                && is_register(count, *condition)
        }
    }
}

#[cycle(fits)]
#[tactic(auto, using(crate::specs::model::Sizes::case_turn))]
fn codes_fit(count: usize, codes: &CaseList) -> bool
    ensures { result ≡ codes_fit count (codes_of codes.now) }
{
    for case in codes.as_slice() {
        if !code_fits(count, &case.code) {
            return false;
        }
    }
    true
}

fn operation_fits(count: usize, operation: &Operation) -> bool
    ensures { result ≡ operation_fits count operation.now }
{
    match operation {
        Operation::Move { to, from } => is_register(count, *to) && is_register(count, *from),
        Operation::Constant { to, word } => is_register(count, *to) && is_constant(*word),
        Operation::Compute {
            to,
            which: _,
            first,
            second,
        } => is_register(count, *to) && is_register(count, *first) && is_register(count, *second),
        Operation::Load { to, base, offset } | Operation::Draw { to, base, offset } => {
            is_register(count, *to) && is_register(count, *base) && is_offset(*offset)
        }
        Operation::Store { from, base, offset } => {
            is_register(count, *from) && is_register(count, *base) && is_offset(*offset)
        }
        Operation::Request { to, words } => is_register(count, *to) && is_register(count, *words),
        Operation::Put { from } => is_register(count, *from),
        Operation::Get { to } => is_register(count, *to),
        Operation::Call {
            to,
            callee,
            arguments,
        } => {
            is_register(count, *to)
                && callee_fits(count, *callee)
                && are_registers(count, arguments)
        }
    }
}

fn test_fits(count: usize, test: &Test) -> bool
    ensures { result ≡ test_fits count test.now }
{
    is_register(count, test.first) && is_register(count, test.second)
}

fn callee_fits(count: usize, callee: Callee) -> bool
    ensures { result ≡ callee_fits count callee }
{
    match callee {
        Callee::Procedure(_) => true,
        Callee::Word(number) => is_register(count, number),
    }
}

fn are_registers(count: usize, registers: &RegisterList) -> bool
    ensures { result ≡ list_all (is_register count) registers.now }
{
    for register in registers.as_slice() {
        if !is_register(count, *register) {
            return false;
        }
    }
    true
}

fn is_register(count: usize, register: Register) -> bool
    ensures { result ≡ is_register count register }
{
    register < count
}

// Each number of 32 bits is; the definition is over all numbers.
fn is_constant(word: u32) -> bool
    ensures { result ≡ is_constant word }
{
    word <= 4_294_967_295
}

/// Whether a block may have so many words.
pub fn is_block_size(words: u32) -> bool
    ensures { result ≡ is_block_size words }
{
    words < 16_777_216
}

fn is_offset(offset: i32) -> bool
    ensures { result ≡ is_offset offset }
{
    -2048 <= offset && offset <= 2047
}
