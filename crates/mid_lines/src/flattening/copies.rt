// Copies of operations and of words.

ghost use Rattle.std.specs.Prelude.{◌≡◌, IfOk};

use base::{NoMemory, WordList};
use mid_code::{Operation, RegisterList};
use std::alloc::Global;

/// The same operation once more.
pub fn copy_of_operation(alloc: Global, operation: &Operation) -> Result<Operation, NoMemory>
    ensures { IfOk result (λ copied. copied ≡ operation.now) }
{
    match operation {
        Operation::Move { to, from } => Ok(Operation::Move {
            to: *to,
            from: *from,
        }),
        Operation::Constant { to, word } => Ok(Operation::Constant {
            to: *to,
            word: *word,
        }),
        Operation::Compute {
            to,
            which,
            first,
            second,
        } => Ok(Operation::Compute {
            to: *to,
            which: *which,
            first: *first,
            second: *second,
        }),
        Operation::Load { to, base, offset } => Ok(Operation::Load {
            to: *to,
            base: *base,
            offset: *offset,
        }),
        Operation::Store { from, base, offset } => Ok(Operation::Store {
            from: *from,
            base: *base,
            offset: *offset,
        }),
        Operation::Request { to, words } => Ok(Operation::Request {
            to: *to,
            words: *words,
        }),
        Operation::Draw { to, base, offset } => Ok(Operation::Draw {
            to: *to,
            base: *base,
            offset: *offset,
        }),
        Operation::Put { from } => Ok(Operation::Put { from: *from }),
        Operation::Get { to } => Ok(Operation::Get { to: *to }),
        Operation::Call {
            to,
            callee,
            arguments,
        } => {
            let arguments = copy_of_registers(alloc, arguments)?;
            Ok(Operation::Call {
                to: *to,
                callee: *callee,
                arguments,
            })
        }
    }
}

fn copy_of_registers(alloc: Global, registers: &RegisterList) -> Result<RegisterList, NoMemory>
    ensures { IfOk result (λ copied. copied ≡ registers.now) }
{
    let mut copied = RegisterList::new(alloc);
    for register in registers.as_slice() {
        copied.push(*register)?;
    }
    Ok(copied)
}

/// The same words once more.
pub fn copy_of_words(alloc: Global, words: &WordList) -> Result<WordList, NoMemory>
    ensures { IfOk result (λ copied. copied ≡ words.now) }
{
    let mut copied = WordList::new(alloc);
    for word in words.as_slice() {
        copied.push(*word)?;
    }
    Ok(copied)
}
