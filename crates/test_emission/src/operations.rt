// Operations and tests, as rows write them.

use crate::numbers::{Numbers, offset_at, size_at, word_at};
use mid_code::{Arithmetic, Callee, Comparison, Operation, RegisterList, Test};
use test_rows::RowAnswer;

/// The operation of a name with these numbers; none where there is no such operation.
pub fn operation_of(got: &mut RowAnswer, name: &str, numbers: &Numbers) -> Option<Operation> {
    match name {
        "move" => Some(Operation::Move {
            to: size_at(numbers, 0)?,
            from: size_at(numbers, 1)?,
        }),
        "constant" => Some(Operation::Constant {
            to: size_at(numbers, 0)?,
            word: word_at(numbers, 1)?,
        }),
        "load" => Some(Operation::Load {
            to: size_at(numbers, 0)?,
            base: size_at(numbers, 1)?,
            offset: offset_at(numbers, 2)?,
        }),
        "store" => Some(Operation::Store {
            from: size_at(numbers, 0)?,
            base: size_at(numbers, 1)?,
            offset: offset_at(numbers, 2)?,
        }),
        "request" => Some(Operation::Request {
            to: size_at(numbers, 0)?,
            words: size_at(numbers, 1)?,
        }),
        "draw" => Some(Operation::Draw {
            to: size_at(numbers, 0)?,
            base: size_at(numbers, 1)?,
            offset: offset_at(numbers, 2)?,
        }),
        "put" => Some(Operation::Put {
            from: size_at(numbers, 0)?,
        }),
        "get" => Some(Operation::Get {
            to: size_at(numbers, 0)?,
        }),
        "call" => {
            let callee = Callee::Procedure(size_at(numbers, 1)?);
            call_of(got, callee, numbers)
        }
        "call_word" => {
            let callee = Callee::Word(size_at(numbers, 1)?);
            call_of(got, callee, numbers)
        }
        _ => Some(Operation::Compute {
            which: arithmetic_of(name)?,
            to: size_at(numbers, 0)?,
            first: size_at(numbers, 1)?,
            second: size_at(numbers, 2)?,
        }),
    }
}

fn call_of(got: &mut RowAnswer, callee: Callee, numbers: &Numbers) -> Option<Operation> {
    let to = size_at(numbers, 0)?;
    let arguments = arguments_of(got, numbers)?;
    Some(Operation::Call {
        to,
        callee,
        arguments,
    })
}

// The numbers behind the first two.
fn arguments_of(got: &mut RowAnswer, numbers: &Numbers) -> Option<RegisterList> {
    let mut arguments = RegisterList::new(got.alloc);
    for at in 2..numbers.len() {
        let Some(register) = size_at(numbers, at) else {
            drop(arguments);
            return None;
        };
        got.add(&mut arguments, register);
    }
    Some(arguments)
}

fn arithmetic_of(name: &str) -> Option<Arithmetic> {
    match name {
        "add" => Some(Arithmetic::Add),
        "subtract" => Some(Arithmetic::Subtract),
        "multiply" => Some(Arithmetic::Multiply),
        "multiply_high" => Some(Arithmetic::MultiplyHigh),
        "divide" => Some(Arithmetic::Divide),
        "remainder" => Some(Arithmetic::Remainder),
        "and" => Some(Arithmetic::And),
        "or" => Some(Arithmetic::Or),
        "exclusive_or" => Some(Arithmetic::ExclusiveOr),
        "shift_left" => Some(Arithmetic::ShiftLeft),
        "shift_right" => Some(Arithmetic::ShiftRight),
        "shift_right_signed" => Some(Arithmetic::ShiftRightSigned),
        "less" => Some(Arithmetic::Less),
        "less_unsigned" => Some(Arithmetic::LessUnsigned),
        _ => None,
    }
}

/// The test of a comparison's name with these registers; none where there is no such comparison.
pub fn test_of(name: &str, numbers: &Numbers) -> Option<Test> {
    Some(Test {
        comparison: comparison_of(name)?,
        first: size_at(numbers, 0)?,
        second: size_at(numbers, 1)?,
    })
}

fn comparison_of(name: &str) -> Option<Comparison> {
    match name {
        "equal" => Some(Comparison::Equal),
        "different" => Some(Comparison::Different),
        "less" => Some(Comparison::Less),
        "at_least" => Some(Comparison::AtLeast),
        "less_unsigned" => Some(Comparison::LessUnsigned),
        "at_least_unsigned" => Some(Comparison::AtLeastUnsigned),
        _ => None,
    }
}
