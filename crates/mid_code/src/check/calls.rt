// Whether code calls procedures that are there, with as many arguments as they take.

ghost use Rattle.std.specs.Prelude.{◌≡◌, length, slice_get};
ghost use Rattle.mid_code.specs.MidCode.{code_of};
ghost use Rattle.mid_code.specs.Checked.{takes, call_fits, operation_calls, step_calls, code_calls, codes_call};
ghost use Rattle.mid_code.specs.model.View.{codes_of};

use crate::code::{CaseList, Code, CodeStep, StepKind};
use crate::operation::{Callee, Operation};
use crate::program::ProcedureList;

/// Whether each call by number in the code is of a procedure that is there and takes as many arguments.
#[cycle(calls)]
#[tactic(auto, using(crate::specs::model::Sizes::step_turn))]
pub fn code_calls(procedures: &ProcedureList, code: &Code) -> bool
    ensures { result ≡ code_calls procedures.now (code_of code.now) }
{
    for step in code.as_slice() {
        if !step_calls(procedures, step) {
            return false;
        }
    }
    true
}

#[cycle(calls)]
fn step_calls(procedures: &ProcedureList, step: &CodeStep) -> bool
    ensures { result ≡ step_calls procedures.now step.now }
{
    match &step.kind {
        StepKind::Do(operation) => operation_calls(procedures, operation),
        StepKind::Choose(_, first, second) => {
            code_calls(procedures, first) && code_calls(procedures, second)
        }
        StepKind::Switch { register: _, codes } => codes_call(procedures, codes),
        StepKind::Repeat {
            counted: _,
            head,
            test: _,
            body,
        } => code_calls(procedures, head) && code_calls(procedures, body),
        StepKind::WithBlock {
            block: _,
            words: _,
            word: _,
            inside,
            landing,
        } => code_calls(procedures, inside) && code_calls(procedures, landing),
        StepKind::Lend {
            block: _,
            words: _,
            inside,
        } => code_calls(procedures, inside),
        StepKind::Return(_)
        | StepKind::Cut { .. }
        | StepKind::Halt(_)
        | StepKind::Unhandled { .. } => true,
    }
}

#[cycle(calls)]
#[tactic(auto, using(crate::specs::model::Sizes::case_turn))]
fn codes_call(procedures: &ProcedureList, codes: &CaseList) -> bool
    ensures { result ≡ codes_call procedures.now (codes_of codes.now) }
{
    for case in codes.as_slice() {
        if !code_calls(procedures, &case.code) {
            return false;
        }
    }
    true
}

fn operation_calls(procedures: &ProcedureList, operation: &Operation) -> bool
    ensures { result ≡ operation_calls procedures.now operation.now }
{
    match operation {
        Operation::Move { .. }
        | Operation::Constant { .. }
        | Operation::Compute { .. }
        | Operation::Load { .. }
        | Operation::Store { .. }
        | Operation::Request { .. }
        | Operation::Draw { .. }
        | Operation::Put { .. }
        | Operation::Get { .. } => true,
        Operation::Call {
            to: _,
            callee,
            arguments,
        } => call_fits(procedures, *callee, arguments.len()),
    }
}

fn call_fits(procedures: &ProcedureList, callee: Callee, count: usize) -> bool
    ensures { result ≡ call_fits procedures.now callee count }
{
    match callee {
        Callee::Procedure(number) => takes(procedures, number, count),
        Callee::Word(_) => true,
    }
}

// Whether the procedure of that number is there and takes so many arguments.
fn takes(procedures: &ProcedureList, number: usize, count: usize) -> bool
    ensures { result ≡ takes (slice_get procedures.now number) count }
{
    match procedures.get(number) {
        None => false,
        Some(procedure) => procedure.parameters == count,
    }
}
