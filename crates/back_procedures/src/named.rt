// Which registers code names, in the order in which it names them.

ghost use Rattle.std.specs.Prelude.{◌≡◌, ◌++◌, [], ◌∷◌, OnOk};
ghost use Rattle.mid_code.specs.MidCode.{code_of};
ghost use Rattle.mid_code.specs.model.View.{codes_of};
ghost use Rattle.back_lowering.specs.Registers as registers;

use base::NoMemory;
use mid_code::{
    Callee, CaseList, Code, CodeStep, Operation, Register, RegisterList, StepKind, Test,
};

/// The registers that code names are appended.
#[cycle(named)]
#[tactic(auto, using(mid_code::specs::model::Sizes::step_turn))]
pub fn of_code(list: &mut RegisterList, code: &Code) -> Result<(), NoMemory>
    ensures { OnOk result (list.new ≡ list.old ++ registers.of_code (code_of code.now)) }
{
    for step in code.as_slice() {
        of_step(list, step)?;
    }
    Ok(())
}

#[cycle(named)]
fn of_step(list: &mut RegisterList, step: &CodeStep) -> Result<(), NoMemory>
    ensures { OnOk result (list.new ≡ list.old ++ registers.of_step step.now) }
{
    match &step.kind {
        StepKind::Do(operation) => of_operation(list, operation),
        StepKind::Choose(test, first, second) => {
            of_test(list, test)?;
            of_code(list, first)?;
            of_code(list, second)
        }
        StepKind::Switch { register, codes } => {
            list.push(*register)?;
            of_codes(list, codes)
        }
        StepKind::Repeat {
            counted: _,
            head,
            test,
            body,
        } => {
            of_test(list, test)?;
            of_code(list, head)?;
            of_code(list, body)
        }
        StepKind::WithBlock {
            block,
            words: _,
            word,
            inside,
            landing,
        } => {
            pair(list, *block, *word)?;
            of_code(list, inside)?;
            of_code(list, landing)
        }
        StepKind::Lend {
            block,
            words,
            inside,
        } => {
            pair(list, *block, *words)?;
            of_code(list, inside)
        }
        StepKind::Return(register) | StepKind::Halt(register) => list.push(*register),
        StepKind::Cut { block, word } => pair(list, *block, *word),
        StepKind::Unhandled {
            class,
            site,
            condition,
        } => {
            pair(list, *class, *site)?;
            list.push(*condition)
        }
    }
}

#[cycle(named)]
#[tactic(auto, using(mid_code::specs::model::Sizes::case_turn))]
fn of_codes(list: &mut RegisterList, codes: &CaseList) -> Result<(), NoMemory>
    ensures { OnOk result (list.new ≡ list.old ++ registers.of_codes (codes_of codes.now)) }
{
    for case in codes.as_slice() {
        of_code(list, &case.code)?;
    }
    Ok(())
}

// Two registers.
fn pair(list: &mut RegisterList, first: Register, second: Register) -> Result<(), NoMemory>
    ensures { OnOk result (list.new ≡ list.old ++ (first ∷ second ∷ [])) }
{
    list.push(first)?;
    list.push(second)
}

fn of_test(list: &mut RegisterList, test: &Test) -> Result<(), NoMemory>
    ensures { OnOk result (list.new ≡ list.old ++ (test.now.first ∷ test.now.second ∷ [])) }
{
    pair(list, test.first, test.second)
}

fn of_operation(list: &mut RegisterList, operation: &Operation) -> Result<(), NoMemory>
    ensures { OnOk result (list.new ≡ list.old ++ registers.of_operation operation.now) }
{
    match operation {
        Operation::Move { to, from } => pair(list, *to, *from),
        Operation::Constant { to, word: _ } => list.push(*to),
        Operation::Compute {
            to,
            which: _,
            first,
            second,
        } => {
            pair(list, *to, *first)?;
            list.push(*second)
        }
        Operation::Load {
            to,
            base,
            offset: _,
        }
        | Operation::Draw {
            to,
            base,
            offset: _,
        } => pair(list, *to, *base),
        Operation::Store {
            from,
            base,
            offset: _,
        } => pair(list, *from, *base),
        Operation::Request { to, words } => pair(list, *to, *words),
        Operation::Put { from } => list.push(*from),
        Operation::Get { to } => list.push(*to),
        Operation::Call {
            to,
            callee,
            arguments,
        } => {
            list.push(*to)?;
            of_callee(list, *callee)?;
            each(list, arguments)
        }
    }
}

fn of_callee(list: &mut RegisterList, callee: Callee) -> Result<(), NoMemory>
    ensures { OnOk result (list.new ≡ list.old ++ registers.of_callee callee) }
{
    match callee {
        Callee::Procedure(_) => Ok(()),
        Callee::Word(number) => list.push(number),
    }
}

// Each of these registers.
fn each(list: &mut RegisterList, more: &RegisterList) -> Result<(), NoMemory>
    ensures { OnOk result (list.new ≡ list.old ++ more.now) }
{
    for register in more.as_slice() {
        list.push(*register)?;
    }
    Ok(())
}
