// Procedures are entered: each request for words comes one by one, and then the body.

ghost use Rattle.std.specs.Prelude.{◌≡◌, ◌≤◌, ◌<◌, ◌+◌, ◌^◌, true, length, is_some, OnOk, IfOk};
ghost use Rattle.lang_meaning.specs.Signals.{takes};
ghost use Rattle.eval_application.specs.Entering.{entering, in_words, in_rest, in_record, in_boxes, in_body, Enters, IsGivenStack};

use crate::arguments::make_list;
use crate::boxes::{take_procedure_boxes, take_record};
use crate::classes::PROGRAM_ERROR;
use crate::variables::add_variables;
use base::NoMemory;
use eval_state::frame::ContinuationFrame;
use eval_state::machine::Machine;
use eval_state::situation::{Activation, DynamicLinks, Situation};
use flat_language::FlatProcedure;
use std::mem;

/// What is entered: a procedure, the words of the stack that its body takes, and its activation, which has no slots yet;
/// and where: at a level, with what is around.
#[derive(Drop)]
pub struct Entering<'p> {
    pub procedure: &'p FlatProcedure,
    pub words: u64,
    pub activation: Activation<'p>,
    pub level: u64,
    pub around: DynamicLinks,
}

/// A procedure is entered with the last operands, so many as that: their number is judged first.
pub fn enter_procedure<'p>(
    machine: &mut Machine<'p>,
    procedure: Entering<'p>,
    operands: usize,
) -> Result<(), NoMemory>
    requires { procedure.level + 1 < 2 ^ 64 }
    ensures { OnOk result (Enters machine.old machine.new procedure.entry operands entering) }
{
    let count = machine.held_operands(operands);
    if takes_arguments(procedure.procedure, count) {
        take_words(machine, procedure, count)
    } else {
        let (level, around) = (procedure.level, procedure.around);
        drop(procedure);
        machine.drop_operands(operands);
        machine.signal_class(PROGRAM_ERROR, level + 1, around)
    }
}

// The words of the stack are asked for, and the arguments counted.
fn take_words<'p>(
    machine: &mut Machine<'p>,
    procedure: Entering<'p>,
    count: usize,
) -> Result<(), NoMemory>
    requires held { count ≤ length machine.old.operands.items }
    requires taken { takes (length procedure.procedure.now.required) (is_some procedure.procedure.now.rest) count ≡ true }
    ensures { OnOk result (Enters machine.old machine.new procedure.entry count in_words) }
{
    let Ok(granted) = take_stack(machine, procedure.words, count) else {
        drop(procedure);
        return Err(NoMemory);
    };
    if granted {
        gather(machine, procedure, count)
    } else {
        drop(procedure);
        machine.drop_operands(count);
        Ok(())
    }
}

/// The words of the stack of an application are asked for, and one for each argument, which are counted; whether they
/// are granted.
pub fn take_stack(machine: &mut Machine<'_>, words: u64, count: usize) -> Result<bool, NoMemory>
    ensures { IfOk result (IsGivenStack machine.old machine.new (words + count) count) }
{
    let count = count as u64;
    let Some(all) = words.checked_add(count) else {
        return Err(NoMemory);
    };
    let before = machine.store.stack();
    if !machine.ask(0, all)? {
        return Ok(false);
    }
    machine.charge(count)?;
    machine.push_frame(ContinuationFrame::RestoresStack(before))?;
    Ok(true)
}

// The arguments behind the required ones become a list, where there is a rest variable.
fn gather<'p>(
    machine: &mut Machine<'p>,
    procedure: Entering<'p>,
    count: usize,
) -> Result<(), NoMemory>
    requires held { count ≤ length machine.old.operands.items }
    requires taken { takes (length procedure.procedure.now.required) (is_some procedure.procedure.now.rest) count ≡ true }
    ensures { OnOk result (Enters machine.old machine.new procedure.entry count in_rest) }
{
    if procedure.procedure.rest.is_some() {
        gather_rest(machine, procedure, count)
    } else {
        keep_record(machine, procedure, count)
    }
}

// They become a list.
fn gather_rest<'p>(
    machine: &mut Machine<'p>,
    procedure: Entering<'p>,
    count: usize,
) -> Result<(), NoMemory>
    requires held { count ≤ length machine.old.operands.items }
    requires taken { length procedure.procedure.now.required ≤ count }
    requires rest { is_some procedure.procedure.now.rest ≡ true }
    ensures { OnOk result (Enters machine.old machine.new procedure.entry count in_rest) }
{
    let required = procedure.procedure.required.len();
    let more = count - required;
    let Some(tail) = make_list(machine, more)? else {
        drop(procedure);
        machine.drop_operands(count);
        return Ok(());
    };
    machine.drop_operands(more);
    machine.push_operand(tail)?;
    keep_record(machine, procedure, required + 1)
}

// The words of what a method was called with are asked for, where it is kept.
fn keep_record<'p>(
    machine: &mut Machine<'p>,
    procedure: Entering<'p>,
    count: usize,
) -> Result<(), NoMemory>
    requires { count ≤ length machine.old.operands.items }
    ensures { OnOk result (Enters machine.old machine.new procedure.entry count in_record) }
{
    let keeps = procedure.procedure.keeps_method;
    let Ok(granted) = take_record(machine, &procedure.activation.method, keeps) else {
        drop(procedure);
        return Err(NoMemory);
    };
    if granted {
        make_boxes(machine, procedure, count)
    } else {
        drop(procedure);
        machine.drop_operands(count);
        Ok(())
    }
}

// The words of the boxes are asked for.
fn make_boxes<'p>(
    machine: &mut Machine<'p>,
    procedure: Entering<'p>,
    count: usize,
) -> Result<(), NoMemory>
    requires { count ≤ length machine.old.operands.items }
    ensures { OnOk result (Enters machine.old machine.new procedure.entry count in_boxes) }
{
    let Ok(granted) = take_procedure_boxes(machine, procedure.procedure) else {
        drop(procedure);
        return Err(NoMemory);
    };
    if granted {
        begin_body(machine, procedure, count)
    } else {
        drop(procedure);
        machine.drop_operands(count);
        Ok(())
    }
}

// The body, in an activation of its own.
fn begin_body<'p>(
    machine: &mut Machine<'p>,
    procedure: Entering<'p>,
    count: usize,
) -> Result<(), NoMemory>
    requires { count ≤ length machine.old.operands.items }
    ensures { OnOk result (Enters machine.old machine.new procedure.entry count in_body) }
{
    let code = procedure.procedure;
    let (level, around) = (procedure.level, procedure.around);
    let mut activation = procedure.activation;
    activation.slots = 0;
    let caller = mem::replace(&mut machine.current, activation);
    machine.push_frame(ContinuationFrame::RestoresSlots(caller))?;
    add_variables(machine, code, count)?;
    machine.drop_operands(count);
    machine.evaluate(
        &code.body,
        Situation {
            level,
            own: 0,
            around,
        },
    );
    Ok(())
}

// Whether a procedure takes so many arguments.
fn takes_arguments(procedure: &FlatProcedure, count: usize) -> bool
    ensures { result ≡ takes (length procedure.now.required) (is_some procedure.now.rest) count }
{
    if procedure.rest.is_some() {
        procedure.required.len() <= count
    } else {
        procedure.required.len() == count
    }
}
