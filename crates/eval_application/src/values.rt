// Values, and the functions of names, are applied.

ghost use Rattle.std.specs.Prelude.{◌<◌, ◌≤◌, OnOk, length};
ghost use Rattle.lang_meaning.specs.Lookup.{text};
ghost use Rattle.lang_meaning.specs.Literals.{function_row};
ghost use Rattle.eval_machine.specs.Applications.{apply_value, apply_callee, apply_row};
ghost use Rattle.eval_store.specs.Words.{value_of_word};
ghost use Rattle.eval_state.specs.View.{ContinuesAs, at, top, dynamic_context};
ghost use Rattle.eval_machine.specs.Step.{call_value_step};
ghost use Rattle.eval_application.specs.Functions.{applied};
ghost use Rattle.eval_application.specs.Firsts.{IsFirstArgument};

use crate::classes::FUNCTION;
use crate::functions::{Function, function_of};
use crate::generics::apply_generic;
use crate::procedures::{apply_function, apply_procedure, give_nil};
use base::{Name, NoMemory};
use eval_state::machine::Machine;
use eval_state::situation::{DynamicLinks, Situation};
use eval_store::Word;
use lang_meaning::Callee;

/// A value, which is to be a function, is applied to the last operands, so many as that.
pub fn apply_value(
    machine: &mut Machine<'_>,
    word: Word,
    operands: usize,
    level: u64,
    around: DynamicLinks,
) -> Result<(), NoMemory>
    ensures { OnOk result (ContinuesAs machine.old machine.new operands (λ names s. apply_value s (value_of_word names word) (top names machine.old operands) level (dynamic_context names machine.old around))) }
{
    let function = function_of(&machine.store, word)?;
    apply_found(machine, function, word, operands, level, around)
}

// What function a value was found to be is applied; what is none is not of the expected class.
fn apply_found<'p>(
    machine: &mut Machine<'p>,
    function: Function<'p>,
    word: Word,
    operands: usize,
    level: u64,
    around: DynamicLinks,
) -> Result<(), NoMemory>
    ensures { OnOk result (ContinuesAs machine.old machine.new operands (λ names s. applied names s function.entry word (top names machine.old operands) level (dynamic_context names machine.old around))) }
{
    match function {
        Function::Procedure(number) => {
            apply_procedure(machine, number, None, operands, level, around)
        }
        Function::Closure(number, captured) => {
            apply_function(machine, number, captured, operands, level, around)
        }
        Function::Generic(number) => apply_generic(machine, number, operands, level, around),
        Function::NoFunction => {
            machine.drop_operands(operands);
            machine.signal_domain(word, FUNCTION, level, around)
        }
    }
}

/// What a name calls is applied.
pub fn apply_callee(
    machine: &mut Machine<'_>,
    callee: Callee,
    operands: usize,
    level: u64,
    around: DynamicLinks,
) -> Result<(), NoMemory>
    ensures { OnOk result (ContinuesAs machine.old machine.new operands (λ names s. apply_callee s callee (top names machine.old operands) level (dynamic_context names machine.old around))) }
{
    match callee {
        Callee::Procedure(number) => {
            apply_procedure(machine, number, None, operands, level, around)
        }
        Callee::Generic(number) => apply_generic(machine, number, operands, level, around),
    }
}

/// The function of a name is applied.
pub fn apply_name(
    machine: &mut Machine<'_>,
    name: Name,
    operands: usize,
    level: u64,
    around: DynamicLinks,
) -> Result<(), NoMemory>
    ensures { OnOk result (ContinuesAs machine.old machine.new operands (λ names s. apply_row s (text names name.0) (function_row names s.program.functions (text names name.0)) (top names machine.old operands) level (dynamic_context names machine.old around))) }
{
    match machine.given.layout.callee(name) {
        Some(callee) => apply_callee(machine, callee, operands, level, around),
        None => {
            machine.drop_operands(operands);
            machine.signal_undefined(name, level, around)
        }
    }
}

/// The first one of the last operands, so many as that, is applied to the others.
pub fn call_first(
    machine: &mut Machine<'_>,
    operands: usize,
    situation: Situation,
) -> Result<(), NoMemory>
    ensures { OnOk result (ContinuesAs machine.old machine.new operands (λ names s. call_value_step s (top names machine.old operands) (at names machine.old situation))) }
{
    let count = machine.held_operands(operands);
    let Some(others) = count.checked_sub(1) else {
        give_nil(machine, operands);
        return Ok(());
    };
    let function = take_first(machine, count);
    apply_value(machine, function, others, situation.level, situation.around)
}

// The first one of the last operands goes.
fn take_first(machine: &mut Machine<'_>, count: usize) -> Word
    requires some { 0 < count }
    requires held { count ≤ length machine.old.operands.items }
    ensures { IsFirstArgument machine.old machine.new count result }
{
    let place = machine.operands.len() - count;
    machine.operands.remove(place)
}
