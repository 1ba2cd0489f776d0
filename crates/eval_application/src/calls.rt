// Calls by forms: of the function of a name, and of the next method of a method.

ghost use Rattle.std.specs.Prelude.{OnOk};
ghost use Rattle.flat_language.specs.FlatState.{method_of};
ghost use Rattle.eval_machine.specs.Configuration.{call_name};
ghost use Rattle.eval_machine.specs.Step.{operation_step, next_method_step};
ghost use Rattle.eval_state.specs.View.{ContinuesAs, at, top};

use crate::methods::next_method;
use crate::values::apply_name;
use base::{Name, NoMemory};
use eval_state::machine::Machine;
use eval_state::situation::Situation;
use flat_language::MethodPlace;

/// The function of a name is called with the last operands, so many as that.
pub fn call_named(
    machine: &mut Machine<'_>,
    name: Name,
    operands: usize,
    situation: Situation,
) -> Result<(), NoMemory>
    ensures { OnOk result (ContinuesAs machine.old machine.new operands (λ names s. operation_step s (call_name name.0) (top names machine.old operands) (at names machine.old situation))) }
{
    apply_name(machine, name, operands, situation.level, situation.around)
}

/// What is left to the method of a place runs, with the arguments of that method.
pub fn next_method_at(
    machine: &mut Machine<'_>,
    place: MethodPlace,
    situation: Situation,
) -> Result<(), NoMemory>
    ensures { OnOk result (ContinuesAs machine.old machine.new 0 (λ names s. next_method_step s (method_of place (at names machine.old situation).environment) (at names machine.old situation))) }
{
    let called = machine.method_at(place)?;
    next_method(machine, called, situation)
}
