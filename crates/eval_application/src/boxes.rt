// Words for the boxes of new variables, and for what a method keeps of its call.

ghost use Rattle.std.specs.Prelude.{IfOk};
ghost use Rattle.flat_language.specs.FlatNodes.{homes};
ghost use Rattle.eval_machine.specs.Applications.{boxes_requested, recorded};
ghost use Rattle.eval_store.specs.Words.{called_or_none};
ghost use Rattle.eval_store.specs.View.{limit_of};
ghost use Rattle.eval_state.specs.Doing.{IsEffectDone};

use base::NoMemory;
use eval_state::machine::Machine;
use eval_store::Called;
use flat_language::{FlatProcedure, HomeList};

/// A word and a unit for each variable of a list that lives in a box; whether they are granted.
pub fn take_boxes(machine: &mut Machine<'_>, homes: &HomeList) -> Result<bool, NoMemory>
    ensures { IfOk result (IsEffectDone machine.old machine.new (λ names z. boxes_requested (limit_of machine.old.given.limit) homes.now z)) }
{
    for at in 0..homes.len() {
        let Some(home) = homes.get(at) else {
            unreachable!()
        };
        if !machine.take_home(*home)? {
            return Ok(false);
        }
    }
    Ok(true)
}

/// Those of all variables of a procedure.
pub fn take_procedure_boxes(
    machine: &mut Machine<'_>,
    procedure: &FlatProcedure,
) -> Result<bool, NoMemory>
    ensures { IfOk result (IsEffectDone machine.old machine.new (λ names z. boxes_requested (limit_of machine.old.given.limit) (homes procedure.now) z)) }
{
    if !take_boxes(machine, &procedure.required)? {
        return Ok(false);
    }
    match procedure.rest {
        Some(home) => machine.take_home(home),
        None => Ok(true),
    }
}

/// The words of what a method was called with, where it is kept.
pub fn take_record<'p>(
    machine: &mut Machine<'p>,
    called: &Option<Called<'p>>,
    keeps: bool,
) -> Result<bool, NoMemory>
    ensures { IfOk result (IsEffectDone machine.old machine.new (λ names z. recorded (limit_of machine.old.given.limit) (called_or_none names called.now) keeps z)) }
{
    match called {
        Some(called) if keeps => {
            let Some(words) = (called.arguments.len() as u64).checked_add(2) else {
                return Err(NoMemory);
            };
            machine.take_heap(words)
        }
        _ => Ok(true),
    }
}
