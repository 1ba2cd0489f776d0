// The slots of new variables.

ghost use Rattle.std.specs.Prelude.{◌≡◌, ◌≤◌, OnOk, length, slice_get};
ghost use Rattle.flat_language.specs.FlatNodes.{homes};
ghost use Rattle.eval_state.specs.Frames.{last_of};
ghost use Rattle.eval_state.specs.Variables.{AreSlotted};

use base::NoMemory;
use eval_state::machine::Machine;
use flat_language::{FlatProcedure, Home};

/// The variables of a procedure, with the values of the last operands, so many as that.
pub fn add_variables(
    machine: &mut Machine<'_>,
    procedure: &FlatProcedure,
    count: usize,
) -> Result<(), NoMemory>
    requires { count ≤ length machine.old.operands.items }
    ensures { OnOk result (AreSlotted machine.old machine.new (homes procedure.now) (last_of count machine.old.operands.items)) }
{
    let first = machine.operands.len() - count;
    for at in 0..count {
        let Some(home) = home_at(procedure, at) else {
            return Ok(());
        };
        let word = machine.operand_at(first + at);
        machine.add_variable(home, word)?;
    }
    Ok(())
}

// Where a variable of a procedure lives.
fn home_at(procedure: &FlatProcedure, at: usize) -> Option<Home>
    ensures { result ≡ slice_get (homes procedure.now) at }
{
    match procedure.required.get(at) {
        Some(home) => Some(*home),
        None if at == procedure.required.len() => procedure.rest,
        None => None,
    }
}
