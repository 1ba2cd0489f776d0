// Bodies with new variables.

ghost use Rattle.std.specs.Prelude.{OnOk};
ghost use Rattle.flat_language.specs.model.View.{bindings_of};
ghost use Rattle.eval_machine.specs.Step.{let_step};
ghost use Rattle.eval_state.specs.View.{ContinuesAs, at, top};
ghost use Rattle.eval_control.specs.LetBodies.{let_enters};

use base::NoMemory;
use eval_state::frame::ContinuationFrame;
use eval_state::machine::Machine;
use eval_state::situation::Situation;
use flat_language::{FlatBindingList, FlatCore};

/// The values of bindings are there, which are the last operands: the variables are made, and the body is evaluated.
pub fn let_body<'p>(
    machine: &mut Machine<'p>,
    list: &'p FlatBindingList,
    count: usize,
    body: &'p FlatCore,
    situation: Situation,
) -> Result<(), NoMemory>
    ensures { OnOk result (ContinuesAs machine.old machine.new count (λ names s. let_step s (bindings_of list.now) body.now (top names machine.old count) (at names machine.old situation))) }
{
    if machine.take_binding_boxes(list)? {
        enter_let(machine, list, count, body, situation)
    } else {
        machine.drop_operands(count);
        Ok(())
    }
}

// The words of the boxes are there: the variables are made, and the body is evaluated.
fn enter_let<'p>(
    machine: &mut Machine<'p>,
    list: &'p FlatBindingList,
    count: usize,
    body: &'p FlatCore,
    situation: Situation,
) -> Result<(), NoMemory>
    ensures { OnOk result (ContinuesAs machine.old machine.new count (λ names s. let_enters (bindings_of list.now) body.now (top names machine.old count) (at names machine.old situation))) }
{
    let before = machine.slot_count();
    let held = machine.held_operands(count);
    machine.push_frame(ContinuationFrame::DropsSlots(before))?;
    machine.add_bindings(list, held)?;
    machine.drop_operands(count);
    machine.evaluate(body, situation);
    Ok(())
}
