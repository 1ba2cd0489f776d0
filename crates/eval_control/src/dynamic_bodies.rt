// Bodies with dynamic bindings.

ghost use Rattle.std.specs.Prelude.{◌≡◌, ◌≤◌, OnOk, length};
ghost use Rattle.flat_language.specs.model.View.{dynamics_of};
ghost use Rattle.eval_machine.specs.Step.{dynamic_let_step};
ghost use Rattle.eval_state.specs.Frames.{last_of};
ghost use Rattle.eval_state.specs.Variables.{AreVariables};
ghost use Rattle.eval_state.specs.View.{ContinuesAs, at, top};

use base::NoMemory;
use eval_state::frame::ContinuationFrame;
use eval_state::machine::Machine;
use eval_state::situation::{DynamicLinks, Situation};
use flat_language::{FlatCore, FlatDynBindings};

/// The values of dynamic bindings are there, which are the last operands: they become variables, and the body is
/// evaluated with the bindings around it.
pub fn dynamic_body<'p>(
    machine: &mut Machine<'p>,
    list: &'p FlatDynBindings,
    count: usize,
    body: &'p FlatCore,
    situation: Situation,
) -> Result<(), NoMemory>
    ensures { OnOk result (ContinuesAs machine.old machine.new count (λ names s. dynamic_let_step s (dynamics_of list.now) body.now (top names machine.old count) (at names machine.old situation))) }
{
    let first = machine.store.variable_count();
    let held = machine.held_operands(count);
    add_values(machine, held)?;
    machine.drop_operands(count);
    let link = machine.next_link()?;
    let frame = ContinuationFrame::Binds(list, first, situation.around.bindings);
    machine.enter(frame, body, inside_bindings(situation, link))
}

// The values of the last operands, so many as that, become variables of the store.
fn add_values(machine: &mut Machine<'_>, count: usize) -> Result<(), NoMemory>
    requires { count ≤ length machine.old.operands.items }
    ensures { OnOk result (AreVariables machine.old machine.new (last_of count machine.old.operands.items)) }
{
    let first = machine.operands.len() - count;
    for at in 0..count {
        let word = machine.operand_at(first + at);
        machine.store.add_variable(word)?;
    }
    Ok(())
}

// The situation inside dynamic bindings, which have that link.
fn inside_bindings(outside: Situation, link: usize) -> Situation
    ensures { result ≡ record outside { around = record outside.around { bindings = link } } }
{
    Situation {
        level: outside.level,
        own: outside.own,
        around: DynamicLinks {
            exits: outside.around.exits,
            handlers: outside.around.handlers,
            bindings: link,
            site: outside.around.site,
        },
    }
}
