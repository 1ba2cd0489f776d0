// Frames that take any outcome, and frames that wait for a value.

ghost use Rattle.std.specs.Prelude.{◌≡◌, None, OnOk};
ghost use Rattle.eval_machine.specs.Step.{outcome_step};
ghost use Rattle.eval_state.specs.Frames.{outcome_of};
ghost use Rattle.eval_state.specs.Tops.{taken, below};
ghost use Rattle.eval_state.specs.View.{StepsTo, state};
ghost use Rattle.eval_control.specs.Passing.{waiting_operands};

use crate::outcomes::{catches, cleans, turns};
use crate::restoring::{drops_slots, restores_slots, restores_stack};
use base::NoMemory;
use eval_state::frame::{ContinuationFrame, Outcome};
use eval_state::machine::Machine;

/// The operands of a frame that waits for a value; other frames take any outcome.
pub fn waiting_operands(frame: &ContinuationFrame<'_>) -> Option<usize>
    ensures { result ≡ waiting_operands frame.now }
{
    match frame {
        ContinuationFrame::Block { .. }
        | ContinuationFrame::Catch { .. }
        | ContinuationFrame::Signal { .. }
        | ContinuationFrame::Tagbody { .. }
        | ContinuationFrame::Cleans(..)
        | ContinuationFrame::RestoresStack(_)
        | ContinuationFrame::RestoresSlots(_)
        | ContinuationFrame::DropsSlots(_)
        | ContinuationFrame::Handles(..)
        | ContinuationFrame::Binds(..) => None,
        ContinuationFrame::Binding(_, operands, _, _)
        | ContinuationFrame::Argument(_, _, operands, _)
        | ContinuationFrame::DynamicValue(_, operands, _, _) => Some(*operands),
        _ => Some(0),
    }
}

/// An outcome comes to a frame that takes any.
pub fn take_outcome<'p>(
    machine: &mut Machine<'p>,
    frame: ContinuationFrame<'p>,
    outcome: Outcome,
) -> Result<(), NoMemory>
    requires { waiting_operands frame ≡ None }
    ensures { OnOk result (StepsTo machine.old machine.new (λ names s b. outcome_step s (taken names machine.old frame.entry) (outcome_of names outcome) (below names machine.old frame.entry) (state names machine.old b))) }
{
    match frame {
        ContinuationFrame::Block { number, .. } => {
            catches(machine, number, outcome);
            Ok(())
        }
        ContinuationFrame::Catch { number, .. } => {
            catches(machine, number, outcome);
            Ok(())
        }
        ContinuationFrame::Signal { number, .. } => {
            catches(machine, number, outcome);
            Ok(())
        }
        ContinuationFrame::Tagbody {
            number,
            segments,
            outside,
        } => turns(machine, number, segments, outside, outcome),
        ContinuationFrame::Cleans(cleanup, situation) => cleans(
            machine, cleanup, situation, outcome,
        ),
        ContinuationFrame::RestoresStack(words) => {
            restores_stack(machine, words, outcome);
            Ok(())
        }
        ContinuationFrame::RestoresSlots(saved) => {
            restores_slots(machine, saved, outcome);
            Ok(())
        }
        ContinuationFrame::DropsSlots(count) => {
            drops_slots(machine, count, outcome);
            Ok(())
        }
        ContinuationFrame::Handles(..) => {
            machine.come_to(outcome);
            Ok(())
        }
        ContinuationFrame::Binds(..) => {
            machine.come_to(outcome);
            Ok(())
        }
        _ => unreachable!(),
    }
}
