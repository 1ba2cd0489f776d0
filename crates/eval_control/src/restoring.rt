// What was there before an application or a body comes back when it is left, by whatever outcome.

ghost use Rattle.std.specs.Prelude.{◌≡◌, take, reverse};
ghost use Rattle.flat_language.specs.FlatState.{with_stack, with_frame, without_slots_from};
ghost use Rattle.eval_machine.specs.Configuration.{ended};
ghost use Rattle.eval_state.specs.Frames.{outcome_of, others_of, frame_slots, frames_in};
ghost use Rattle.eval_state.specs.Slots.{IsChanged};
ghost use Rattle.eval_state.specs.View.{StepsTo, frames, state};

use eval_state::frame::Outcome;
use eval_state::machine::Machine;
use eval_state::situation::Activation;
use std::mem;

/// The words of the stack are as many as before an application.
pub fn restores_stack(machine: &mut Machine<'_>, words: u64, outcome: Outcome)
    ensures { StepsTo machine.old machine.new (λ names s b. ended (with_stack words (record { outcome = outcome_of names outcome; state = state names machine.old b })) (frames names machine.old 0)) }
{
    machine.store.set_stack(words);
    machine.come_to(outcome);
}

/// The slots of the activation that ran go, and the one of before runs again.
pub fn restores_slots<'p>(machine: &mut Machine<'p>, saved: Activation<'p>, outcome: Outcome)
    ensures { StepsTo machine.old machine.new (λ names s b.
        ended (with_frame (frame_slots names saved.entry (others_of machine.old.current.slots machine.old.slots.items)) (record { outcome = outcome_of names outcome; state = state names machine.old b }))
        (frames_in names saved.entry (others_of 0 machine.old.operands.items) (others_of machine.old.current.slots machine.old.slots.items) (reverse machine.old.frames.items))) }
{
    let left = machine.slots.len().saturating_sub(machine.current.slots);
    machine.slots.truncate(left);
    drop(mem::replace(&mut machine.current, saved));
    machine.come_to(outcome);
}

/// The slots of a body go.
pub fn drops_slots(machine: &mut Machine<'_>, count: usize, outcome: Outcome)
    ensures { StepsTo machine.old machine.new (λ names s b. ended (without_slots_from count (record { outcome = outcome_of names outcome; state = state names machine.old b })) (frames names machine.old 0)) }
{
    keep_slots(machine, count);
    machine.come_to(outcome);
}

// The first slots of the activation stay, so many as that.
fn keep_slots(machine: &mut Machine<'_>, count: usize)
    ensures { IsChanged machine.old machine.new (λ names z. record z { frame = take count z.frame }) }
{
    let first = machine.slots.len().saturating_sub(machine.current.slots);
    if machine.slots.len() - first <= count {
        return;
    }
    machine.slots.truncate(first + count);
    machine.current.slots = count;
}
