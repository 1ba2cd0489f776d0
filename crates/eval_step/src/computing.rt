// Primitives compute with arguments, which are the last operands.

ghost use Rattle.std.specs.Prelude.{◌≡◌, true, false, MatchOption, OnOk};
ghost use Rattle.eval_machine.specs.Configuration.{compute};
ghost use Rattle.eval_machine.specs.Step.{operation_step};
ghost use Rattle.eval_primitives.specs.Groups.{is_streaming, stream_of};
ghost use Rattle.eval_state.specs.Frames.{last_of};
ghost use Rattle.eval_state.specs.View.{at, top};
ghost use Rattle.eval_step.specs.Runs.{RunsAs, Runs};
ghost use Rattle.eval_step.specs.Streams.{reads, is_fed};

use crate::evaluator::Evaluator;
use base::NoMemory;
use eval_primitives::{Group, Stream, group_of};
use eval_state::situation::Situation;
use lang_meaning::Primitive;

impl<'p> Evaluator<'p> {
    /// A primitive computes with arguments, which are the last operands; they go. What it reads is there.
    pub fn compute(
        &mut self,
        which: Primitive,
        count: usize,
        situation: Situation,
    ) -> Result<(), NoMemory>
        requires { reads which (last_of count self.old.machine.operands.items) ≡ true → is_fed self.old ≡ true }
        ensures { OnOk result (RunsAs self.old self.new count (λ names s. operation_step s (compute which) (top names self.old.machine count) (at names self.old.machine situation))) }
    {
        match stream_among(which) {
            Some(stream) => self.stream(stream, count, situation.level, situation.around),
            None => self.compute_alone(which, count, situation),
        }
    }

    // One that reads and writes no stream.
    fn compute_alone(
        &mut self,
        which: Primitive,
        count: usize,
        situation: Situation,
    ) -> Result<(), NoMemory>
        requires { is_streaming which ≡ false }
        ensures { OnOk result (RunsAs self.old self.new count (λ names s. operation_step s (compute which) (top names self.old.machine count) (at names self.old.machine situation))) }
    {
        eval_state::computing::compute(
            &mut self.machine,
            which,
            count,
            situation.level,
            situation.around,
        )
    }
}

/// The primitive as one of the streams, if it is one.
pub fn stream_among(which: Primitive) -> Option<Stream>
    ensures { MatchOption result (is_streaming which ≡ false) (λ stream. stream_of stream ≡ which) }
{
    match group_of(which) {
        Group::Stream(stream) => Some(stream),
        Group::Zero(_zero) => None,
        Group::One(_one) => None,
        Group::Two(_two) => None,
        Group::Three(_three) => None,
    }
}
