// One step of the evaluator.

ghost use Rattle.std.specs.Prelude.{◌≡◌, true, Some, OnOk, IfOk};
ghost use Rattle.eval_machine.specs.Step.{outcome_step};
ghost use Rattle.eval_state.specs.declared.machine.Control.TheVariants.{ComeTo};
ghost use Rattle.eval_state.specs.Frames.{outcome_of};
ghost use Rattle.eval_state.specs.Tops.{taken, below};
ghost use Rattle.eval_state.specs.View.{state};
ghost use Rattle.eval_control.specs.Passing.{waiting_operands};
ghost use Rattle.eval_step.specs.Runs.{Runs};
ghost use Rattle.eval_step.specs.Streams.{control_reads, is_fed};
ghost use Rattle.eval_step.specs.Stepped.{IsStepped, IsTopTaken};

use crate::evaluator::Evaluator;
use base::NoMemory;
use eval_application::signalling::signal_under;
use eval_control::outcomes::pass;
use eval_control::passing::{take_outcome, waiting_operands};
use eval_state::frame::{ContinuationFrame, Outcome};
use eval_state::machine::Control;

impl<'p> Evaluator<'p> {
    /// One step; whether there was one, which is not so where the machine has ended. What it reads is there.
    pub fn step(&mut self) -> Result<bool, NoMemory>
        requires { control_reads self.old.machine.control ≡ true → is_fed self.old ≡ true }
        ensures { IfOk result (IsStepped self.old self.new) }
    {
        match self.machine.control {
            Control::Evaluate(form, situation) => {
                self.begin(form, situation)?;
                Ok(true)
            }
            Control::Again(test, body, situation) => {
                self.again(test, body, situation)?;
                Ok(true)
            }
            Control::Signals {
                condition,
                mark,
                level,
                around,
            } => {
                signal_under(&mut self.machine, condition, mark, level, around)?;
                Ok(true)
            }
            Control::ComeTo(outcome) => self.leave(outcome),
        }
    }

    // An outcome goes into the innermost frame, if there is one.
    fn leave(&mut self, outcome: Outcome) -> Result<bool, NoMemory>
        requires { self.old.machine.control ≡ ComeTo outcome }
        ensures { IfOk result (IsStepped self.old self.new) }
    {
        let Some(frame) = self.take_top() else {
            return Ok(false);
        };
        self.come_out(frame, outcome)?;
        Ok(true)
    }

    // The frame on top, which goes.
    fn take_top(&mut self) -> Option<ContinuationFrame<'p>>
        ensures { IsTopTaken self.old self.new result }
    {
        self.machine.frames.pop()
    }

    // An outcome comes to the frame that was on top.
    fn come_out(&mut self, frame: ContinuationFrame<'p>, outcome: Outcome) -> Result<(), NoMemory>
        ensures { OnOk result (Runs self.old self.new (λ names s b. outcome_step s (taken names self.old.machine frame.entry) (outcome_of names outcome) (below names self.old.machine frame.entry) (state names self.old.machine b))) }
    {
        match waiting_operands(&frame) {
            Some(operands) => self.come_to_place(frame, operands, outcome),
            None => take_outcome(&mut self.machine, frame, outcome),
        }
    }

    // An outcome comes to a place that waits for a value; it passes any other on.
    fn come_to_place(
        &mut self,
        frame: ContinuationFrame<'p>,
        operands: usize,
        outcome: Outcome,
    ) -> Result<(), NoMemory>
        requires { waiting_operands frame ≡ Some operands }
        ensures { OnOk result (Runs self.old self.new (λ names s b. outcome_step s (taken names self.old.machine frame.entry) (outcome_of names outcome) (below names self.old.machine frame.entry) (state names self.old.machine b))) }
    {
        match outcome {
            Outcome::Value(word) => self.value(frame, word),
            Outcome::Exit(..) | Outcome::Full { .. } | Outcome::More => {
                drop(frame);
                pass(&mut self.machine, outcome, operands);
                Ok(())
            }
        }
    }
}
