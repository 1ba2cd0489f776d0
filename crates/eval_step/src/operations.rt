// What is done with arguments.

ghost use Rattle.std.specs.Prelude.{◌≡◌, true, OnOk};
ghost use Rattle.eval_machine.specs.Step.{operation_step};
ghost use Rattle.eval_state.specs.Frames.{last_of, operation_of};
ghost use Rattle.eval_state.specs.View.{at, top};
ghost use Rattle.eval_step.specs.Runs.{RunsAs, Runs};
ghost use Rattle.eval_step.specs.Streams.{operation_reads, is_fed};

use crate::evaluator::Evaluator;
use base::NoMemory;
use eval_application::calls::call_named;
use eval_application::values::call_first;
use eval_state::frame::Operator;
use eval_state::situation::Situation;

impl<'p> Evaluator<'p> {
    /// What is done with arguments, which are the last operands. What a primitive reads is there.
    pub fn operate(
        &mut self,
        operation: Operator,
        count: usize,
        situation: Situation,
    ) -> Result<(), NoMemory>
        requires { operation_reads operation (last_of count self.old.machine.operands.items) ≡ true → is_fed self.old ≡ true }
        ensures { OnOk result (RunsAs self.old self.new count (λ names s. operation_step s (operation_of operation) (top names self.old.machine count) (at names self.old.machine situation))) }
    {
        match operation {
            Operator::CallName(name) => call_named(&mut self.machine, name, count, situation),
            Operator::CallFirst => call_first(&mut self.machine, count, situation),
            Operator::Compute(which) => self.compute(which, count, situation),
        }
    }
}
