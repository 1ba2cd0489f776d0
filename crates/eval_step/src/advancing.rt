// Steps one after another, up to the next form.

ghost use Rattle.std.specs.Prelude.{IfOk};
ghost use Rattle.eval_step.specs.Advanced.{IsAtForm};

use crate::evaluator::Evaluator;
use base::NoMemory;

impl<'p> Evaluator<'p> {
    /// Steps up to the one in which the next form begins, or up to the end; whether a form begins. Nothing is read. After
    /// `NoMemory`, which comes after 2^64 - 1 steps too, nothing is known of the machine.
    pub fn to_form(&mut self) -> Result<bool, NoMemory>
        ensures { IfOk result (IsAtForm self.old self.new) }
    {
        for _ in 0..u64::MAX {
            if self.begins_form() {
                return Ok(true);
            }
            let went = self.step()?;
            if !went {
                return Ok(false);
            }
        }
        Err(NoMemory)
    }
}
