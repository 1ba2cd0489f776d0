// Frames are pushed.

ghost use Rattle.std.specs.Prelude.{◌≡◌, ◌∷◌, true, suc, length, reverse, OnOk, IfOk};
ghost use Rattle.eval_machine.specs.Configuration.{configuration, evaluate};
ghost use Rattle.eval_state.specs.Frames.{situation_in};
ghost use Rattle.eval_state.specs.Tops.{taken, below, IsUnlinked, IsAbove};
ghost use Rattle.eval_state.specs.View.{StepsTo, at, state};

use crate::frame::ContinuationFrame;
use crate::machine::{Control, Machine};
use crate::places::place_behind;
use crate::situation::Situation;
use base::NoMemory;
use flat_language::FlatCore;

impl<'p> Machine<'p> {
    /// A form is evaluated above a new frame, in a situation that may link to it.
    pub fn enter(
        &mut self,
        frame: ContinuationFrame<'p>,
        form: &'p FlatCore,
        inside: Situation,
    ) -> Result<(), NoMemory>
        ensures { OnOk result (StepsTo self.old self.new (λ names s b. configuration (evaluate form.now (situation_in names self.old.current (frame.entry ∷ reverse self.old.frames.items) inside)) (taken names self.old frame.entry ∷ below names self.old frame.entry) (state names self.old b))) }
    {
        self.push_frame(frame)?;
        self.control = Control::Evaluate(form, inside);
        Ok(())
    }

    /// A form is evaluated, for whose value a frame waits that may have operands.
    pub fn hold(
        &mut self,
        frame: ContinuationFrame<'p>,
        form: &'p FlatCore,
        situation: Situation,
    ) -> Result<(), NoMemory>
        requires { IsUnlinked frame ≡ true }
        ensures { OnOk result (StepsTo self.old self.new (λ names s b. configuration (evaluate form.now (at names self.old situation)) (taken names self.old frame.entry ∷ below names self.old frame.entry) (state names self.old b))) }
    {
        self.enter(frame, form, situation)
    }

    /// A frame more.
    pub fn push_frame(&mut self, frame: ContinuationFrame<'p>) -> Result<(), NoMemory>
        ensures { OnOk result (IsAbove self.old self.new frame.entry) }
    {
        match self.frames.push(frame) {
            Ok(()) => Ok(()),
            Err(refused) => {
                drop(refused);
                Err(NoMemory)
            }
        }
    }

    /// The link to the frame that is pushed next.
    pub fn next_link(&self) -> Result<usize, NoMemory>
        ensures { IfOk result (λ link. link ≡ suc (length self.now.frames.items)) }
    {
        place_behind(self.frames.as_slice().len())
    }
}
