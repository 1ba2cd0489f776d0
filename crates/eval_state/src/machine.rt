// The machine: what it is about to do, its frames, and its state.

ghost use Rattle.std.specs.Prelude.{◌≡◌, OnOk, OnErr, IfOk, true, false, [], ◌∷◌, ◌-◌, length};
ghost use Rattle.lang_meaning.specs.State.{value, full, more};
ghost use Rattle.flat_language.specs.FlatState.{charged};
ghost use Rattle.eval_machine.specs.Configuration.{configuration, evaluate, come_to, signals};
ghost use Rattle.eval_store.specs.Words.{value_of_word};
ghost use Rattle.eval_state.specs.Frames.{outcome_of};
ghost use Rattle.eval_state.specs.View.{ContinuesAs, StepsTo, IsCharged, OnlyWaits, at, frames, state, waiting_frame_of};

use crate::frame::{ContinuationFrame, Outcome};
use crate::given::Given;
use crate::situation::{Activation, DynamicLinks, Situation};
use crate::slot::Slot;
use base::NoMemory;
use eval_store::{Halt, Store, Word};
use flat_language::FlatCore;

/// What is done next: a form is evaluated; a loop with that test and that body goes on; a condition is signalled with a mark; or
/// an outcome goes into the innermost frame.
#[derive(Clone, Copy)]
pub enum Control<'p> {
    Evaluate(&'p FlatCore, Situation),
    Again(&'p FlatCore, &'p FlatCore, Situation),
    Signals {
        condition: Word,
        mark: Word,
        level: u64,
        around: DynamicLinks,
    },
    ComeTo(Outcome),
}

/// The machine. Its frames stand with the outermost one first, their operands and the slots of all activations likewise.
#[derive(Drop)]
pub struct Machine<'p> {
    pub given: Given<'p>,
    pub control: Control<'p>,
    pub frames: Vec<ContinuationFrame<'p>>,
    pub operands: Vec<Word>,
    pub slots: Vec<Slot>,
    pub current: Activation<'p>,
    pub store: Store<'p>,
}

impl<'p> Machine<'p> {
    /// An outcome goes into the innermost frame.
    pub fn come_to(&mut self, outcome: Outcome)
        ensures { ContinuesAs self.old self.new 0 (λ names s. configuration (come_to (outcome_of names outcome))) }
    {
        self.control = Control::ComeTo(outcome);
    }

    /// A value goes into the innermost frame, and so many operands go.
    pub fn gives(&mut self, word: Word)
        ensures { ContinuesAs self.old self.new 0 (λ names s. configuration (come_to (value (value_of_word names word)))) }
    {
        self.control = Control::ComeTo(Outcome::Value(word));
    }

    /// A form is evaluated.
    pub fn evaluate(&mut self, form: &'p FlatCore, situation: Situation)
        ensures { ContinuesAs self.old self.new 0 (λ names s. configuration (evaluate form.now (at names self.old situation))) }
    {
        self.control = Control::Evaluate(form, situation);
    }

    /// A form is evaluated, for whose value a frame waits.
    #[tactic(auto, using(crate::proofs::Pushes::pushed, crate::proofs::Pushes::stays))]
    pub fn wait(
        &mut self,
        frame: ContinuationFrame<'p>,
        form: &'p FlatCore,
        situation: Situation,
    ) -> Result<(), NoMemory>
        requires { OnlyWaits frame ≡ true }
        ensures { OnOk result (StepsTo self.old self.new (λ names s b. configuration (evaluate form.now (at names self.old situation)) (waiting_frame_of names self.old frame.entry ∷ frames names self.old 0) (state names self.old b))) }
    {
        self.push_frame(frame)?;
        self.control = Control::Evaluate(form, situation);
        Ok(())
    }

    /// Units are counted.
    pub fn charge(&mut self, units: u64) -> Result<(), NoMemory>
        ensures { OnOk result (IsCharged self.old self.new units) }
    {
        match self.store.charge(units) {
            Ok(()) => Ok(()),
            Err(_) => Err(NoMemory),
        }
    }
}
