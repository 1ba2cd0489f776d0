// What the next step is to do, and what was come to where there is none.

ghost use Rattle.std.specs.Prelude.{◌≡◌, ◌&&◌, not, List, ℕ};
ghost use Rattle.flat_language.specs.model.View.{view_form};
ghost use Rattle.eval_machine.specs.Run.{form_begins, begins, outcome_of as outcome_come_to};
ghost use Rattle.eval_primitives.specs.Groups.{stream_of};
ghost use Rattle.eval_store.specs.View.{Beside};
ghost use Rattle.eval_state.specs.Frames.{outcome_of};
ghost use Rattle.eval_state.specs.View.{configuration_of};
ghost use Rattle.eval_step.specs.Streams.{is_reading, form_reads, control_reads, is_fed};

use crate::computing::stream_among;
use crate::evaluator::Evaluator;
use eval_primitives::Stream;
use eval_state::frame::Outcome;
use eval_state::machine::Control;
use flat_language::FlatCoreForm;
use lang_meaning::Primitive;

impl<'p> Evaluator<'p> {
    /// Whether the next step reads, and nothing is there to be read.
    pub fn waits(&self) -> bool
        ensures { result ≡ (control_reads self.now.machine.control && not (is_fed self.now)) }
    {
        self.reads_next() && !self.is_fed()
    }

    // Whether the next step reads.
    fn reads_next(&self) -> bool
        ensures { result ≡ control_reads self.now.machine.control }
    {
        match self.machine.control {
            Control::Evaluate(form, _situation) => reads(&form.form),
            Control::Again(_test, _body, _situation) => false,
            Control::Signals { .. } => false,
            Control::ComeTo(_outcome) => false,
        }
    }

    // Whether a byte is there, or nothing is left to read.
    fn is_fed(&self) -> bool
        ensures { result ≡ is_fed self.now }
    {
        self.ended || self.ahead.get(self.taken).is_some()
    }

    /// Whether a form begins in the next step.
    pub fn begins_form(&self) -> bool
        ensures { (names : List (List ℕ)) (b : Beside) → result ≡ begins (configuration_of names self.now.machine b).control }
    {
        match self.machine.control {
            Control::Evaluate(form, _situation) => begins(&form.form),
            Control::Again(_test, _body, _situation) => true,
            Control::Signals { .. } => false,
            Control::ComeTo(_outcome) => false,
        }
    }

    /// The outcome that was come to; where there is none, More.
    pub fn outcome(&self) -> Outcome
        ensures { (names : List (List ℕ)) (b : Beside) → outcome_of names result ≡ outcome_come_to (configuration_of names self.now.machine b).control }
    {
        match self.machine.control {
            Control::ComeTo(outcome) => outcome,
            Control::Evaluate(_form, _situation) => Outcome::More,
            Control::Again(_test, _body, _situation) => Outcome::More,
            Control::Signals { .. } => Outcome::More,
        }
    }
}

// Whether a form begins as itself, and not with the form inside it.
fn begins(form: &FlatCoreForm) -> bool
    ensures { result ≡ form_begins (view_form form.now) }
{
    match form {
        FlatCoreForm::Sited(_site, _form) => false,
        _ => true,
    }
}

// Whether a form reads as it begins.
fn reads(form: &FlatCoreForm) -> bool
    ensures { result ≡ form_reads (view_form form.now) }
{
    match form {
        FlatCoreForm::Prim(which, _list) => is_reading(*which),
        _ => false,
    }
}

// Whether a primitive reads.
fn is_reading(which: Primitive) -> bool
    ensures { result ≡ is_reading which }
{
    match stream_among(which) {
        Some(stream) => takes_byte(stream),
        None => false,
    }
}

// The same of one of the streams.
fn takes_byte(stream: Stream) -> bool
    ensures { result ≡ is_reading (stream_of stream) }
{
    match stream {
        Stream::PutChar => false,
        Stream::IsFreshLine => false,
        Stream::GetByte => true,
        Stream::PeekByte => true,
    }
}
