// A value comes to a place that waits for it.

ghost use Rattle.std.specs.Prelude.{◌≡◌, ◌++◌, ◌∷◌, [], suc, true, is_some, OnOk};
ghost use Rattle.lang_meaning.specs.State.{value};
ghost use Rattle.eval_machine.specs.Step.{arguments_step, outcome_step};
ghost use Rattle.eval_store.specs.Words.{value_of_word};
ghost use Rattle.eval_state.specs.Frames.{forms_from, operation_of};
ghost use Rattle.eval_state.specs.Tops.{taken, below};
ghost use Rattle.eval_state.specs.View.{at, top, state};
ghost use Rattle.eval_control.specs.Passing.{waiting_operands};
ghost use Rattle.eval_step.specs.Runs.{RunsAs, Runs};

use crate::evaluator::Evaluator;
use crate::named::Table;
use base::NoMemory;
use eval_application::lists::apply_list;
use eval_application::methods::{after_before, after_primary, apply_each};
use eval_application::signalling::{signal_condition, with_handler};
use eval_control::values::value_at_frame;
use eval_state::frame::{ContinuationFrame, Operator};
use eval_state::places::place_behind;
use eval_state::situation::Situation;
use eval_store::Word;
use flat_language::FlatCoreList;

impl<'p> Evaluator<'p> {
    // An argument has its value, which is an operand more.
    fn argument_value(
        &mut self,
        operation: Operator,
        list: &'p FlatCoreList,
        count: usize,
        word: Word,
        situation: Situation,
    ) -> Result<(), NoMemory>
        ensures { OnOk result (RunsAs self.old self.new count (λ names s. arguments_step s (operation_of operation) (forms_from list.now (suc count)) (top names self.old.machine count ++ value_of_word names word ∷ []) (at names self.old.machine situation))) }
    {
        let next = place_behind(count)?;
        self.machine.push_operand(word)?;
        self.arguments(operation, list, next, situation)
    }

    /// A value comes to a place that waits for it, whose frame was on top.
    pub fn value(&mut self, frame: ContinuationFrame<'p>, word: Word) -> Result<(), NoMemory>
        requires { is_some (waiting_operands frame) ≡ true }
        ensures { OnOk result (Runs self.old self.new (λ names s b. outcome_step s (taken names self.old.machine frame.entry) (value (value_of_word names word)) (below names self.old.machine frame.entry) (state names self.old.machine b))) }
    {
        match frame {
            ContinuationFrame::SetGlobal(name, situation) => {
                self.set_named(Table::Globals, name, word, situation)
            }
            ContinuationFrame::DefGlobal(name) => self.define_named(Table::Globals, name, word),
            ContinuationFrame::Argument(operation, list, count, situation) => self.argument_value(
                operation, list, count, word, situation,
            ),
            ContinuationFrame::AppliedList(function, situation) => apply_list(
                &mut self.machine,
                function,
                word,
                situation,
            ),
            ContinuationFrame::SetDynamic(name, situation) => self.set_dynamic(
                name, word, situation,
            ),
            ContinuationFrame::DefDynamic(name) => self.define_named(Table::Dynamics, name, word),
            ContinuationFrame::HandlerValue(body, situation) => with_handler(
                &mut self.machine,
                word,
                body,
                situation,
            ),
            ContinuationFrame::SignalMark(condition, situation) => signal_condition(
                &mut self.machine,
                condition,
                word,
                situation,
            ),
            ContinuationFrame::Methods(list, place, arguments, level, around) => apply_each(
                &mut self.machine,
                list,
                place,
                arguments,
                level,
                around,
            ),
            ContinuationFrame::BeforeMethods(rest, arguments, level, around) => after_before(
                &mut self.machine,
                rest,
                arguments,
                level,
                around,
            ),
            ContinuationFrame::PrimaryMethod(rest, arguments, level, around) => after_primary(
                &mut self.machine,
                rest,
                arguments,
                word,
                level,
                around,
            ),
            other => value_at_frame(&mut self.machine, other, word),
        }
    }
}
