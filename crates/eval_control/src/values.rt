// A value comes to a place that waits for it, where that wants the machine alone.

ghost use Rattle.std.specs.Prelude.{◌≡◌, ◌++◌, ◌∷◌, [], suc, true, false, is_some, slice_get, option_copied, OnOk, if◌then◌else◌};
ghost use Rattle.lang_meaning.specs.State.{value};
ghost use Rattle.lang_meaning.specs.Values.{is_true, nil};
ghost use Rattle.flat_language.specs.FlatForm.{while_form};
ghost use Rattle.flat_language.specs.FlatState.{gives};
ghost use Rattle.flat_language.specs.model.View.{bindings_of, dynamics_of};
ghost use Rattle.eval_machine.specs.Configuration.{configuration, ended, evaluate, awaits, descend, while_body};
ghost use Rattle.eval_machine.specs.Configuration as plain;
ghost use Rattle.eval_machine.specs.Step.{value_step, bindings_step, dynamics_step, outcome_step};
ghost use Rattle.eval_store.specs.Words.{value_of_word};
ghost use Rattle.eval_state.specs.Frames.{bindings_from, dynamics_from, clauses_from, clause_wait};
ghost use Rattle.eval_state.specs.Tops.{taken, below};
ghost use Rattle.eval_state.specs.View.{ContinuesAs, StepsTo, at, top, state};
ghost use Rattle.eval_control.specs.Passing.{waiting_operands, WantsMore};
ghost use Rattle.eval_control.specs.Valued.{clause_body_of};

use crate::blocks::catch;
use crate::jumps::return_from;
use crate::lists::{bindings, clauses, dynamics, sequence};
use crate::locals::set_local;
use crate::main_forms::{main_forms, main_value};
use crate::outcomes::at_level;
use crate::transfers::{continue_with, throw_to};
use base::NoMemory;
use eval_state::frame::{ContinuationFrame, Outcome};
use eval_state::machine::{Control, Machine};
use eval_state::places::place_behind;
use eval_state::situation::Situation;
use eval_state::word_tests::is_true;
use eval_store::Word;
use flat_language::{FlatBindingList, FlatClause, FlatClauseList, FlatCore, FlatDynBindings};
use lang_meaning::ClassId;

// The class of conditions that a handler signals which returns.
const CONTROL_ERROR: ClassId = 22;

// The test of a clause has a value.
fn clause_value<'p>(
    machine: &mut Machine<'p>,
    list: &'p FlatClauseList,
    place: usize,
    word: Word,
    situation: Situation,
) -> Result<(), NoMemory>
    ensures { OnOk result (ContinuesAs machine.old machine.new 0 (λ names s. value_step s (clause_wait (slice_get list.now place) (clauses_from list.now (suc place)) (at names machine.old situation)) (value_of_word names word))) }
{
    if is_true(word) {
        clause_body(machine, list.get(place), word, situation);
        Ok(())
    } else {
        let next = place_behind(place)?;
        clauses(machine, list, next, situation)
    }
}

// The body of a clause is evaluated; without one the value of its test is the value.
fn clause_body<'p>(
    machine: &mut Machine<'p>,
    clause: Option<&'p FlatClause>,
    word: Word,
    situation: Situation,
)
    ensures { ContinuesAs machine.old machine.new 0 (λ names s. clause_body_of s (value_of_word names word) (option_copied clause.entry) (at names machine.old situation)) }
{
    let Some(clause) = clause else {
        machine.gives(word);
        return;
    };
    match &clause.body {
        Some(body) => machine.evaluate(body, situation),
        None => machine.gives(word),
    }
}

// A binding has its value, which is an operand more.
fn binding_value<'p>(
    machine: &mut Machine<'p>,
    list: &'p FlatBindingList,
    count: usize,
    body: &'p FlatCore,
    word: Word,
    situation: Situation,
) -> Result<(), NoMemory>
    ensures { OnOk result (ContinuesAs machine.old machine.new count (λ names s. bindings_step s (bindings_from list.now (suc count)) (top names machine.old count ++ value_of_word names word ∷ []) (bindings_of list.now) body.now (at names machine.old situation))) }
{
    let next = place_behind(count)?;
    machine.push_operand(word)?;
    bindings(machine, list, next, body, situation)
}

// A dynamic binding has its value, which is an operand more.
fn dynamic_value<'p>(
    machine: &mut Machine<'p>,
    list: &'p FlatDynBindings,
    count: usize,
    body: &'p FlatCore,
    word: Word,
    situation: Situation,
) -> Result<(), NoMemory>
    ensures { OnOk result (ContinuesAs machine.old machine.new count (λ names s. dynamics_step s (dynamics_from list.now (suc count)) (top names machine.old count ++ value_of_word names word ∷ []) (dynamics_of list.now) body.now (at names machine.old situation))) }
{
    let next = place_behind(count)?;
    machine.push_operand(word)?;
    dynamics(machine, list, next, body, situation)
}

// The test of a loop has a value.
fn loop_value<'p>(
    machine: &mut Machine<'p>,
    test: &'p FlatCore,
    body: &'p FlatCore,
    word: Word,
    situation: Situation,
) -> Result<(), NoMemory>
    ensures { OnOk result (ContinuesAs machine.old machine.new 0 (λ names s. value_step s (plain.while_test test.now body.now (at names machine.old situation)) (value_of_word names word))) }
{
    if is_true(word) {
        machine.wait(
            ContinuationFrame::WhileBody(test, body, situation),
            body,
            situation,
        )
    } else {
        machine.gives(Word::Nil);
        Ok(())
    }
}

// A loop goes on, one level below.
fn goes_on<'p>(
    machine: &mut Machine<'p>,
    test: &'p FlatCore,
    body: &'p FlatCore,
    situation: Situation,
)
    ensures { ContinuesAs machine.old machine.new 0 (λ names s. descend situation.level (λ k. configuration (evaluate (while_form test.now body.now) (record (at names machine.old situation) { level = k })))) }
{
    let Some(below) = situation.level.checked_sub(1) else {
        machine.come_to(Outcome::More);
        return;
    };
    machine.control = Control::Again(test, body, at_level(situation, below));
}

/// A value comes to a place that waits for it, whose frame was on top.
pub fn value_at_frame<'p>(
    machine: &mut Machine<'p>,
    frame: ContinuationFrame<'p>,
    word: Word,
) -> Result<(), NoMemory>
    requires waits { is_some (waiting_operands frame) ≡ true }
    requires alone { WantsMore frame ≡ false }
    ensures { OnOk result (StepsTo machine.old machine.new (λ names s b. outcome_step s (taken names machine.old frame.entry) (value (value_of_word names word)) (below names machine.old frame.entry) (state names machine.old b))) }
{
    match frame {
        ContinuationFrame::SetLocal(place, situation) => set_local(machine, place, word, situation),
        ContinuationFrame::Sequence(list, place, situation) => sequence(
            machine, word, list, place, situation,
        ),
        ContinuationFrame::Clause(list, place, situation) => clause_value(
            machine, list, place, word, situation,
        ),
        ContinuationFrame::Binding(list, count, body, situation) => binding_value(
            machine, list, count, body, word, situation,
        ),
        ContinuationFrame::DynamicValue(list, count, body, situation) => dynamic_value(
            machine, list, count, body, word, situation,
        ),
        ContinuationFrame::AppliedFunction(list, situation) => machine.wait(
            ContinuationFrame::AppliedList(word, situation),
            list,
            situation,
        ),
        ContinuationFrame::WhileTest(test, body, situation) => loop_value(
            machine, test, body, word, situation,
        ),
        ContinuationFrame::WhileBody(test, body, situation) => {
            goes_on(machine, test, body, situation);
            Ok(())
        }
        ContinuationFrame::ReturnValue(place, situation) => return_from(
            machine, place, word, situation,
        ),
        ContinuationFrame::LastSegment => {
            machine.gives(Word::Nil);
            Ok(())
        }
        ContinuationFrame::CatchTag(body, situation) => catch(machine, body, word, situation),
        ContinuationFrame::ThrowTag(form, situation) => machine.wait(
            ContinuationFrame::ThrowValue(word, situation),
            form,
            situation,
        ),
        ContinuationFrame::ThrowValue(tag, situation) => throw_to(
            machine,
            tag,
            word,
            situation.level,
            situation.around,
        ),
        ContinuationFrame::SignalCondition(mark, situation) => machine.wait(
            ContinuationFrame::SignalMark(word, situation),
            mark,
            situation,
        ),
        ContinuationFrame::ContinueCondition(form, situation) => machine.wait(
            ContinuationFrame::ContinueValue(word, situation),
            form,
            situation,
        ),
        ContinuationFrame::ContinueValue(condition, situation) => continue_with(
            machine,
            condition,
            word,
            situation.level,
            situation.around,
        ),
        ContinuationFrame::Kept(outcome) => {
            machine.come_to(outcome);
            Ok(())
        }
        ContinuationFrame::HandlerReturn(level, around) => machine.signal_class(
            CONTROL_ERROR,
            level,
            around,
        ),
        ContinuationFrame::MainForm(stack) => {
            main_value(machine, stack, word);
            Ok(())
        }
        ContinuationFrame::MainForms(level, list, place) => main_forms(
            machine, level, list, place, word,
        ),
        _ => unreachable!(),
    }
}
