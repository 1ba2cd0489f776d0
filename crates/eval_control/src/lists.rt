// Lists of forms: the first one is evaluated, and the others wait.

ghost use Rattle.std.specs.Prelude.{OnOk};
ghost use Rattle.eval_machine.specs.Step.{sequence_step, clauses_step, bindings_step, dynamics_step};
ghost use Rattle.flat_language.specs.model.View.{bindings_of, dynamics_of};
ghost use Rattle.eval_store.specs.Words.{value_of_word};
ghost use Rattle.eval_state.specs.Frames.{forms_from, clauses_from, bindings_from, dynamics_from};
ghost use Rattle.eval_state.specs.View.{ContinuesAs, at, top};

use crate::dynamic_bodies::dynamic_body;
use crate::let_bodies::let_body;
use base::NoMemory;
use eval_state::frame::ContinuationFrame;
use eval_state::machine::Machine;
use eval_state::places::place_behind;
use eval_state::situation::Situation;
use eval_store::Word;
use flat_language::{FlatBindingList, FlatClauseList, FlatCore, FlatCoreList, FlatDynBindings};

/// Forms in order, from one of them on; the value is that of the last one, or the given one where none is left.
pub fn sequence<'p>(
    machine: &mut Machine<'p>,
    last: Word,
    list: &'p FlatCoreList,
    place: usize,
    situation: Situation,
) -> Result<(), NoMemory>
    ensures { OnOk result (ContinuesAs machine.old machine.new 0 (λ names s. sequence_step s (value_of_word names last) (forms_from list.now place) (at names machine.old situation))) }
{
    match list.get(place) {
        Some(form) => {
            let left = place_behind(place)?;
            machine.wait(
                ContinuationFrame::Sequence(list, left, situation),
                form,
                situation,
            )
        }
        None => {
            machine.gives(last);
            Ok(())
        }
    }
}

/// Clauses from one of them on.
pub fn clauses<'p>(
    machine: &mut Machine<'p>,
    list: &'p FlatClauseList,
    place: usize,
    situation: Situation,
) -> Result<(), NoMemory>
    ensures { OnOk result (ContinuesAs machine.old machine.new 0 (λ names s. clauses_step s (clauses_from list.now place) (at names machine.old situation))) }
{
    match list.get(place) {
        Some(clause) => machine.wait(
            ContinuationFrame::Clause(list, place, situation),
            &clause.test,
            situation,
        ),
        None => {
            machine.gives(Word::Nil);
            Ok(())
        }
    }
}

/// Bindings from one of them on, of which the values of those in front are operands.
pub fn bindings<'p>(
    machine: &mut Machine<'p>,
    list: &'p FlatBindingList,
    count: usize,
    body: &'p FlatCore,
    situation: Situation,
) -> Result<(), NoMemory>
    ensures { OnOk result (ContinuesAs machine.old machine.new count (λ names s. bindings_step s (bindings_from list.now count) (top names machine.old count) (bindings_of list.now) body.now (at names machine.old situation))) }
{
    match list.get(count) {
        Some(binding) => machine.hold(
            ContinuationFrame::Binding(list, count, body, situation),
            &binding.value,
            situation,
        ),
        None => let_body(machine, list, count, body, situation),
    }
}

/// Dynamic bindings from one of them on, of which the values of those in front are operands.
pub fn dynamics<'p>(
    machine: &mut Machine<'p>,
    list: &'p FlatDynBindings,
    count: usize,
    body: &'p FlatCore,
    situation: Situation,
) -> Result<(), NoMemory>
    ensures { OnOk result (ContinuesAs machine.old machine.new count (λ names s. dynamics_step s (dynamics_from list.now count) (top names machine.old count) (dynamics_of list.now) body.now (at names machine.old situation))) }
{
    match list.get(count) {
        Some(binding) => machine.hold(
            ContinuationFrame::DynamicValue(list, count, body, situation),
            &binding.value,
            situation,
        ),
        None => dynamic_body(machine, list, count, body, situation),
    }
}
