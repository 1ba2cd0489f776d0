// Conditions are signalled: the innermost handler is applied to a condition, under the handlers outside it.

ghost use Rattle.std.specs.Prelude.{◌≡◌, ◌∷◌, [], List, ℕ, OnOk, IfOk, option_map};
ghost use Rattle.eval_machine.specs.Applications.{signal_under};
ghost use Rattle.eval_machine.specs.Step.{signal_step, handler_step};
ghost use Rattle.eval_store.specs.Words.{value_of_word};
ghost use Rattle.eval_state.specs.Frames.{handler_link};
ghost use Rattle.eval_state.specs.View.{ContinuesAs, StepsTo, at, state, dynamic_context};
ghost use Rattle.eval_application.specs.Signalling.{IsSignalled, IsInnermost, handled_by};

use crate::classes::{FUNCTION, SERIOUS_CONDITION};
use crate::functions::is_function;
use crate::values::apply_value;
use base::NoMemory;
use eval_state::frame::{ContinuationFrame, Landing, Outcome};
use eval_state::links::LinkKind;
use eval_state::machine::{Control, Machine};
use eval_state::situation::{DynamicLinks, Situation};
use eval_store::Word;
use flat_language::FlatCore;

/// A handler, and a link to those outside it.
#[derive(Clone, Copy)]
pub struct Handler {
    pub word: Word,
    pub outside: usize,
}

/// A condition is signalled with a mark: the innermost handler is applied to it, under those outside it. Without any the
/// program ends.
pub fn signal_under(
    machine: &mut Machine<'_>,
    condition: Word,
    mark: Word,
    level: u64,
    around: DynamicLinks,
) -> Result<(), NoMemory>
    ensures { OnOk result (ContinuesAs machine.old machine.new 0 (λ names s. signal_under s (dynamic_context names machine.old around).handlers (value_of_word names condition) (value_of_word names mark) level (dynamic_context names machine.old around))) }
{
    let handler = innermost_handler(machine, around.handlers);
    let number = begin_signal(machine, condition, mark)?;
    match handler {
        Some(handler) => {
            machine.charge(1)?;
            handle(
                machine,
                ContinuationFrame::Signal {
                    number,
                    condition,
                    mark,
                    exits: around.exits,
                },
                handler,
                condition,
                level,
                around,
            )
        }
        None => {
            machine.come_to(Outcome::Exit(0, condition, Landing::Site(around.site)));
            Ok(())
        }
    }
}

// A handler is applied to a condition above the frame of its signal, inside whose exit it runs.
fn handle<'p>(
    machine: &mut Machine<'p>,
    frame: ContinuationFrame<'p>,
    handler: Handler,
    condition: Word,
    level: u64,
    around: DynamicLinks,
) -> Result<(), NoMemory>
    ensures { OnOk result (StepsTo machine.old machine.new (λ names s b. handled_by names machine.old frame.entry handler condition level around s (state names machine.old b))) }
{
    machine.push_frame(frame)?;
    let link = machine.frames.as_slice().len();
    let within = inside_signal(around, link, handler.outside);
    machine.push_frame(ContinuationFrame::HandlerReturn(level, within))?;
    machine.push_operand(condition)?;
    apply_value(machine, handler.word, 1, level, within)
}

// What surrounds a handler.
fn inside_signal(around: DynamicLinks, exits: usize, handlers: usize) -> DynamicLinks
    ensures { result ≡ record around { exits = exits; handlers = handlers } }
{
    DynamicLinks {
        exits,
        handlers,
        bindings: around.bindings,
        site: around.site,
    }
}

// The condition has its mark, and there is a new exit; its number.
fn begin_signal(machine: &mut Machine<'_>, condition: Word, mark: Word) -> Result<u64, NoMemory>
    ensures { IfOk result (λ number. IsSignalled machine.old machine.new condition mark number) }
{
    let number = machine.new_exit()?;
    machine.store.set_mark(condition, mark);
    Ok(number)
}

// The innermost handler from a link on.
fn innermost_handler(machine: &Machine<'_>, link: usize) -> Option<Handler>
    ensures { IsInnermost machine.now link result }
{
    match machine.nearest(LinkKind::Handlers, link) {
        Some((frame, outside)) => {
            let Some(word) = handler_of(frame) else {
                unreachable!()
            };
            Some(Handler { word, outside })
        }
        None => None,
    }
}

// The handler of a frame.
fn handler_of(frame: &ContinuationFrame<'_>) -> Option<Word>
    ensures { (names : List (List ℕ)) → option_map (λ l. l.items) (handler_link names frame.now) ≡ option_map (λ w. value_of_word names w ∷ []) result }
{
    match frame {
        ContinuationFrame::Handles(word, _) => Some(*word),
        _ => None,
    }
}

/// A condition is signalled, which is to be one.
pub fn signal_condition(
    machine: &mut Machine<'_>,
    condition: Word,
    mark: Word,
    situation: Situation,
) -> Result<(), NoMemory>
    ensures { OnOk result (ContinuesAs machine.old machine.new 0 (λ names s. signal_step s (value_of_word names condition) (value_of_word names mark) (at names machine.old situation))) }
{
    if machine
        .given
        .primitives
        .is_condition(&machine.store, condition)
    {
        machine.control = Control::Signals {
            condition,
            mark,
            level: situation.level,
            around: situation.around,
        };
        Ok(())
    } else {
        machine.signal_domain(
            condition,
            SERIOUS_CONDITION,
            situation.level,
            situation.around,
        )
    }
}

/// A form is evaluated under a handler, which is to be a function.
pub fn with_handler<'p>(
    machine: &mut Machine<'p>,
    handler: Word,
    body: &'p FlatCore,
    situation: Situation,
) -> Result<(), NoMemory>
    ensures { OnOk result (ContinuesAs machine.old machine.new 0 (λ names s. handler_step s (value_of_word names handler) body.now (at names machine.old situation))) }
{
    if is_function(&machine.store, handler) {
        let link = machine.next_link()?;
        let frame = ContinuationFrame::Handles(handler, situation.around.handlers);
        machine.enter(frame, body, under_handler(situation, link))
    } else {
        machine.signal_domain(handler, FUNCTION, situation.level, situation.around)
    }
}

// The situation under a new handler.
fn under_handler(outside: Situation, link: usize) -> Situation
    ensures { result ≡ record outside { around = record outside.around { handlers = link } } }
{
    Situation {
        level: outside.level,
        own: outside.own,
        around: DynamicLinks {
            exits: outside.around.exits,
            handlers: link,
            bindings: outside.around.bindings,
            site: outside.around.site,
        },
    }
}
