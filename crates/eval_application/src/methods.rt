// The methods of a call run: around methods, and then before methods, the first primary method and after methods.

ghost use Rattle.std.specs.Prelude.{◌≡◌, ◌<◌, ◌≤◌, ◌+◌, [], ◌∷◌, Some, OnOk, IfOk, MatchOption, length, drop, slice_get};
ghost use Rattle.eval_machine.specs.Configuration.{primary_method};
ghost use Rattle.eval_machine.specs.Applications.{apply_method, apply_each, run_chain, run_primary};
ghost use Rattle.eval_machine.specs.Step.{next_method_step, value_step};
ghost use Rattle.eval_store.specs.Words.{value_of_word, values_of, called_of, called_or_none, rest_of};
ghost use Rattle.eval_state.specs.View.{ContinuesAs, at, dynamic_context};
ghost use Rattle.eval_application.specs.Methods.{IsNextAround, IsNextPrimary, IsAfterBefore, after_before, ArePushed};

use crate::classes::CONTROL_ERROR;
use crate::procedures::apply_procedure;
use base::{ItemList, NoMemory};
use eval_state::frame::{ContinuationFrame, Outcome};
use eval_state::machine::Machine;
use eval_state::places::place_behind;
use eval_state::situation::{DynamicLinks, Situation};
use eval_store::{Arguments, Called, Rest, Word};
use lang_dispatch::Chain;
use lang_meaning::ProcedureId;
use std::rc::Rc;

/// A method that comes next, and what is left behind it.
#[derive(Clone, Copy)]
pub struct Next<'p> {
    pub number: ProcedureId,
    pub rest: Rest<'p>,
}

/// The arguments of a call are operands; how many they are.
pub fn push_arguments(machine: &mut Machine<'_>, arguments: &Arguments) -> Result<usize, NoMemory>
    ensures count { IfOk result (λ count. count ≡ length arguments.now) }
    ensures pushed { OnOk result (ArePushed machine.old machine.new arguments.now) }
{
    for word in arguments.as_slice() {
        machine.push_operand(*word)?;
    }
    Ok(arguments.len())
}

/// A method is applied to the arguments of its call.
pub fn apply_method<'p>(
    machine: &mut Machine<'p>,
    number: ProcedureId,
    called: Called<'p>,
    level: u64,
    around: DynamicLinks,
) -> Result<(), NoMemory>
    ensures { OnOk result (ContinuesAs machine.old machine.new 0 (λ names s. apply_method s number (called_of names called.entry) level (dynamic_context names machine.old around))) }
{
    let count = push_arguments(machine, &called.arguments)?;
    apply_procedure(machine, number, Some(called), count, level, around)
}

/// Methods one after another, from one of a list on.
pub fn apply_each<'p>(
    machine: &mut Machine<'p>,
    list: &'p ItemList<ProcedureId>,
    at: usize,
    arguments: Rc<Arguments>,
    level: u64,
    around: DynamicLinks,
) -> Result<(), NoMemory>
    ensures { OnOk result (ContinuesAs machine.old machine.new 0 (λ names s. apply_each s (drop at list.now) (values_of names arguments.value) level (dynamic_context names machine.old around))) }
{
    if at < list.len() {
        apply_next(machine, list, at, arguments, level, around)
    } else {
        drop(arguments);
        machine.gives(Word::Nil);
        Ok(())
    }
}

// The method at that place, and then those behind it.
fn apply_next<'p>(
    machine: &mut Machine<'p>,
    list: &'p ItemList<ProcedureId>,
    at: usize,
    arguments: Rc<Arguments>,
    level: u64,
    around: DynamicLinks,
) -> Result<(), NoMemory>
    requires { at < length list.now }
    ensures { OnOk result (ContinuesAs machine.old machine.new 0 (λ names s. apply_each s (drop at list.now) (values_of names arguments.value) level (dynamic_context names machine.old around))) }
{
    let Some(number) = list.get(at) else {
        unreachable!()
    };
    let next = place_behind(at)?;
    let count = push_arguments(machine, &arguments)?;
    machine.push_frame(ContinuationFrame::Methods(list, next, arguments, level, around))?;
    apply_procedure(machine, *number, None, count, level, around)
}

/// The methods of a call that are still to run.
pub fn run_chain<'p>(
    machine: &mut Machine<'p>,
    rest: Rest<'p>,
    arguments: Rc<Arguments>,
    level: u64,
    around: DynamicLinks,
) -> Result<(), NoMemory>
    ensures { OnOk result (ContinuesAs machine.old machine.new 0 (λ names s. run_chain s (rest_of rest.entry) (values_of names arguments.value) level (dynamic_context names machine.old around))) }
{
    match next_around(rest) {
        Some(next) => {
            let called = Called {
                arguments,
                rest: next.rest,
            };
            apply_method(machine, next.number, called, level, around)
        }
        None => run_primary(machine, rest, arguments, level, around),
    }
}

// The before methods, behind which the first primary method comes; without any there is no next method.
fn run_primary<'p>(
    machine: &mut Machine<'p>,
    rest: Rest<'p>,
    arguments: Rc<Arguments>,
    level: u64,
    around: DynamicLinks,
) -> Result<(), NoMemory>
    ensures { OnOk result (ContinuesAs machine.old machine.new 0 (λ names s. run_primary s (rest_of rest.entry) (rest_of rest.entry).primary (values_of names arguments.value) level (dynamic_context names machine.old around))) }
{
    if next_primary(rest).is_none() {
        drop(arguments);
        return machine.signal_class(CONTROL_ERROR, level, around);
    }
    let shared = arguments.clone()?;
    machine.push_frame(ContinuationFrame::BeforeMethods(rest, shared, level, around))?;
    let (list, at) = before_methods(rest);
    apply_each(machine, list, at, arguments, level, around)
}

/// The before methods are done: the first primary method, behind which the after methods come.
pub fn after_before<'p>(
    machine: &mut Machine<'p>,
    rest: Rest<'p>,
    arguments: Rc<Arguments>,
    level: u64,
    around: DynamicLinks,
) -> Result<(), NoMemory>
    ensures { OnOk result (ContinuesAs machine.old machine.new 0 (λ names s. after_before s (rest_of rest.entry) (rest_of rest.entry).primary (values_of names arguments.value) level (dynamic_context names machine.old around))) }
{
    let next = primary_after(rest);
    let shared = arguments.clone()?;
    machine.push_frame(ContinuationFrame::PrimaryMethod(rest, shared, level, around))?;
    let called = Called {
        arguments,
        rest: next.rest,
    };
    apply_method(machine, next.number, called, level, around)
}

/// The primary method has a value, which is kept: the after methods.
pub fn after_primary<'p>(
    machine: &mut Machine<'p>,
    rest: Rest<'p>,
    arguments: Rc<Arguments>,
    word: Word,
    level: u64,
    around: DynamicLinks,
) -> Result<(), NoMemory>
    ensures { OnOk result (ContinuesAs machine.old machine.new 0 (λ names s. value_step s (primary_method (rest_of rest.entry).after (values_of names arguments.value) level (dynamic_context names machine.old around)) (value_of_word names word))) }
{
    let Ok(()) = machine.push_frame(ContinuationFrame::Kept(Outcome::Value(word))) else {
        drop(arguments);
        return Err(NoMemory);
    };
    let (list, at) = after_methods(rest);
    apply_each(machine, list, at, arguments, level, around)
}

/// The next method of a method, with the arguments of its call.
pub fn next_method<'p>(
    machine: &mut Machine<'p>,
    called: Option<Called<'p>>,
    situation: Situation,
) -> Result<(), NoMemory>
    ensures { OnOk result (ContinuesAs machine.old machine.new 0 (λ names s. next_method_step s (called_or_none names called.entry) (at names machine.old situation))) }
{
    match called {
        Some(called) => run_chain(
            machine,
            called.rest,
            called.arguments,
            situation.level,
            situation.around,
        ),
        None => machine.signal_class(CONTROL_ERROR, situation.level, situation.around),
    }
}

// The first around method, and what is left behind it.
fn next_around(rest: Rest<'_>) -> Option<Next<'_>>
    ensures { IsNextAround rest.entry result }
{
    match rest {
        Rest::Around(chain, passed) if passed < chain.around.len() => {
            let number = *chain.around.get(passed)?;
            Some(Next {
                number,
                rest: Rest::Around(chain, passed + 1),
            })
        }
        _ => None,
    }
}

// The first primary method, and what is left behind it.
fn next_primary(rest: Rest<'_>) -> Option<Next<'_>>
    ensures { IsNextPrimary rest.entry result }
{
    match rest {
        Rest::Around(chain, _) => primary_at(chain, 0),
        Rest::Primary(chain, passed) => primary_at(chain, passed),
    }
}

// The primary method at that place of a chain, and those behind it.
fn primary_at(chain: &Chain, at: usize) -> Option<Next<'_>>
    ensures { MatchOption result (length chain.now.primary ≤ at)
        (λ x. (slice_get chain.now.primary at ≡ Some x.number) × (rest_of x.rest ≡ record { around = []; before = []; primary = drop (at + 1) chain.now.primary; after = [] })) }
{
    if at < chain.primary.len() {
        let number = *chain.primary.get(at)?;
        Some(Next {
            number,
            rest: Rest::Primary(chain, at + 1),
        })
    } else {
        None
    }
}

// The method after the before methods, and what is left to it.
fn primary_after(rest: Rest<'_>) -> Next<'_>
    ensures { IsAfterBefore rest.entry result }
{
    match next_primary(rest) {
        Some(next) => next,
        None => Next {
            number: 0,
            rest: nothing_left(rest),
        },
    }
}

// No method is left.
fn nothing_left(rest: Rest<'_>) -> Rest<'_>
    ensures { rest_of result ≡ record { around = []; before = []; primary = []; after = [] } }
{
    match rest {
        Rest::Around(chain, _) | Rest::Primary(chain, _) => {
            Rest::Primary(chain, chain.primary.len())
        }
    }
}

// The before methods, as what is left of a list from a place on.
fn before_methods(rest: Rest<'_>) -> (&ItemList<ProcedureId>, usize)
    ensures { drop result.1 result.0.now ≡ (rest_of rest.entry).before }
{
    match rest {
        Rest::Around(chain, _) => (&chain.before, 0),
        Rest::Primary(chain, _) => (&chain.before, chain.before.len()),
    }
}

// The after methods likewise.
fn after_methods(rest: Rest<'_>) -> (&ItemList<ProcedureId>, usize)
    ensures { drop result.1 result.0.now ≡ (rest_of rest.entry).after }
{
    match rest {
        Rest::Around(chain, _) => (&chain.after, 0),
        Rest::Primary(chain, _) => (&chain.after, chain.after.len()),
    }
}
