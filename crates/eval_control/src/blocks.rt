// Forms with exits of their own: blocks, tagbodies and catches.

ghost use Rattle.std.specs.Prelude.{◌≡◌, OnOk};
ghost use Rattle.flat_language.specs.model.View.{forms};
ghost use Rattle.eval_machine.specs.Step.{segments_step, value_step};
ghost use Rattle.eval_machine.specs.Configuration.{catch_tag};
ghost use Rattle.eval_store.specs.Words.{value_of_word};
ghost use Rattle.eval_state.specs.Frames.{forms_from, inside_tagbody};
ghost use Rattle.eval_state.specs.View.{ContinuesAs, at};
ghost use Rattle.eval_control.specs.Begins.{block_begins, tagbody_begins};

use crate::lists::sequence;
use base::NoMemory;
use eval_state::frame::ContinuationFrame;
use eval_state::machine::Machine;
use eval_state::situation::{DynamicLinks, Situation};
use eval_store::Word;
use flat_language::{FlatCore, FlatCoreList};

/// A block, with a new exit.
pub fn block<'p>(
    machine: &mut Machine<'p>,
    body: &'p FlatCore,
    situation: Situation,
) -> Result<(), NoMemory>
    ensures { OnOk result (ContinuesAs machine.old machine.new 0 (λ names s. block_begins s body.now (at names machine.old situation))) }
{
    let number = machine.new_exit()?;
    let link = machine.next_link()?;
    let frame = ContinuationFrame::Block {
        number,
        exits: situation.around.exits,
        own: situation.own,
    };
    machine.enter(frame, body, inside(situation, link))
}

/// A catch whose tag has come, with a new exit.
pub fn catch<'p>(
    machine: &mut Machine<'p>,
    body: &'p FlatCore,
    tag: Word,
    situation: Situation,
) -> Result<(), NoMemory>
    ensures { OnOk result (ContinuesAs machine.old machine.new 0 (λ names s. value_step s (catch_tag body.now (at names machine.old situation)) (value_of_word names tag))) }
{
    let number = machine.new_exit()?;
    let link = machine.next_link()?;
    let exits = situation.around.exits;
    machine.enter(
        ContinuationFrame::Catch { number, tag, exits },
        body,
        inside_catch(situation, link),
    )
}

/// A tagbody, with a new exit.
pub fn tagbody<'p>(
    machine: &mut Machine<'p>,
    list: &'p FlatCoreList,
    situation: Situation,
) -> Result<(), NoMemory>
    ensures { OnOk result (ContinuesAs machine.old machine.new 0 (λ names s. tagbody_begins s (forms list.now) (at names machine.old situation))) }
{
    let number = machine.new_exit()?;
    segments(machine, number, list, 0, situation)
}

/// The segments of a tagbody from one of them on.
pub fn segments<'p>(
    machine: &mut Machine<'p>,
    number: u64,
    list: &'p FlatCoreList,
    place: usize,
    outside: Situation,
) -> Result<(), NoMemory>
    ensures { OnOk result (ContinuesAs machine.old machine.new 0 (λ names s. segments_step s number (forms_from list.now place) (forms list.now) (inside_tagbody number (at names machine.old outside)))) }
{
    let link = machine.next_link()?;
    machine.push_frame(ContinuationFrame::Tagbody {
        number,
        segments: list,
        outside,
    })?;
    machine.push_frame(ContinuationFrame::LastSegment)?;
    sequence(machine, Word::Nil, list, place, inside(outside, link))
}

// The situation inside a new exit of the own activation, which has that link.
fn inside(outside: Situation, link: usize) -> Situation
    ensures { result ≡ record outside { own = link; around = record outside.around { exits = link } } }
{
    Situation {
        level: outside.level,
        own: link,
        around: DynamicLinks {
            exits: link,
            handlers: outside.around.handlers,
            bindings: outside.around.bindings,
            site: outside.around.site,
        },
    }
}

// The situation inside a new exit that no form of the own activation names.
fn inside_catch(outside: Situation, link: usize) -> Situation
    ensures { result ≡ record outside { around = record outside.around { exits = link } } }
{
    Situation {
        level: outside.level,
        own: outside.own,
        around: DynamicLinks {
            exits: link,
            handlers: outside.around.handlers,
            bindings: outside.around.bindings,
            site: outside.around.site,
        },
    }
}
