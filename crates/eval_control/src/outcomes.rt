// An outcome comes to a frame that was on top, which takes it as it is: exits catch transfers to them, tagbodies go on, cleanups run.

ghost use Rattle.std.specs.Prelude.{◌≡◌, List, ℕ, reverse, OnOk, IfOk};
ghost use Rattle.lang_meaning.specs.State.{exits_from};
ghost use Rattle.lang_meaning.specs.Meaning.{segment_of};
ghost use Rattle.flat_language.specs.FlatMeaning.{from_segment};
ghost use Rattle.flat_language.specs.FlatState.{FlatState, caught};
ghost use Rattle.flat_language.specs.model.View.{forms};
ghost use Rattle.eval_machine.specs.Configuration.{configuration, ended, come_to, descend};
ghost use Rattle.eval_machine.specs.Step.{segments_step, turn_step, cleanup_step};
ghost use Rattle.eval_state.specs.Chains.{chained};
ghost use Rattle.eval_state.specs.Frames.{landing_of, outcome_of, exit_link, inside_tagbody};
ghost use Rattle.eval_state.specs.View.{ContinuesAs, StepsTo, at, frames, state};

use crate::blocks;
use crate::remaining::exits_from;
use base::NoMemory;
use eval_state::frame::{ContinuationFrame, Landing, Outcome};
use eval_state::machine::Machine;
use eval_state::situation::{DynamicLinks, Situation};
use flat_language::{FlatCore, FlatCoreList};

// What comes out of an exit: a transfer to it gives a value.
fn caught(number: u64, outcome: Outcome) -> Outcome
    ensures { (names : List (List ℕ)) (z : FlatState) → record { outcome = outcome_of names result; state = z } ≡ caught number (record { outcome = outcome_of names outcome; state = z }) }
{
    match outcome {
        Outcome::Exit(exit, word, _) => {
            if exit == number {
                Outcome::Value(word)
            } else {
                outcome
            }
        }
        Outcome::Value(_) | Outcome::Full { .. } | Outcome::More => outcome,
    }
}

// The segment at which a transfer arrives.
fn segment_of(landing: Landing) -> u32
    ensures { result ≡ segment_of (landing_of landing) }
{
    match landing {
        Landing::Segment(number) => number,
        Landing::Site(_) => 0,
    }
}

/// The situation at another level.
pub fn at_level(situation: Situation, level: u64) -> Situation
    ensures { result ≡ record situation { level = level } }
{
    Situation {
        level,
        own: situation.own,
        around: situation.around,
    }
}

// The situation with a link to other exits.
fn with_exits(situation: Situation, exits: usize) -> Situation
    ensures { result ≡ record situation { around = record situation.around { exits = exits } } }
{
    Situation {
        level: situation.level,
        own: situation.own,
        around: DynamicLinks {
            exits,
            handlers: situation.around.handlers,
            bindings: situation.around.bindings,
            site: situation.around.site,
        },
    }
}

/// An outcome goes on to the frames below, and so many operands go.
pub fn pass(machine: &mut Machine<'_>, outcome: Outcome, operands: usize)
    ensures { ContinuesAs machine.old machine.new operands (λ names s. configuration (come_to (outcome_of names outcome))) }
{
    machine.drop_operands(operands);
    machine.come_to(outcome);
}

/// An outcome comes to an exit.
pub fn catches(machine: &mut Machine<'_>, number: u64, outcome: Outcome)
    ensures { StepsTo machine.old machine.new (λ names s b. ended (caught number (record { outcome = outcome_of names outcome; state = state names machine.old b })) (frames names machine.old 0)) }
{
    machine.come_to(caught(number, outcome));
}

/// An outcome comes to a tagbody.
pub fn turns<'p>(
    machine: &mut Machine<'p>,
    number: u64,
    segments: &'p FlatCoreList,
    outside: Situation,
    outcome: Outcome,
) -> Result<(), NoMemory>
    ensures { OnOk result (ContinuesAs machine.old machine.new 0 (λ names s. turn_step s number (forms segments.now) (inside_tagbody number (at names machine.old outside)) (outcome_of names outcome))) }
{
    match outcome {
        Outcome::Exit(exit, _, landing) => {
            if exit == number {
                turns_to(machine, number, segments, landing, outside)
            } else {
                machine.come_to(outcome);
                Ok(())
            }
        }
        Outcome::Value(_) | Outcome::Full { .. } | Outcome::More => {
            machine.come_to(outcome);
            Ok(())
        }
    }
}

// A tagbody goes on from the segment at which a transfer arrives, one level below.
fn turns_to<'p>(
    machine: &mut Machine<'p>,
    number: u64,
    segments: &'p FlatCoreList,
    landing: Landing,
    outside: Situation,
) -> Result<(), NoMemory>
    ensures { OnOk result (ContinuesAs machine.old machine.new 0 (λ names s. descend outside.level (λ k. segments_step s number (from_segment (segment_of (landing_of landing)) (forms segments.now)) (forms segments.now) (record (inside_tagbody number (at names machine.old outside)) { level = k })))) }
{
    let Some(below) = outside.level.checked_sub(1) else {
        machine.come_to(Outcome::More);
        return Ok(());
    };
    let place = segment_of(landing) as usize;
    blocks::segments(machine, number, segments, place, at_level(outside, below))
}

/// An outcome comes to a form with a cleanup. During a transfer the exits inside its target are no more.
pub fn cleans<'p>(
    machine: &mut Machine<'p>,
    cleanup: &'p FlatCore,
    situation: Situation,
    outcome: Outcome,
) -> Result<(), NoMemory>
    ensures { OnOk result (ContinuesAs machine.old machine.new 0 (λ names s. cleanup_step s cleanup.now (at names machine.old situation) (outcome_of names outcome))) }
{
    match outcome {
        Outcome::Value(_) => machine.wait(ContinuationFrame::Kept(outcome), cleanup, situation),
        Outcome::Exit(exit, _, _) => {
            let exits = exits_from(machine, exit, situation.around.exits);
            machine.wait(
                ContinuationFrame::Kept(outcome),
                cleanup,
                with_exits(situation, exits),
            )
        }
        Outcome::Full { .. } | Outcome::More => {
            machine.come_to(outcome);
            Ok(())
        }
    }
}
