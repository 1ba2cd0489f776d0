// Transfers to exits that forms name by their places.

ghost use Rattle.std.specs.Prelude.{◌≡◌, List, ℕ, OnOk, IfOk};
ghost use Rattle.lang_meaning.specs.State.{at_segment};
ghost use Rattle.lang_meaning.specs.Values.{nil};
ghost use Rattle.flat_language.specs.FlatState.{exit_of};
ghost use Rattle.eval_machine.specs.Applications.{transfer};
ghost use Rattle.eval_machine.specs.Configuration.{return_value};
ghost use Rattle.eval_machine.specs.Step.{value_step};
ghost use Rattle.eval_store.specs.Words.{value_of_word};
ghost use Rattle.eval_state.specs.View.{ContinuesAs, at};

use crate::own_exits::own_exit;
use crate::transfers::transfer;
use base::NoMemory;
use eval_state::frame::Landing;
use eval_state::machine::Machine;
use eval_state::situation::Situation;
use eval_store::Word;
use flat_language::ExitPlace;

/// The exit of a place, by its number among all.
pub fn exit_at(
    machine: &Machine<'_>,
    place: ExitPlace,
    situation: Situation,
) -> Result<Option<u64>, NoMemory>
    ensures { IfOk result (λ exit. (names : List (List ℕ)) → exit ≡ exit_of place (at names machine.now situation).environment) }
{
    match place {
        ExitPlace::Own(number) => own_exit(machine, situation.own, number),
        ExitPlace::Captured(number) => Ok(machine.captured_exit(number)),
    }
}

/// A transfer to a segment of a tagbody.
pub fn go(
    machine: &mut Machine<'_>,
    exit: ExitPlace,
    segment: u32,
    situation: Situation,
) -> Result<(), NoMemory>
    ensures { OnOk result (ContinuesAs machine.old machine.new 0 (λ names s. transfer s (exit_of exit (at names machine.old situation).environment) nil (at_segment segment) (at names machine.old situation).level (at names machine.old situation).around)) }
{
    let number = exit_at(machine, exit, situation)?;
    transfer(
        machine,
        number,
        Word::Nil,
        Landing::Segment(segment),
        situation.level,
        situation.around,
    )
}

/// A transfer out of a block, which has that value.
pub fn return_from(
    machine: &mut Machine<'_>,
    place: ExitPlace,
    word: Word,
    situation: Situation,
) -> Result<(), NoMemory>
    ensures { OnOk result (ContinuesAs machine.old machine.new 0 (λ names s. value_step s (return_value place (at names machine.old situation)) (value_of_word names word))) }
{
    let number = exit_at(machine, place, situation)?;
    transfer(
        machine,
        number,
        word,
        Landing::Segment(0),
        situation.level,
        situation.around,
    )
}
