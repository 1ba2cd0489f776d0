// Transfers of control: to an exit by its number, to a catch by its tag, to a signal by its condition.

ghost use Rattle.std.specs.Prelude.{◌≡◌, ◌∷◌, [], OnOk, IfOk, Option, Some, None, option_map};
ghost use Rattle.eval_store.specs.Words.{value_of_word};
ghost use Rattle.eval_machine.specs.Applications.{transfer, throw_to, continue_with};
ghost use Rattle.eval_state.specs.Frames.{landing_of};
ghost use Rattle.eval_state.specs.View.{ContinuesAs, dynamic_context};
ghost use Rattle.eval_control.specs.Exits.{IsFound, leaving, meets};

use crate::exits::{Exit, Sought, look_for};
use base::NoMemory;
use eval_state::frame::{Landing, Outcome};
use eval_state::machine::Machine;
use eval_state::situation::DynamicLinks;
use eval_store::Word;
use lang_meaning::ClassId;

// The class of conditions that a transfer without an exit signals.
const CONTROL_ERROR: ClassId = 22;

// The exit that is looked for; each one that is passed counts.
fn find_exit(
    machine: &mut Machine<'_>,
    sought: Sought,
    link: usize,
) -> Result<Option<Exit>, NoMemory>
    ensures { IfOk result (λ found. IsFound machine.old machine.new sought link found) }
{
    let looked = look_for(machine, sought, link)?;
    machine.charge(looked.passed)?;
    Ok(looked.found)
}

// A transfer to the exit that is looked for; where there is none, a control error.
fn leave_to(
    machine: &mut Machine<'_>,
    sought: Sought,
    word: Word,
    landing: Landing,
    level: u64,
    around: DynamicLinks,
) -> Result<(), NoMemory>
    ensures { OnOk result (ContinuesAs machine.old machine.new 0 (λ names s. leaving s (meets names sought) (value_of_word names word) (landing_of landing) level (dynamic_context names machine.old around))) }
{
    match find_exit(machine, sought, around.exits)? {
        Some(exit) => {
            machine.come_to(Outcome::Exit(exit.number, word, landing));
            Ok(())
        }
        None => machine.signal_class(CONTROL_ERROR, level, around),
    }
}

/// A transfer to an exit by its number, if there is one.
pub fn transfer(
    machine: &mut Machine<'_>,
    exit: Option<u64>,
    word: Word,
    landing: Landing,
    level: u64,
    around: DynamicLinks,
) -> Result<(), NoMemory>
    ensures { OnOk result (ContinuesAs machine.old machine.new 0 (λ names s. transfer s exit (value_of_word names word) (landing_of landing) level (dynamic_context names machine.old around))) }
{
    match exit {
        Some(number) => leave_to(
            machine,
            Sought::Number(number),
            word,
            landing,
            level,
            around,
        ),
        None => machine.signal_class(CONTROL_ERROR, level, around),
    }
}

/// A transfer to the innermost catch with that tag.
pub fn throw_to(
    machine: &mut Machine<'_>,
    tag: Word,
    word: Word,
    level: u64,
    around: DynamicLinks,
) -> Result<(), NoMemory>
    ensures { OnOk result (ContinuesAs machine.old machine.new 0 (λ names s. throw_to s (value_of_word names tag) (value_of_word names word) level (dynamic_context names machine.old around))) }
{
    leave_to(
        machine,
        Sought::CatchOf(tag),
        word,
        Landing::Segment(0),
        level,
        around,
    )
}

/// A transfer to the innermost signal of that condition, where it may be continued.
pub fn continue_with(
    machine: &mut Machine<'_>,
    condition: Word,
    word: Word,
    level: u64,
    around: DynamicLinks,
) -> Result<(), NoMemory>
    ensures { OnOk result (ContinuesAs machine.old machine.new 0 (λ names s. continue_with s (value_of_word names condition) (value_of_word names word) level (dynamic_context names machine.old around))) }
{
    match find_exit(machine, Sought::SignalOf(condition), around.exits)? {
        Some(exit) => {
            if exit.is_continuable() {
                machine.come_to(Outcome::Exit(exit.number, word, Landing::Segment(0)));
                Ok(())
            } else {
                machine.signal_class(CONTROL_ERROR, level, around)
            }
        }
        None => machine.signal_class(CONTROL_ERROR, level, around),
    }
}
