// Local variables.

ghost use Rattle.std.specs.Prelude.{◌≡◌, List, ℕ, OnOk};
ghost use Rattle.flat_language.specs.FlatState.{gives, value_of, set_to};
ghost use Rattle.eval_machine.specs.Configuration.{ended};
ghost use Rattle.eval_store.specs.View.{Beside};
ghost use Rattle.eval_store.specs.Words.{value_of_word};
ghost use Rattle.eval_state.specs.declared.situation.Situation.{Situation};
ghost use Rattle.eval_state.specs.Slots.{IsChanged};
ghost use Rattle.eval_state.specs.View.{StepsTo, at, frames, state};

use base::NoMemory;
use eval_state::machine::Machine;
use eval_state::situation::Situation;
use eval_state::slot::Slot;
use eval_store::Word;
use flat_language::VariablePlace;

// The value of a variable.
fn value_of(machine: &Machine<'_>, place: VariablePlace) -> Word
    ensures { (names : List (List ℕ)) (b : Beside) (s : Situation) → value_of_word names result ≡ value_of place (at names machine.now s).environment (state names machine.now b) }
{
    match place {
        VariablePlace::Slot(number) => machine.slot_value(number),
        VariablePlace::SlotBox(number) => machine.store.variable(machine.slot_box(number)),
        VariablePlace::CapturedValue(number) => machine.captured_value(number),
        VariablePlace::CapturedBox(number) => machine.store.variable(machine.captured_box(number)),
    }
}

// A variable is set.
fn set_variable(machine: &mut Machine<'_>, place: VariablePlace, word: Word)
    ensures { (s : Situation) → IsChanged machine.old machine.new (λ names z. set_to place (value_of_word names word) (at names machine.old s).environment z) }
{
    match place {
        VariablePlace::Slot(number) => machine.set_slot(number, Slot::Value(word)),
        VariablePlace::SlotBox(number) => {
            let boxed = machine.slot_box(number);
            machine.store.set_variable(boxed, word);
        }
        VariablePlace::CapturedValue(_) => {}
        VariablePlace::CapturedBox(number) => {
            let boxed = machine.captured_box(number);
            machine.store.set_variable(boxed, word);
        }
    }
}

/// The value of a local variable.
pub fn local(
    machine: &mut Machine<'_>,
    place: VariablePlace,
    situation: Situation,
) -> Result<(), NoMemory>
    ensures { OnOk result (StepsTo machine.old machine.new (λ names s b. ended (gives (value_of place (at names machine.old situation).environment (state names machine.old b)) (state names machine.old b)) (frames names machine.old 0))) }
{
    let word = value_of(machine, place);
    machine.gives(word);
    Ok(())
}

/// A local variable is set.
pub fn set_local(
    machine: &mut Machine<'_>,
    place: VariablePlace,
    word: Word,
    situation: Situation,
) -> Result<(), NoMemory>
    ensures { OnOk result (StepsTo machine.old machine.new (λ names s b. ended (gives (value_of_word names word) (set_to place (value_of_word names word) (at names machine.old situation).environment (state names machine.old b))) (frames names machine.old 0))) }
{
    set_variable(machine, place, word);
    machine.gives(word);
    Ok(())
}
