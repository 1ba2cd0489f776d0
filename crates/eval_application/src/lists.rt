// A function is applied to the elements of a list.

ghost use Rattle.std.specs.Prelude.{OnOk};
ghost use Rattle.eval_machine.specs.Step.{apply_step};
ghost use Rattle.eval_store.specs.Words.{value_of_word};
ghost use Rattle.eval_state.specs.View.{ContinuesAs, at};

use crate::classes::{FUNCTION, LIST};
use crate::functions::is_function;
use crate::spreading::push_elements;
use crate::values::apply_value;
use base::NoMemory;
use eval_state::machine::Machine;
use eval_state::situation::Situation;
use eval_store::Word;

/// A function is applied to the elements of a list; what is no function, and what is no list that ends, is not of the
/// expected class.
pub fn apply_list(
    machine: &mut Machine<'_>,
    function: Word,
    list: Word,
    situation: Situation,
) -> Result<(), NoMemory>
    ensures { OnOk result (ContinuesAs machine.old machine.new 0 (λ names s. apply_step s (value_of_word names function) (value_of_word names list) (at names machine.old situation))) }
{
    if !is_function(&machine.store, function) {
        return machine.signal_domain(function, FUNCTION, situation.level, situation.around);
    }
    let elements = push_elements(machine, list)?;
    machine.charge(elements.count as u64)?;
    if elements.proper {
        apply_value(
            machine,
            function,
            elements.count,
            situation.level,
            situation.around,
        )
    } else {
        machine.drop_operands(elements.count);
        machine.signal_domain(list, LIST, situation.level, situation.around)
    }
}
