// Literals.

ghost use Rattle.std.specs.Prelude.{◌≡◌, OnOk, slice_get};
ghost use Rattle.eval_machine.specs.Step.{literal_step};
ghost use Rattle.eval_state.specs.View.{ContinuesAs, at};

use base::NoMemory;
use eval_state::machine::Machine;
use eval_state::situation::Situation;
use eval_store::Word;
use lang_meaning::{LiteralId, LiteralRow};

/// The value of a literal; the function of a name that has none is undefined.
pub fn literal(
    machine: &mut Machine<'_>,
    id: LiteralId,
    situation: Situation,
) -> Result<(), NoMemory>
    ensures { OnOk result (ContinuesAs machine.old machine.new 0 (λ names s. literal_step s id (slice_get s.program.literals id) (at names machine.old situation))) }
{
    let given = machine.given;
    match given.program.literals.get(id) {
        None => machine.gives(Word::Nil),
        Some(LiteralRow::Datum(_)) => machine.gives(given.layout.literal_word(id)),
        Some(LiteralRow::Class(class)) => machine.gives(given.layout.class_word(*class)),
        Some(LiteralRow::Function(name)) => match given.layout.callee(*name) {
            Some(_) => machine.gives(given.layout.function_word(*name)),
            None => {
                return machine.signal_undefined(*name, situation.level, situation.around);
            }
        },
    }
    Ok(())
}
