// Conses are made.

ghost use Rattle.std.specs.Prelude.{IfOk};
ghost use Rattle.lang_meaning.specs.Objects.{cons};
ghost use Rattle.eval_machine.specs.Applications.{made};
ghost use Rattle.eval_store.specs.Words.{value_of_word};
ghost use Rattle.eval_store.specs.View.{limit_of};
ghost use Rattle.eval_state.specs.Doing.{GivesWord};

use base::NoMemory;
use eval_state::machine::Machine;
use eval_store::{Object, Word};

/// A cons is made.
pub fn make_cons(machine: &mut Machine<'_>, car: Word, cdr: Word) -> Result<Option<Word>, NoMemory>
    ensures { IfOk result (GivesWord machine.old machine.new (λ names z. made (limit_of machine.old.given.limit) 2 0 (cons (value_of_word names car) (value_of_word names cdr)) z)) }
{
    machine.build(2, 0, Object::Cons(car, cdr))
}
