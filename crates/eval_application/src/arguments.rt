// The arguments of an application, which are the last operands.

ghost use Rattle.std.specs.Prelude.{◌≤◌, IfOk, length};
ghost use Rattle.eval_machine.specs.Applications.{listed};
ghost use Rattle.eval_store.specs.View.{limit_of};
ghost use Rattle.eval_state.specs.Doing.{GivesWord};
ghost use Rattle.eval_state.specs.View.{top};

use crate::making::make_cons;
use base::NoMemory;
use eval_state::machine::Machine;
use eval_store::Word;

/// A list of the last operands, so many as that, is made from its end. They stay.
pub fn make_list(machine: &mut Machine<'_>, count: usize) -> Result<Option<Word>, NoMemory>
    requires { count ≤ length machine.old.operands.items }
    ensures { IfOk result (GivesWord machine.old machine.new (λ names z. listed (limit_of machine.old.given.limit) (top names machine.old count) z)) }
{
    let held = machine.operands.len();
    let mut tail = Word::Nil;
    for taken in 0..count {
        let item = machine.operand_at(held - 1 - taken);
        match make_cons(machine, item, tail)? {
            Some(word) => tail = word,
            None => return Ok(None),
        }
    }
    Ok(Some(tail))
}
