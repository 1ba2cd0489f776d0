// The elements of a list become operands.

ghost use Rattle.std.specs.Prelude.{◌≡◌, IfOk};
ghost use Rattle.std.specs.HashSet.{IsEmpty};
ghost use Rattle.eval_application.specs.Spreading.{IsListStep, IsSpread};

use base::NoMemory;
use eval_state::machine::Machine;
use eval_state::places::place_behind;
use eval_store::{Object, Store, Word};
use std::collections::HashSet;

/// What a list goes on with: a cons, by its number, with both parts; its end; or what is no list.
#[derive(Clone, Copy)]
pub enum ListStep {
    Cons(usize, Word, Word),
    End,
    NoList,
}

/// How many elements of a list have become operands, and whether it is a list that ends.
#[derive(Clone, Copy)]
pub struct Spread {
    pub count: usize,
    pub proper: bool,
}

/// The elements of a list become operands, up to a cons that was passed before.
pub fn push_elements(machine: &mut Machine<'_>, list: Word) -> Result<Spread, NoMemory>
    ensures { IfOk result (λ s. IsSpread machine.old machine.new list s) }
{
    let mut seen = HashSet::new(machine.given.alloc);
    push_unseen(machine, list, &mut seen)
}

// Those whose conses are in no set yet; the conses that are passed come into it.
fn push_unseen(
    machine: &mut Machine<'_>,
    list: Word,
    seen: &mut HashSet<usize>,
) -> Result<Spread, NoMemory>
    requires { IsEmpty seen.old }
    ensures { IfOk result (λ s. IsSpread machine.old machine.new list s) }
{
    let mut left = list;
    let limit = place_behind(machine.store.object_count())?;
    for count in 0..limit {
        match list_step(&machine.store, left) {
            ListStep::Cons(number, car, cdr) => {
                if seen.contains(&number) {
                    return Ok(Spread {
                        count,
                        proper: false,
                    });
                }
                seen.insert(number)?;
                machine.push_operand(car)?;
                left = cdr;
            }
            ListStep::End => {
                return Ok(Spread {
                    count,
                    proper: true,
                });
            }
            ListStep::NoList => {
                return Ok(Spread {
                    count,
                    proper: false,
                });
            }
        }
    }
    Ok(Spread {
        count: limit,
        proper: false,
    })
}

// What a list goes on with.
fn list_step(store: &Store<'_>, word: Word) -> ListStep
    ensures { IsListStep store.now word result }
{
    match word {
        Word::Nil => ListStep::End,
        Word::Object(number) => match store.fetch(word) {
            Some(object) => match object {
                Object::Cons(car, cdr) => ListStep::Cons(number, *car, *cdr),
                _ => ListStep::NoList,
            },
            None => ListStep::NoList,
        },
        _ => ListStep::NoList,
    }
}
