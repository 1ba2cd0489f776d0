// Primitives that read and write no stream compute with the last operands, which go.

ghost use Rattle.std.specs.Prelude.{◌≡◌, ◌-◌, false, ℕ, length, Ok, Err, OnOk};
ghost use Rattle.eval_state.specs.declared.situation.DynamicLinks.{DynamicLinks};
ghost use Rattle.eval_primitives.specs.Groups.{is_streaming};
ghost use Rattle.eval_state.specs.View.{ContinuesAs, top, dynamic_context};
ghost use Rattle.eval_state.specs.Computing.{IsAnswered, GoesOnWithAnswer, computed};

use crate::frame::Outcome;
use crate::machine::Machine;
use crate::situation::DynamicLinks;
use base::NoMemory;
use eval_primitives::Answer;
use eval_store::Halt;
use lang_meaning::Primitive;

/// A primitive computes with the last operands, so many as that, which go.
pub fn compute<'p>(
    machine: &mut Machine<'p>,
    which: Primitive,
    count: usize,
    level: u64,
    around: DynamicLinks,
) -> Result<(), NoMemory>
    requires { is_streaming which ≡ false }
    ensures { OnOk result (ContinuesAs machine.old machine.new count (λ names s. computed s which (top names machine.old count) level (dynamic_context names machine.old around))) }
{
    let answer = answer_of(machine, which, count);
    machine.drop_operands(count);
    tell_result(machine, answer, level, around)
}

// What it comes to; the operands stay.
fn answer_of<'p>(machine: &mut Machine<'p>, which: Primitive, count: usize) -> Result<Answer, Halt>
    requires { is_streaming which ≡ false }
    ensures { IsAnswered machine.old machine.new which count result }
{
    let first = first_of(machine, count);
    let primitives = machine.given.primitives;
    let limit = machine.given.limit;
    primitives.compute(&mut machine.store, limit, which, &machine.operands[first..])
}

// The place of the first one of the last operands, so many as that.
fn first_of(machine: &Machine<'_>, count: usize) -> usize
    ensures { result ≡ length machine.now.operands.items - count }
{
    machine.operands.len().saturating_sub(count)
}

// What a primitive comes to is told.
fn tell_result<'p>(
    machine: &mut Machine<'p>,
    answer: Result<Answer, Halt>,
    level: u64,
    around: DynamicLinks,
) -> Result<(), NoMemory>
    ensures { OnOk result (GoesOnWithAnswer machine.old machine.new answer level around) }
{
    match answer {
        Ok(answer) => tell(machine, answer, level, around),
        Err(halt) => tell_halt(machine, halt),
    }
}

/// An answer is told: its value comes, or its condition is signalled.
pub fn tell<'p>(
    machine: &mut Machine<'p>,
    answer: Answer,
    level: u64,
    around: DynamicLinks,
) -> Result<(), NoMemory>
    ensures { OnOk result (GoesOnWithAnswer machine.old machine.new (Ok answer) level around) }
{
    match answer {
        Answer::Gives(word) => {
            machine.gives(word);
            Ok(())
        }
        Answer::Fails(class) => machine.signal_class(class, level, around),
        Answer::DomainError(word, class) => machine.signal_domain(word, class, level, around),
    }
}

// There is no room, or counts pass 64 bits.
fn tell_halt<'p>(machine: &mut Machine<'p>, halt: Halt) -> Result<(), NoMemory>
    ensures { OnOk result ((level : ℕ) (around : DynamicLinks) → GoesOnWithAnswer machine.old machine.new (Err halt) level around) }
{
    match halt {
        Halt::Full { asked, left } => {
            machine.come_to(Outcome::Full { asked, left });
            Ok(())
        }
        Halt::Spent | Halt::NoMemory => Err(NoMemory),
    }
}
