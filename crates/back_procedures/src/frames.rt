// How many registers a procedure has, and how many words of the stack are enough for it.

ghost use Rattle.std.specs.Prelude.{◌≡◌, ◌≤◌, [], ◌∷◌, false, length, max, slice_index_or, if◌then◌else◌, IfOk};
ghost use Rattle.lang_meaning.specs.Reached.{once};
ghost use Rattle.back_lowering.specs.Program as lowering;
ghost use Rattle.back_lowering.specs.Registers as registers;
ghost use Rattle.lang_rows.specs.Marked.{AreMarked};

use crate::named::of_code;
use back_calls::given::{FlagList, flag};
use back_leaves::steps::word;
use back_leaves::words::MOST_REGISTERS;
use base::NoMemory;
use lang_rows::flags::{mark, no_flags};
use mid_code::{Code, Counted, MidProcedure, Register, RegisterList};
use std::alloc::Global;

// The greater one of two numbers.
fn greater(first: usize, second: usize) -> usize
    ensures { result ≡ max first second }
{
    if first <= second { second } else { first }
}

// One more than the greatest of some registers.
#[tactic(auto, using(crate::proofs::Counting::none_enough))]
fn enough_for(list: &RegisterList) -> Result<Register, NoMemory>
    ensures { IfOk result (λ n. n ≡ registers.enough_for list.now) }
{
    let mut enough = 0;
    for at in (0..list.len()).rev() {
        let Some(register) = list.get(at) else {
            unreachable!()
        };
        if *register >= MOST_REGISTERS {
            return Err(NoMemory);
        }
        enough = greater(*register + 1, enough);
    }
    Ok(enough)
}

// A register is marked; one where it was not, else nothing.
fn newly_marked(flags: &mut FlagList, register: Register) -> usize
    ensures marked { AreMarked flags.old (register ∷ []) flags.new }
    ensures one { result ≡ (if slice_index_or flags.old register false then 0 else 1) }
    ensures few { result ≤ 1 }
{
    let seen = flag(flags, register);
    mark(flags, register);
    if seen { 0 } else { 1 }
}

// How many registers there are, each counted once.
#[tactic(auto, using(crate::proofs::Counting::none_counted, crate::proofs::Counting::all_counted))]
fn counted_once(alloc: Global, list: &RegisterList, enough: Register) -> Result<usize, NoMemory>
    requires { enough ≡ registers.enough_for list.now }
    ensures { IfOk result (λ n. n ≡ length (once list.now)) }
{
    let mut flags = no_flags(alloc, enough)?;
    let mut count = 0;
    for at in (0..list.len()).rev() {
        let Some(register) = list.get(at) else {
            unreachable!()
        };
        if count >= MOST_REGISTERS {
            return Err(NoMemory);
        }
        count += newly_marked(&mut flags, *register);
    }
    Ok(count)
}

// A word for each register that is named, and one for the address to which it returns.
fn frame_for(alloc: Global, list: &RegisterList, enough: Register) -> Result<u32, NoMemory>
    requires { enough ≡ registers.enough_for list.now }
    ensures { IfOk result (λ n. n ≡ registers.frame_for list.now) }
{
    let count = counted_once(alloc, list, enough)?;
    if count >= MOST_REGISTERS {
        return Err(NoMemory);
    }
    word(1 + count)
}

/// A procedure with so many parameters. Fails where it names too many registers, or for want of memory.
pub fn procedure_with(
    alloc: Global,
    counted: Counted,
    parameters: usize,
    body: Code,
) -> Result<MidProcedure, NoMemory>
    ensures { IfOk result (λ p. p ≡ lowering.procedure_with counted parameters body) }
{
    let mut named = RegisterList::new(alloc);
    of_code(&mut named, &body)?;
    let enough = enough_for(&named)?;
    let frame = frame_for(alloc, &named, enough)?;
    Ok(MidProcedure {
        counted,
        parameters,
        registers: greater(parameters, enough),
        frame,
        body,
    })
}

/// The same with the words of the stack that the allocation of its registers needs.
pub fn framed(words: u32, procedure: MidProcedure) -> MidProcedure
    ensures { result ≡ lowering.framed words procedure }
{
    MidProcedure {
        counted: procedure.counted,
        parameters: procedure.parameters,
        registers: procedure.registers,
        frame: words,
        body: procedure.body,
    }
}
