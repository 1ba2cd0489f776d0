// Lines written as steps, and the procedure of a primitive.

ghost use Rattle.std.specs.Prelude.{◌≡◌, ◌++◌, [], ◌∷◌, OnOk, IfOk};
ghost use Rattle.mid_code.specs.MidCode.{perform};
ghost use Rattle.mid_arena.specs.Steps.{steps_of};
ghost use Rattle.std.specs.Prelude.{true};
ghost use Rattle.lang_meaning.specs.Arity.{arity};
ghost use Rattle.mid_code.specs.Checked.{is_checked};
ghost use Rattle.mid_code.specs.declared.operation.Counted.TheVariants.{Turn};
ghost use Rattle.mid_arena.specs.Answers.{IsPrimitive};
ghost use Rattle.mid_arena.specs.CodeCosts.{cost_of, procedure_cost};
ghost use Rattle.mid_arena.specs.Codes.{procedure_of};

use crate::class_words::class_word;
use crate::code::lines;
use crate::line::Line;
use crate::loops::{copy_words, fill, search_class, search_slot};
use crate::signals::{signal, signal_unless};
use crate::slot_words::{need_place, slot_word};
use crate::steps::{
    comparing, compute, compute_by, constant, either, load, return_if, return_word, store,
};
use crate::tests::{
    need_character, need_header, need_index, need_instance, need_integers, need_length,
    need_symbol, need_tag, need_test,
};
use crate::truths::{says, says_header};
use base::NoMemory;
use lang_meaning::Primitive;
use mid_code::{Code, CodeStep, Counted, MidProcedure, Operation, StepKind};
use std::alloc::Global;

/// The registers of each primitive's code, and the words that an activation of it has for itself: one for each register, and two more.
pub const REGISTERS: usize = 8;

pub const FRAME_WORDS: u32 = 10;

// An operation.
fn operation(code: &mut Code, operation: Operation) -> Result<(), NoMemory>
    ensures { OnOk result (code.new ≡ code.old ++ perform operation ∷ []) }
{
    code.push(CodeStep::new(StepKind::Do(operation)))
}

// Appends the steps of a line.
fn write(code: &mut Code, alloc: Global, line: Line) -> Result<(), NoMemory>
    ensures { OnOk result (code.new ≡ code.old ++ steps_of line) }
{
    match line {
        Line::Set(to, word) => code.push(constant(to, word)),
        Line::Copy(to, from) => operation(code, Operation::Move { to, from }),
        Line::SetIf(how, first, second, to, word) => {
            let mut setting = Code::new(alloc);
            setting.push(constant(to, word))?;
            let test = comparing(how, first, second);
            code.push(either(test, setting, Code::new(alloc)))
        }
        Line::Compute(to, which, first, second) => code.push(compute(to, which, first, second)),
        Line::ComputeBy(to, which, first, word) => compute_by(code, to, which, first, word),
        Line::Load(to, base, offset) => code.push(load(to, base, offset)),
        Line::Store(from, base, offset) => code.push(store(from, base, offset)),
        Line::LoadFixed(to, address) => {
            code.push(constant(to, 0))?;
            code.push(load(to, to, address))
        }
        Line::StoreFixed(from, address) => {
            code.push(constant(6, 0))?;
            code.push(store(from, 6, address))
        }
        Line::Request(to, words) => operation(code, Operation::Request { to, words }),
        Line::Put(from) => operation(code, Operation::Put { from }),
        Line::Get(to) => operation(code, Operation::Get { to }),
        Line::Return(from) => code.push(return_word(from)),
        Line::ReturnIf(how, first, second, from) => {
            code.push(return_if(alloc, comparing(how, first, second), from)?)
        }
        Line::Says(how, first, second) => says(code, alloc, comparing(how, first, second)),
        Line::SaysHeader(header, count) => code.append_list(says_header(alloc, header, count)?),
        Line::NeedTag(of, bits, class) => need_tag(code, alloc, of, bits, class),
        Line::NeedIntegers => need_integers(code, alloc),
        Line::NeedLength => need_length(code, alloc),
        Line::NeedCharacter(of) => need_character(code, alloc, of),
        Line::NeedHeader(of, header, count, class) => need_header(
            code, alloc, of, header, count, class,
        ),
        Line::NeedInstance(of, class) => need_instance(code, alloc, of, class),
        Line::NeedSymbol(of) => need_symbol(code, alloc, of),
        Line::NeedIndex(of, index) => need_index(code, alloc, of, index),
        Line::NeedPlace(of, place) => need_place(code, alloc, of, place),
        Line::NeedTest(how, first, second, of, class) => {
            need_test(code, alloc, comparing(how, first, second), of, class)
        }
        Line::SignalUnless(how, first, second, class) => {
            code.push(signal_unless(alloc, comparing(how, first, second), class)?)
        }
        Line::Signal(class) => code.append_list(signal(alloc, class)?),
        Line::ClassWord(to, of) => code.append_list(class_word(alloc, to, of)?),
        Line::SlotWord(offset) => slot_word(code, offset),
        Line::Fill => fill(code, alloc),
        Line::CopyWords => copy_words(code, alloc),
        Line::SearchClass => search_class(code, alloc),
        Line::SearchSlot => search_slot(code, alloc),
    }
}

/// The procedure of a primitive. Entered with the words of its arguments in an arena that represents a state of the meaning, it comes to what the
/// primitive answers there, within its cost: it returns the word of a value, or `SIGNAL` where it made a condition, whose word then stands at the address `PENDING_AT`; or the
/// words that an object, or its frame, takes are not left, and then nothing has changed. Its code is that of its lines, in form, and costs
/// what docs/COSTS.md says. Fails only for want of memory.
pub fn primitive(alloc: Global, which: Primitive) -> Result<MidProcedure, NoMemory>
    ensures exact { IfOk result (λ p. p ≡ procedure_of which) }
    ensures does { IfOk result (λ p. IsPrimitive which p) }
    ensures counted { IfOk result (λ p. p.counted ≡ Turn) }
    ensures parameters { IfOk result (λ p. p.parameters ≡ arity which) }
    ensures checked { IfOk result (λ p. is_checked p ≡ true) }
    ensures costs { IfOk result (λ p. procedure_cost p ≡ cost_of which) }
{
    written(alloc, which)
}

// Its lines written as steps.
fn written(alloc: Global, which: Primitive) -> Result<MidProcedure, NoMemory>
    ensures { IfOk result (λ p. p ≡ procedure_of which) }
{
    let mut body = Code::new(alloc);
    for line in lines(which) {
        write(&mut body, alloc, *line)?;
    }
    Ok(MidProcedure {
        counted: Counted::Turn,
        parameters: which.arity() as usize,
        registers: REGISTERS,
        frame: FRAME_WORDS,
        body,
    })
}
