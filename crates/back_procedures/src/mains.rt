// Main forms, and the start, which calls them one after another.

ghost use Rattle.std.specs.Prelude.{◌≡◌, ◌++◌, OnOk, IfOk};
ghost use Rattle.back_lowering.specs.Program as lowering;
ghost use Rattle.back_calls.specs.Tabled.{IsTabled};
ghost use Rattle.back_procedures.specs.MainParts as parts;

use crate::frames::procedure_with;
use back_calls::Given;
use back_calls::records::{record_laid, with_block};
use back_forms::forms::value;
use back_leaves::leaves::routine;
use back_leaves::steps::call;
use back_leaves::words::{
    END, END_KIND, LANDING, LINK, MOST_REGISTERS, RECORD_LINK, RECORD_SERIAL, RECORD_WORDS,
    ROUTINES,
};
use back_lowering::{ExitList, Scope, SitePlace};
use base::NoMemory;
use flat_language::{FlatCore, FlatCoreList};
use mid_arena::steps::{compute, constant, load, return_word, store};
use mid_arena::words::NIL;
use mid_code::{Arithmetic, Code, CodeStep, Counted, MidProcedure, RegisterList, StepKind};
use std::alloc::Global;

// The record of the end is the innermost exit and the end of the program.
fn end_laid(alloc: Global) -> Result<Code, NoMemory>
    ensures { IfOk result (λ code. code ≡ parts.end_laid) }
{
    let mut code = Code::new(alloc);
    record_laid(&mut code, 0, 6, END_KIND)?;
    code.push(constant(7, 0))?;
    code.push(store(7, 0, RECORD_SERIAL))?;
    code.push(store(2, 0, RECORD_LINK))?;
    code.push(store(0, 6, LINK))?;
    code.push(store(0, 6, END))?;
    Ok(code)
}

// A transfer to it says which condition is not handled: of which class, at which site.
fn end_landed(alloc: Global) -> Result<Code, NoMemory>
    ensures { IfOk result (λ code. code ≡ parts.end_landed) }
{
    let mut code = Code::new(alloc);
    code.push(load(6, 5, 2))?;
    code.push(load(6, 6, 2))?;
    code.push(constant(7, 2))?;
    code.push(compute(6, Arithmetic::ShiftRight, 6, 7))?;
    code.push(constant(7, 0))?;
    code.push(load(7, 7, LANDING))?;
    code.push(CodeStep::new(StepKind::Unhandled {
        class: 6,
        site: 7,
        condition: 5,
    }))?;
    Ok(code)
}

// Nothing is known around a main form.
fn main_scope(alloc: Global) -> Scope
    ensures { result ≡ parts.main_scope }
{
    Scope {
        slots: RegisterList::new(alloc),
        exits: ExitList::new(alloc),
        function: 0,
        method: None,
        site: SitePlace::Known(0),
    }
}

// The form inside the record, whose value is returned.
fn form_inside(alloc: Global, given: &Given, form: &FlatCore) -> Result<Code, NoMemory>
    requires { IsTabled given.now }
    ensures { IfOk result (λ code. code ≡ parts.form_inside given.now.names.now given.now.at.now given.now.program.now form.now) }
{
    let mut scope = main_scope(alloc);
    let mut code = end_laid(alloc)?;
    value(&mut code, alloc, given, &mut scope, 8, form)?;
    code.push(return_word(8))?;
    Ok(code)
}

// The record of the end with the form inside.
fn main_code(alloc: Global, given: &Given, form: &FlatCore) -> Result<Code, NoMemory>
    requires { IsTabled given.now }
    ensures { IfOk result (λ code. code ≡ parts.main_code given.now.names.now given.now.at.now given.now.program.now form.now) }
{
    let inside = form_inside(alloc, given, form)?;
    let landing = end_landed(alloc)?;
    let mut code = Code::new(alloc);
    code.push(with_block(0, RECORD_WORDS, 5, inside, landing))?;
    Ok(code)
}

/// A main form, around which the record of the end stands. Fails for want of memory.
pub fn main_form(alloc: Global, given: &Given, form: &FlatCore) -> Result<MidProcedure, NoMemory>
    requires { IsTabled given.now }
    ensures { IfOk result (λ p. p ≡ lowering.main_form given.now.names.now given.now.at.now given.now.program.now form.now) }
{
    let code = main_code(alloc, given, form)?;
    procedure_with(alloc, Counted::Turn, 0, code)
}

// Main forms are called one after another, the first of which has that number.
fn mains_called(
    code: &mut Code,
    alloc: Global,
    given: &Given,
    first: usize,
    list: &FlatCoreList,
) -> Result<(), NoMemory>
    ensures { OnOk result (code.new ≡ code.old ++ lowering.mains_called given.now.names.now given.now.at.now given.now.program.now first list.now) }
{
    if first >= MOST_REGISTERS || list.len() >= MOST_REGISTERS {
        return Err(NoMemory);
    }
    for i in 0..list.len() {
        code.push(call(0, first + i, RegisterList::new(alloc)))?;
    }
    Ok(())
}

/// The start: the main forms are called one after another, and the program ends with the value of the last one. Fails for want of memory.
pub fn start(alloc: Global, given: &Given) -> Result<MidProcedure, NoMemory>
    ensures { IfOk result (λ p. p ≡ lowering.start given.now.names.now given.now.at.now given.now.program.now) }
{
    let first = routine(given.at, ROUTINES)?;
    let mut code = Code::new(alloc);
    code.push(constant(0, NIL))?;
    mains_called(&mut code, alloc, given, first, &given.program.main)?;
    code.push(CodeStep::new(StepKind::Halt(0)))?;
    procedure_with(alloc, Counted::Turn, 0, code)
}
