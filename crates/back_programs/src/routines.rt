// The routines, in the order of their numbers.

ghost use Rattle.std.specs.Prelude.{◌≡◌, ◌++◌, [], ◌∷◌, OnOk};
ghost use Rattle.back_lowering.specs.Program as lowering;
ghost use Rattle.back_programs.specs.Parts as parts;

use back_application_routines::applications::{
    apply_code, function_code, generic_code, is_function_code,
};
use back_application_routines::chains::{chain_code, next_code};
use back_calls::Given;
use back_control_routines::lists::{binding_code, class_code, level_code, list_code, method_code};
use back_control_routines::signals::{
    domain_code, failing_code, failing_with_code, pending_code, raise_code, signal_code,
};
use back_control_routines::transfers::{continue_code, leave_code, throw_code, transfer_code};
use back_lowering::Placement;
use back_procedures::frames::{framed, procedure_with};
use base::NoMemory;
use mid_code::{Code, Counted, ProcedureList};
use std::alloc::Global;

/// The words of the stack of a routine that hands on what another one returns.
const PASSING: u32 = 2;

/// Of one that applies a handler.
const RAISING: u32 = 7;

/// Of one that finds a chain of methods, and of one that runs it.
const FINDING: u32 = 9;

const RUNNING: u32 = 7;

// A routine is appended, and one with so many words of the stack.
fn appended(
    list: &mut ProcedureList,
    alloc: Global,
    counted: Counted,
    parameters: usize,
    code: Code,
) -> Result<(), NoMemory>
    ensures { OnOk result (list.new ≡ list.old ++ (lowering.procedure_with counted parameters code ∷ [])) }
{
    list.push(procedure_with(alloc, counted, parameters, code)?)
}

fn framed_behind(
    list: &mut ProcedureList,
    alloc: Global,
    words: u32,
    counted: Counted,
    parameters: usize,
    code: Code,
) -> Result<(), NoMemory>
    ensures { OnOk result (list.new ≡ list.old ++ (lowering.framed words (lowering.procedure_with counted parameters code) ∷ [])) }
{
    list.push(framed(words, procedure_with(alloc, counted, parameters, code)?))
}

fn transfers(list: &mut ProcedureList, alloc: Global, at: &Placement) -> Result<(), NoMemory>
    ensures { OnOk result (list.new ≡ list.old ++ parts.transfers at.now) }
{
    appended(list, alloc, Counted::Turn, 2, transfer_code(alloc, at)?)?;
    framed_behind(
        list,
        alloc,
        PASSING,
        Counted::Turn,
        3,
        leave_code(alloc, at)?,
    )?;
    framed_behind(
        list,
        alloc,
        PASSING,
        Counted::Turn,
        2,
        throw_code(alloc, at)?,
    )?;
    framed_behind(
        list,
        alloc,
        PASSING,
        Counted::Turn,
        2,
        continue_code(alloc, at)?,
    )
}

fn signals(list: &mut ProcedureList, alloc: Global, at: &Placement) -> Result<(), NoMemory>
    ensures { OnOk result (list.new ≡ list.old ++ parts.signals at.now) }
{
    framed_behind(
        list,
        alloc,
        RAISING,
        Counted::Turn,
        2,
        raise_code(alloc, at)?,
    )?;
    framed_behind(
        list,
        alloc,
        PASSING,
        Counted::Turn,
        2,
        signal_code(alloc, at)?,
    )?;
    framed_behind(
        list,
        alloc,
        PASSING,
        Counted::Turn,
        0,
        pending_code(alloc, at)?,
    )
}

fn conditions(list: &mut ProcedureList, alloc: Global, at: &Placement) -> Result<(), NoMemory>
    ensures { OnOk result (list.new ≡ list.old ++ parts.conditions at.now) }
{
    framed_behind(
        list,
        alloc,
        PASSING,
        Counted::Turn,
        1,
        failing_code(alloc, at)?,
    )?;
    framed_behind(
        list,
        alloc,
        PASSING,
        Counted::Turn,
        2,
        failing_with_code(alloc, at)?,
    )?;
    framed_behind(
        list,
        alloc,
        PASSING,
        Counted::Turn,
        2,
        domain_code(alloc, at)?,
    )
}

fn applications(list: &mut ProcedureList, alloc: Global, at: &Placement) -> Result<(), NoMemory>
    ensures { OnOk result (list.new ≡ list.old ++ parts.applications at.now) }
{
    framed_behind(
        list,
        alloc,
        PASSING,
        Counted::Turn,
        3,
        function_code(alloc, at)?,
    )?;
    appended(list, alloc, Counted::Turn, 2, apply_code(alloc, at)?)?;
    framed_behind(
        list,
        alloc,
        FINDING,
        Counted::Turn,
        3,
        generic_code(alloc, at)?,
    )?;
    framed_behind(
        list,
        alloc,
        RUNNING,
        Counted::Level,
        3,
        chain_code(alloc, at)?,
    )?;
    framed_behind(
        list,
        alloc,
        RUNNING,
        Counted::Turn,
        3,
        next_code(alloc, at)?,
    )
}

fn lists(list: &mut ProcedureList, alloc: Global, at: &Placement) -> Result<(), NoMemory>
    ensures { OnOk result (list.new ≡ list.old ++ parts.lists at.now) }
{
    appended(list, alloc, Counted::Level, 0, level_code(alloc, at)?)?;
    appended(list, alloc, Counted::Turn, 2, list_code(alloc, at)?)?;
    appended(list, alloc, Counted::Turn, 3, method_code(alloc, at)?)
}

fn looking(list: &mut ProcedureList, alloc: Global, at: &Placement) -> Result<(), NoMemory>
    ensures { OnOk result (list.new ≡ list.old ++ parts.looking at.now) }
{
    appended(list, alloc, Counted::Turn, 1, binding_code(alloc, at)?)?;
    appended(list, alloc, Counted::Turn, 1, is_function_code(alloc, at)?)?;
    appended(list, alloc, Counted::Turn, 1, class_code(alloc, at)?)
}

// All routines, one after another.
fn all_of(list: &mut ProcedureList, alloc: Global, at: &Placement) -> Result<(), NoMemory>
    ensures { OnOk result (list.new ≡ list.old ++ parts.routines at.now) }
{
    transfers(list, alloc, at)?;
    signals(list, alloc, at)?;
    conditions(list, alloc, at)?;
    applications(list, alloc, at)?;
    lists(list, alloc, at)?;
    looking(list, alloc, at)
}

// The routines of the program.
pub(crate) fn routines(
    list: &mut ProcedureList,
    alloc: Global,
    given: &Given,
) -> Result<(), NoMemory>
    ensures { OnOk result (list.new ≡ list.old ++ lowering.routines given.now.names.now given.now.at.now given.now.program.now) }
{
    all_of(list, alloc, given.at)
}
