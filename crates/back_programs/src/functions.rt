// The entries and the bodies of all functions of a program, and its main forms.

ghost use Rattle.std.specs.Prelude.{◌≡◌, [], ◌∷◌, ◌++◌, ◌+◌, length, map, slice_get, Some, OnOk};
ghost use Rattle.back_lowering.specs.Placement.{functions};
ghost use Rattle.back_lowering.specs.Program as lowering;
ghost use Rattle.back_calls.specs.Tabled.{IsTabled};
ghost use Rattle.back_procedures.specs.Extras.{meant};

use back_calls::Given;
use back_calls::calls::body_of_procedure;
use back_calls::given::flag;
use back_leaves::words::MOST_REGISTERS;
use back_procedures::Extra;
use back_procedures::bodies::body_of;
use back_procedures::entries::entry;
use back_procedures::mains::main_form;
use base::NoMemory;
use flat_language::{FlatCore, FlatProcedure};
use mid_code::ProcedureList;
use std::alloc::Global;

// What the body of a procedure takes behind its variables.
fn extra_of(given: &Given, number: usize, procedure: &FlatProcedure) -> Extra
    requires tabled { IsTabled given.now }
    requires found { slice_get given.now.program.now.procedures number ≡ Some procedure.now }
    ensures { meant result ≡ lowering.extra_of given.now.names.now given.now.at.now given.now.program.now number }
{
    if flag(&given.tables.methods, number) {
        Extra::Method
    } else {
        Extra::Nothing
    }
}

// The entry of a procedure is appended.
fn entry_behind(
    list: &mut ProcedureList,
    alloc: Global,
    given: &Given,
    number: usize,
    procedure: &FlatProcedure,
) -> Result<(), NoMemory>
    requires tabled { IsTabled given.now }
    requires found { slice_get given.now.program.now.procedures number ≡ Some procedure.now }
    ensures { OnOk result (list.new ≡ list.old ++ (lowering.entry given.now.names.now given.now.at.now given.now.program.now (functions given.now.at.now + number) (lowering.extra_of given.now.names.now given.now.at.now given.now.program.now number) procedure.now ∷ [])) }
{
    let body = body_of_procedure(given.at, number)?;
    let extra = extra_of(given, number, procedure);
    list.push(entry(alloc, given, body, extra, procedure)?)
}

// The entries of procedures.
pub(crate) fn entries(
    list: &mut ProcedureList,
    alloc: Global,
    given: &Given,
) -> Result<(), NoMemory>
    requires { IsTabled given.now }
    ensures { OnOk result (list.new ≡ list.old ++ lowering.entries_from given.now.names.now given.now.at.now given.now.program.now 0 given.now.program.now.procedures) }
{
    for i in 0..given.program.procedures.len() {
        let Some(procedure) = given.program.procedures.get(i) else {
            unreachable!()
        };
        entry_behind(list, alloc, given, i, procedure)?;
    }
    Ok(())
}

// The entry of a form's function is appended, the number of whose body is behind those of procedures.
fn lambda_entry_behind(
    list: &mut ProcedureList,
    alloc: Global,
    given: &Given,
    number: usize,
    function: &FlatProcedure,
) -> Result<(), NoMemory>
    ensures { OnOk result (list.new ≡ list.old ++ (lowering.entry given.now.names.now given.now.at.now given.now.program.now (functions given.now.at.now + number) lowering.itself function.now ∷ [])) }
{
    let body = body_of_procedure(given.at, number)?;
    list.push(entry(alloc, given, body, Extra::Itself, function)?)
}

// The entries of functions of forms.
pub(crate) fn lambda_entries(
    list: &mut ProcedureList,
    alloc: Global,
    given: &Given,
) -> Result<(), NoMemory>
    ensures { OnOk result (list.new ≡ list.old ++ lowering.lambda_entries_from given.now.names.now given.now.at.now given.now.program.now (length given.now.program.now.procedures) given.now.program.now.lambdas) }
{
    let first = given.program.procedures.len();
    if first >= MOST_REGISTERS || given.program.lambdas.len() >= MOST_REGISTERS {
        return Err(NoMemory);
    }
    for i in 0..given.program.lambdas.len() {
        let Some(function) = given.program.lambdas.get(i) else {
            unreachable!()
        };
        lambda_entry_behind(list, alloc, given, first + i, function)?;
    }
    Ok(())
}

// The body of a procedure is appended.
fn body_behind(
    list: &mut ProcedureList,
    alloc: Global,
    given: &Given,
    number: usize,
    procedure: &FlatProcedure,
) -> Result<(), NoMemory>
    requires tabled { IsTabled given.now }
    requires found { slice_get given.now.program.now.procedures number ≡ Some procedure.now }
    ensures { OnOk result (list.new ≡ list.old ++ (lowering.body_of given.now.names.now given.now.at.now given.now.program.now (lowering.extra_of given.now.names.now given.now.at.now given.now.program.now number) procedure.now ∷ [])) }
{
    let extra = extra_of(given, number, procedure);
    list.push(body_of(alloc, given, extra, procedure)?)
}

// The bodies of procedures.
pub(crate) fn bodies(list: &mut ProcedureList, alloc: Global, given: &Given) -> Result<(), NoMemory>
    requires { IsTabled given.now }
    ensures { OnOk result (list.new ≡ list.old ++ lowering.bodies_from given.now.names.now given.now.at.now given.now.program.now 0 given.now.program.now.procedures) }
{
    for i in 0..given.program.procedures.len() {
        let Some(procedure) = given.program.procedures.get(i) else {
            unreachable!()
        };
        body_behind(list, alloc, given, i, procedure)?;
    }
    Ok(())
}

// The body of a form's function is appended.
fn lambda_body_behind(
    list: &mut ProcedureList,
    alloc: Global,
    given: &Given,
    function: &FlatProcedure,
) -> Result<(), NoMemory>
    requires { IsTabled given.now }
    ensures { OnOk result (list.new ≡ list.old ++ (lowering.body_of given.now.names.now given.now.at.now given.now.program.now lowering.itself function.now ∷ [])) }
{
    list.push(body_of(alloc, given, Extra::Itself, function)?)
}

// The bodies of functions of forms.
pub(crate) fn lambda_bodies(
    list: &mut ProcedureList,
    alloc: Global,
    given: &Given,
) -> Result<(), NoMemory>
    requires { IsTabled given.now }
    ensures { OnOk result (list.new ≡ list.old ++ lowering.lambda_bodies given.now.names.now given.now.at.now given.now.program.now given.now.program.now.lambdas) }
{
    for i in 0..given.program.lambdas.len() {
        let Some(function) = given.program.lambdas.get(i) else {
            unreachable!()
        };
        lambda_body_behind(list, alloc, given, function)?;
    }
    Ok(())
}

// A main form is appended.
fn main_behind(
    list: &mut ProcedureList,
    alloc: Global,
    given: &Given,
    form: &FlatCore,
) -> Result<(), NoMemory>
    requires { IsTabled given.now }
    ensures { OnOk result (list.new ≡ list.old ++ (lowering.main_form given.now.names.now given.now.at.now given.now.program.now form.now ∷ [])) }
{
    list.push(main_form(alloc, given, form)?)
}

// The main forms.
pub(crate) fn main_forms(
    list: &mut ProcedureList,
    alloc: Global,
    given: &Given,
) -> Result<(), NoMemory>
    requires { IsTabled given.now }
    ensures { OnOk result (list.new ≡ list.old ++ map (lowering.main_form given.now.names.now given.now.at.now given.now.program.now) given.now.program.now.main) }
{
    for i in 0..given.program.main.len() {
        let Some(form) = given.program.main.get(i) else {
            unreachable!()
        };
        main_behind(list, alloc, given, form)?;
    }
    Ok(())
}
