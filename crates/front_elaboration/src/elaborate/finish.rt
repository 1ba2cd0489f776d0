// What counts once a core form is made: the definition that it stands for.

ghost use Rattle.std.specs.Prelude.{◌≡◌, ◌+◌, ◌∷◌, [], ◌++◌, Some, IfOk, OnOk, OnErr};
ghost use Rattle.front_profile.specs.Elaborations.{nothing, at_site, with_global, with_dynamic, with_procedure, prelude_with, with_callee, with_macro, with_name_of, with_defined, procedure_found, finish_one};

use crate::elaborate::leaf_made;
use crate::elaborate::parts::split_variables;
use crate::elaborate::sort::sort_found;
use crate::kept::Formed;
use base::{Name, NameList, NoMemory};
use front_profile::{DefinedAs, ElaboratedParts, Leaf, MacroRow, One, Tables};
use lang_meaning::{Callee, Core, FunctionRow, Procedure, ProcedureId, SiteId};
use std::alloc::Global;

/// The next number, where there is one.
pub(crate) fn one_more(number: usize) -> Result<usize, NoMemory>
    ensures { IfOk result (λ next. next ≡ number + 1) }
{
    number.checked_add(1).ok_or(NoMemory)
}

/// A variable that was defined counts.
pub(crate) fn finish_one(one: One, tables: &mut Tables) -> Result<(), NoMemory>
    ensures ok { OnOk result (tables.new ≡ finish_one one tables.old) }
    ensures err { OnErr result (tables.new ≡ tables.old) }
{
    match one {
        One::DefineGlobal(row) => tables.globals.push(row),
        One::DefineDynamic(row) => tables.dynamics.push(row),
        One::SetVariable(_) | One::SetGlobal(_) | One::SetDynamic(_) | One::ReturnTo(_) => Ok(()),
    }
}

/// The procedure of a function, of that name or of none.
pub(crate) fn procedure_found(
    alloc: Global,
    name: Option<Name>,
    required: usize,
    rest: bool,
    found: ElaboratedParts,
) -> Result<Procedure, NoMemory>
    ensures { IfOk result (λ procedure. procedure ≡ procedure_found name required rest found) }
{
    let sorted = sort_found(alloc, found)?;
    let variables = split_variables(sorted.variables, required, rest);
    Ok(Procedure {
        name,
        required: variables.required,
        rest: variables.rest,
        body: Core::sequence(sorted.forms),
    })
}

/// The procedure counts; no forms stand for it.
pub(crate) fn complete_procedure(
    alloc: Global,
    site: Option<SiteId>,
    procedure: Procedure,
    tables: &mut Tables,
) -> Result<Formed, NoMemory>
    ensures form { IfOk result (λ form. form ≡ at_site site nothing) }
    ensures ok { OnOk result (tables.new ≡ with_procedure procedure tables.old) }
    ensures err { OnErr result (tables.new ≡ tables.old) }
{
    let Ok(form) = leaf_made(alloc, site, Leaf::Nothing) else {
        drop(procedure);
        return Err(NoMemory);
    };
    let Ok(()) = tables.procedures.push(procedure) else {
        drop(form);
        return Err(NoMemory);
    };
    Ok(form)
}

// A function or a macro of the prelude is noted as one.
fn note_prelude(of_file: bool, name: Name, prelude: &mut NameList) -> Result<(), NoMemory>
    ensures ok { OnOk result (prelude.new ≡ prelude_with of_file name prelude.old) }
    ensures err { OnErr result (prelude.new ≡ prelude.old) }
{
    if of_file {
        return Ok(());
    }
    prelude.push(name)
}

/// The name calls that from now on.
pub(crate) fn add_callee(
    name: Name,
    callee: Callee,
    of_file: bool,
    tables: &mut Tables,
) -> Result<(), NoMemory>
    ensures ok { OnOk result (tables.new ≡ with_callee name callee of_file tables.old) }
    ensures err { OnErr result (tables.new ≡ tables.old) }
{
    let functions = tables.functions.len();
    tables.functions.push(FunctionRow { name, callee })?;
    if note_prelude(of_file, name, &mut tables.prelude).is_err() {
        tables.functions.cut(functions);
        return Err(NoMemory);
    }
    Ok(())
}

// Calls of the name are expanded by that from the next top-level form on.
fn add_macro(row: MacroRow, of_file: bool, tables: &mut Tables) -> Result<(), NoMemory>
    ensures ok { OnOk result (tables.new ≡ with_macro row of_file tables.old) }
    ensures err { OnErr result (tables.new ≡ tables.old) }
{
    let macros = tables.macros.len();
    tables.macros.push(row)?;
    if note_prelude(of_file, row.name, &mut tables.prelude).is_err() {
        tables.macros.cut(macros);
        return Err(NoMemory);
    }
    Ok(())
}

// The name is that of a function, or of a macro, with that procedure.
fn add_name(
    kind: DefinedAs,
    name: Name,
    procedure: ProcedureId,
    of_file: bool,
    tables: &mut Tables,
) -> Result<(), NoMemory>
    ensures ok { OnOk result (tables.new ≡ with_name_of kind name procedure of_file tables.old) }
    ensures err { OnErr result (tables.new ≡ tables.old) }
{
    match kind {
        DefinedAs::Function => add_callee(name, Callee::Procedure(procedure), of_file, tables),
        DefinedAs::Macro => add_macro(MacroRow { name, procedure }, of_file, tables),
    }
}

/// The function or the macro counts, with its procedure.
pub(crate) fn define_named(
    kind: DefinedAs,
    name: Name,
    procedure: Procedure,
    of_file: bool,
    tables: &mut Tables,
) -> Result<(), NoMemory>
    ensures ok { OnOk result (tables.new ≡ with_defined kind name procedure of_file tables.old) }
    ensures err { OnErr result (tables.new ≡ tables.old) }
{
    let procedures = tables.procedures.len();
    tables.procedures.push(procedure)?;
    if add_name(kind, name, procedures, of_file, tables).is_err() {
        tables.procedures.cut(procedures);
        return Err(NoMemory);
    }
    Ok(())
}
