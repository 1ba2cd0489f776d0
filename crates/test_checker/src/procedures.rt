// Whether the procedures of a program stand.

ghost use Rattle.std.specs.Prelude.{◌≡◌, ◌==◌, ◌||◌, false, Some, IfOk};
ghost use Rattle.std.specs.List.{list_any};
ghost use Rattle.lang_meaning.specs.Facts.{is_of_method, procedures_stand};
ghost use Rattle.lang_meaning.specs.Standing.{is_alone};

use crate::bodies::procedure_is_alone;
use base::NoMemory;
use lang_meaning::{GenericRow, Procedure, ProcedureId, ProgramRows};
use std::alloc::Global;

/// Whether each procedure that is no method's stands by itself.
#[tactic(auto, using(crate::proofs::Judged::none_left))]
pub fn procedures_stand(alloc: Global, rows: &ProgramRows) -> Result<bool, NoMemory>
    ensures { IfOk result (λ yes. yes ≡ procedures_stand rows.now 0 rows.now.procedures) }
{
    for (id, procedure) in rows.procedures.as_slice().iter().enumerate() {
        if !procedure_stands(alloc, rows, id, procedure)? {
            return Ok(false);
        }
    }
    Ok(true)
}

fn procedure_stands(
    alloc: Global,
    rows: &ProgramRows,
    id: ProcedureId,
    procedure: &Procedure,
) -> Result<bool, NoMemory>
    ensures { IfOk result (λ yes. yes ≡ (is_of_method rows.now id || is_alone false (Some procedure.now))) }
{
    if is_of_method(rows, id) {
        Ok(true)
    } else {
        procedure_is_alone(alloc, false, procedure)
    }
}

// Whether a method has that procedure.
fn is_of_method(rows: &ProgramRows, id: ProcedureId) -> bool
    ensures { result ≡ is_of_method rows.now id }
{
    for generic in rows.generics.as_slice() {
        if has_method(generic, id) {
            return true;
        }
    }
    false
}

fn has_method(generic: &GenericRow, id: ProcedureId) -> bool
    ensures { result ≡ list_any (λ m. id == m.procedure) generic.now.methods }
{
    for method in generic.methods.as_slice() {
        if id == method.procedure {
            return true;
        }
    }
    false
}
