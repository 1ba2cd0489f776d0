// Whether the bodies of a program fit, and stand by themselves.

ghost use Rattle.std.specs.Prelude.{◌≡◌, ◌&&◌, false, slice_get, Some, IfOk};
ghost use Rattle.std.specs.List.{list_all};
ghost use Rattle.lang_meaning.specs.Facts.{body_fits};
ghost use Rattle.lang_meaning.specs.Standing.{stands_alone, is_alone};

use crate::fits::fits;
use crate::scope::{alone, parameters};
use crate::stands::stands;
use base::NoMemory;
use lang_meaning::{Core, Procedure, ProcedureId, ProgramRows, VarList};
use std::alloc::Global;

pub fn bodies_fit(rows: &ProgramRows) -> bool
    ensures { result ≡ list_all (λ p. body_fits rows.now p.body) rows.now.procedures }
{
    for procedure in rows.procedures.as_slice() {
        if !body_fits(rows, &procedure.body) {
            return false;
        }
    }
    true
}

pub fn main_fits(alloc: Global, rows: &ProgramRows) -> Result<bool, NoMemory>
    ensures { IfOk result (λ yes. yes ≡ list_all (λ f. body_fits rows.now f && stands_alone false f) rows.now.main) }
{
    for form in rows.main.as_slice() {
        if !main_form_fits(alloc, rows, form)? {
            return Ok(false);
        }
    }
    Ok(true)
}

// Whether a body's rows are there, and it is at most 1,000 forms deep.
#[tactic(auto, using(crate::proofs::Bounds::depth_within))]
fn body_fits(rows: &ProgramRows, body: &Core) -> bool
    ensures { result ≡ body_fits rows.now body.now }
{
    fits(body, rows) && body.depth() <= 1000
}

fn main_form_fits(alloc: Global, rows: &ProgramRows, form: &Core) -> Result<bool, NoMemory>
    ensures { IfOk result (λ yes. yes ≡ (body_fits rows.now form.now && stands_alone false form.now)) }
{
    if body_fits(rows, form) {
        stands_alone(alloc, form)
    } else {
        Ok(false)
    }
}

// Whether a form stands by itself, in no method.
fn stands_alone(alloc: Global, form: &Core) -> Result<bool, NoMemory>
    ensures { IfOk result (λ yes. yes ≡ stands_alone false form.now) }
{
    let nothing = alone(alloc, VarList::new(alloc), false);
    stands(form, alloc, &nothing)
}

/// Whether the procedure is there and stands by itself.
pub fn is_alone(
    alloc: Global,
    rows: &ProgramRows,
    in_method: bool,
    id: ProcedureId,
) -> Result<bool, NoMemory>
    ensures { IfOk result (λ yes. yes ≡ is_alone in_method (slice_get rows.now.procedures id)) }
{
    match rows.procedures.get(id) {
        None => Ok(false),
        Some(procedure) => procedure_is_alone(alloc, in_method, procedure),
    }
}

pub fn procedure_is_alone(
    alloc: Global,
    in_method: bool,
    procedure: &Procedure,
) -> Result<bool, NoMemory>
    ensures { IfOk result (λ yes. yes ≡ is_alone in_method (Some procedure.now)) }
{
    let own = parameters(alloc, &procedure.required, procedure.rest)?;
    stands(&procedure.body, alloc, &alone(alloc, own, in_method))
}
