// Programs without the bodies of what is not reached.

ghost use Rattle.std.specs.Prelude.{◌≡◌, ℕ, ◌≤◌, List, if◌then◌else◌, IfOk};
ghost use Rattle.lang_meaning.specs.Meaning.{meaning};
ghost use Rattle.lang_meaning.specs.ProgramCounts.{program_nodes};
ghost use Rattle.lang_meaning.specs.State.{Limit};
ghost use Rattle.lang_reached.specs.LeftOut.{is_marked, emptied, procedures_left, without_others};
ghost use Rattle.lang_reached.specs.Remaining.{KeepsReached};

use crate::kept::Kept;
use crate::laws::{law_reached, law_whole};
use crate::reached::reached;
use base::{Names, NoMemory};
use lang_meaning::{
    Core, CoreForm, CoreList, Procedure, ProcedureList, Program, ProgramRows, VarList,
};
use lang_rows::copies;
use lang_rows::flags::FlagList;
use std::alloc::Global;

/// The program without the bodies of the procedures that its main forms do not reach. It means the same, with every input, at every level and
/// with any number of words, and has no more nodes. The program itself is as it was.
pub fn keep_reached(alloc: Global, names: &Names, program: &Program) -> Result<Program, NoMemory>
    ensures means { IfOk result (λ left. (input : List ℕ) (levels : ℕ) (limit : Limit)
        → meaning names.now left input levels limit ≡ meaning names.now program.now input levels limit) }
    ensures left { IfOk result (λ left. KeepsReached names.now program.now left) }
    ensures nodes { IfOk result (λ left. program_nodes left ≤ program_nodes program.now) }
{
    law_reached();
    law_whole();
    let rows = program.rows();
    let kept = reached(alloc, names, rows)?;
    let left = leave_others(alloc, &kept, rows);
    drop(kept);
    Ok(Program::new(left?))
}

// The rows with the bodies that are kept alone.
fn leave_others(alloc: Global, kept: &Kept, rows: &ProgramRows) -> Result<ProgramRows, NoMemory>
    ensures { IfOk result (λ left. left ≡ without_others kept.now rows.now) }
{
    let literals = copies::literals(alloc, &rows.literals)?;
    let classes = copies::classes(alloc, &rows.classes)?;
    let generics = copies::generics(alloc, &rows.generics)?;
    let functions = copies::functions(alloc, &rows.functions)?;
    let sites = copies::sites(alloc, &rows.sites)?;
    let main = forms(alloc, &rows.main)?;
    let procedures = procedures(alloc, &kept.procedures, &rows.procedures)?;
    Ok(ProgramRows {
        literals,
        procedures,
        classes,
        generics,
        functions,
        main,
        sites,
    })
}

fn forms(alloc: Global, list: &CoreList) -> Result<CoreList, NoMemory>
    ensures { IfOk result (λ copy. copy ≡ list.now) }
{
    let mut copied = CoreList::new(alloc);
    for form in list.as_slice() {
        copied.push(form.copy(alloc)?)?;
    }
    Ok(copied)
}

// The procedures, of which those that are not kept have an empty body.
fn procedures(
    alloc: Global,
    marks: &FlagList,
    list: &ProcedureList,
) -> Result<ProcedureList, NoMemory>
    ensures { IfOk result (λ left. left ≡ procedures_left marks.now 0 list.now) }
{
    let mut left = ProcedureList::new(alloc);
    for at in 0..list.len() {
        let Some(row) = list.get(at) else {
            unreachable!()
        };
        left.push(procedure(alloc, is_kept(marks, at), row)?)?;
    }
    Ok(left)
}

fn is_kept(marks: &FlagList, number: usize) -> bool
    ensures { result ≡ is_marked marks.now number }
{
    match marks.get(number) {
        Some(flag) => *flag,
        None => true,
    }
}

fn procedure(alloc: Global, is_kept: bool, row: &Procedure) -> Result<Procedure, NoMemory>
    ensures { IfOk result (λ left. left ≡ (if is_kept then row.now else emptied row.now)) }
{
    let required = variables(alloc, &row.required)?;
    let body = if is_kept {
        row.body.copy(alloc)?
    } else {
        Core {
            form: CoreForm::Sequence(CoreList::new(alloc)),
        }
    };
    Ok(Procedure {
        name: row.name,
        required,
        rest: row.rest,
        body,
    })
}

fn variables(alloc: Global, list: &VarList) -> Result<VarList, NoMemory>
    ensures { IfOk result (λ copy. copy ≡ list.now) }
{
    let mut copied = VarList::new(alloc);
    for var in list.as_slice() {
        copied.push(*var)?;
    }
    Ok(copied)
}
