// Whole programs made flat.

ghost use Rattle.std.specs.Prelude.{◌≡◌, ℕ, List, [], IfOk};
ghost use Rattle.lang_meaning.specs.Meaning.{meaning};
ghost use Rattle.lang_meaning.specs.State.{Limit};
ghost use Rattle.flat_language.specs.FlatMeaning.{flat_meaning};
ghost use Rattle.flat_language.specs.FlatExits.{ProgramLeads};
ghost use Rattle.flat_language.specs.FlatFits.{ProgramFits};
ghost use Rattle.flat_language.specs.FlatStanding.{ProgramStands};
ghost use Rattle.flat_language.specs.Flatten.{flat_program};
ghost use Rattle.flat_language.specs.Law.{SameRun};
ghost use Rattle.flat_language.specs.Scope.{no_scope};
ghost use Rattle.flat_conversion.specs.Binders.{binders_of_procedures, binders_of_mains};
ghost use Rattle.flat_conversion.specs.Bodies.{AreBodies, MakesProcedures, MakesMains};
ghost use Rattle.flat_conversion.specs.Places.{scope_of};

use crate::binders::binders_of_program;
use crate::forms::{flat, procedure};
use crate::places::Places;
use crate::progress::Progress;
use crate::variables::BinderList;
use base::NoMemory;
use flat_language::laws::{law_closures, law_flat_programs};
use flat_language::{CapturedKinds, FlatCoreList, FlatProcedureList, FlatProgram};
use lang_meaning::{CoreList, ProcedureList, Program, ProgramRows};
use lang_rows::copies;
use std::alloc::Global;

/// The program made flat, just as the translation has it. For every input, with every number of levels and of words, it
/// has the end, the bytes, the units and the peak of the program; each place that it names is there, and each exit leads
/// where it did. After `NoMemory` what was made of it is dropped.
pub fn flatten(alloc: Global, program: &Program) -> Result<FlatProgram, NoMemory>
    ensures made { IfOk result (λ flat. flat ≡ flat_program program.now) }
    ensures same_runs { IfOk result (λ flat. (names : List (List ℕ)) (input : List ℕ) (k : ℕ) (limit : Limit)
        → SameRun (meaning names program.now input k limit) (flat_meaning names flat input k limit)) }
    ensures stands { IfOk result (λ flat. ProgramStands flat) }
    ensures fits { IfOk result (λ flat. ProgramFits flat) }
    ensures leads { IfOk result (λ flat. ProgramLeads flat) }
{
    law_closures();
    law_flat_programs();
    flat_rows(alloc, program.rows())
}

/// Rows made flat, just as the translation has it, also where they are not those of a whole program. After `NoMemory`
/// what was made of them is dropped.
pub fn flat_rows(alloc: Global, rows: &ProgramRows) -> Result<FlatProgram, NoMemory>
    ensures { IfOk result (λ flat. flat ≡ flat_program rows.now) }
{
    let literals = copies::literals(alloc, &rows.literals)?;
    let classes = copies::classes(alloc, &rows.classes)?;
    let generics = copies::generics(alloc, &rows.generics)?;
    let functions = copies::functions(alloc, &rows.functions)?;
    let sites = copies::sites(alloc, &rows.sites)?;
    let Bodies {
        procedures,
        lambdas,
        main,
    } = bodies_of(alloc, rows)?;
    Ok(FlatProgram {
        literals,
        procedures,
        lambdas,
        classes,
        generics,
        functions,
        main,
        sites,
    })
}

// What is made of all bodies of a program.
#[derive(Drop)]
struct Bodies {
    procedures: FlatProcedureList,
    lambdas: FlatProcedureList,
    main: FlatCoreList,
}

// All bodies made flat, with the binders of all of them.
fn bodies_of(alloc: Global, rows: &ProgramRows) -> Result<Bodies, NoMemory>
    ensures { IfOk result (λ made. AreBodies rows.now made) }
{
    let binders = binders_of_program(alloc, rows)?;
    let bodies = flat_bodies(alloc, &binders, rows);
    drop(binders);
    bodies
}

fn flat_bodies(alloc: Global, binders: &BinderList, rows: &ProgramRows) -> Result<Bodies, NoMemory>
    requires { binders.now ≡ binders_of_procedures rows.now.procedures (binders_of_mains rows.now.main []) }
    ensures { IfOk result (λ made. AreBodies rows.now made) }
{
    let mut progress = Progress {
        lambdas: FlatProcedureList::new(alloc),
        binders: 0,
    };
    let mut places = Places::outermost(alloc);
    let procedures = flat_procedures(alloc, binders, &mut places, &mut progress, &rows.procedures)?;
    let main = flat_mains(alloc, binders, &mut places, &mut progress, &rows.main);
    drop(places);
    let Ok(main) = main else {
        drop(procedures);
        return Err(NoMemory);
    };
    Ok(Bodies {
        procedures,
        lambdas: progress.lambdas,
        main,
    })
}

// Procedures made flat. The procedures of the functions inside are put behind those that are there.
fn flat_procedures(
    alloc: Global,
    binders: &BinderList,
    places: &mut Places,
    progress: &mut Progress,
    list: &ProcedureList,
) -> Result<FlatProcedureList, NoMemory>
    requires { scope_of places.old ≡ no_scope }
    ensures { IfOk result (λ made. (scope_of places.new ≡ no_scope) × MakesProcedures list.now binders.now progress.old progress.new made) }
{
    let mut made = FlatProcedureList::new(alloc);
    for at in 0..list.len() {
        let Some(row) = list.get(at) else {
            unreachable!()
        };
        let captured = CapturedKinds::new(alloc);
        made.push(procedure(
            alloc,
            binders,
            places,
            progress,
            captured,
            &row.required,
            row.rest,
            &row.body,
        )?)?;
    }
    Ok(made)
}

// Main forms made flat. The procedures of the functions inside are put behind those that are there.
fn flat_mains(
    alloc: Global,
    binders: &BinderList,
    places: &mut Places,
    progress: &mut Progress,
    list: &CoreList,
) -> Result<FlatCoreList, NoMemory>
    requires { scope_of places.old ≡ no_scope }
    ensures { IfOk result (λ made. MakesMains list.now binders.now progress.old progress.new made) }
{
    let mut made = FlatCoreList::new(alloc);
    for at in 0..list.len() {
        let Some(form) = list.get(at) else {
            unreachable!()
        };
        made.push(flat(alloc, binders, places, progress, form)?)?;
    }
    Ok(made)
}
