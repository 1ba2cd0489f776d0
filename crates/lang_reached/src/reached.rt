// What the main forms of a program reach.

ghost use Rattle.std.specs.Prelude.{◌<◌, ℕ, length, option_to_list, IfOk, OnOk};
ghost use Rattle.lang_meaning.specs.Literals.{all_slots};
ghost use Rattle.lang_reached.specs.LeftOut.{KeepsProcedure, IsClosed};
ghost use Rattle.lang_reached.specs.Mentioned.{IsReached};
ghost use Rattle.lang_reached.specs.Search.{IsGiven, MarksAll, MarksForms, IsBegun, slots_bring};

use crate::bodies::search_bodies;
use crate::forms::mark_form;
use crate::given::Given;
use crate::kept::Kept;
use crate::search::{ProcedureIds, Search, mark_procedure};
use base::{Names, NoMemory};
use lang_meaning::{ClassRows, CoreList, ProcedureId, ProgramRows, SlotRows};
use lang_rows::flags::no_flags;
use lang_rows::named::rows_by_numbers;
use std::alloc::Global;

/// Which procedures and generic functions the main forms reach, and the initforms of slots: those that they mention, directly or through
/// others; a generic function brings all its methods. All that is reached is kept, and no procedure but what is reached.
pub fn reached(alloc: Global, names: &Names, program: &ProgramRows) -> Result<Kept, NoMemory>
    ensures closed { IfOk result (λ kept. IsClosed names.now program.now kept) }
    ensures reached { IfOk result (λ kept. (p : ℕ) → p < length program.now.procedures → KeepsProcedure kept p → IsReached names.now program.now p) }
{
    let rows = rows_by_numbers(alloc, names, &program.functions)?;
    let given = Given {
        names,
        program,
        rows: &rows,
    };
    let mut search = begun(alloc, program)?;
    mark_initforms(&given, &mut search, &program.classes)?;
    mark_mains(&given, &mut search, &program.main)?;
    search_bodies(&given, &mut search)?;
    drop(rows);
    let Search { kept, pending } = search;
    drop(pending);
    Ok(kept)
}

// Nothing is marked yet.
fn begun(alloc: Global, program: &ProgramRows) -> Result<Search, NoMemory>
    ensures { IfOk result (λ search. IsBegun program.now search) }
{
    let procedures = no_flags(alloc, program.procedures.len())?;
    let generics = no_flags(alloc, program.generics.len())?;
    Ok(Search {
        kept: Kept {
            procedures,
            generics,
        },
        pending: ProcedureIds::new(alloc),
    })
}

// The procedures of initforms are marked.
fn mark_initforms(given: &Given, search: &mut Search, classes: &ClassRows) -> Result<(), NoMemory>
    ensures { OnOk result (MarksAll given.now.names.now given.now.program.now (slots_bring (all_slots classes.now)) search.old search.new) }
{
    for at in 0..classes.len() {
        let Some(class) = classes.get(at) else {
            unreachable!()
        };
        mark_slots(given, search, &class.slots)?;
    }
    Ok(())
}

fn mark_slots(given: &Given, search: &mut Search, slots: &SlotRows) -> Result<(), NoMemory>
    ensures { OnOk result (MarksAll given.now.names.now given.now.program.now (slots_bring slots.now) search.old search.new) }
{
    for at in 0..slots.len() {
        let Some(slot) = slots.get(at) else {
            unreachable!()
        };
        mark_initform(given, search, slot.initform)?;
    }
    Ok(())
}

fn mark_initform(
    given: &Given,
    search: &mut Search,
    initform: Option<ProcedureId>,
) -> Result<(), NoMemory>
    ensures { OnOk result (MarksAll given.now.names.now given.now.program.now (option_to_list initform) search.old search.new) }
{
    match initform {
        Some(procedure) => mark_procedure(given, search, procedure)?,
        None => {}
    }
    Ok(())
}

// What main forms mention is marked.
fn mark_mains(given: &Given, search: &mut Search, main: &CoreList) -> Result<(), NoMemory>
    requires { IsGiven given.now }
    ensures { OnOk result (MarksForms given.now.names.now given.now.program.now main.now search.old search.new) }
{
    for at in 0..main.len() {
        let Some(form) = main.get(at) else {
            unreachable!()
        };
        mark_form(given, search, form)?;
    }
    Ok(())
}
