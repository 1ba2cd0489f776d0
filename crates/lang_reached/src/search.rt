// The search for what is reached: what is marked, and what is still to be looked at.

ghost use Rattle.std.specs.Prelude.{◌≡◌, not, slice_get, OnOk};
ghost use Rattle.lang_reached.specs.LeftOut.{is_marked, KeepsProcedure, KeepsGeneric, KeepsCallee, KeepsNamed};
ghost use Rattle.lang_reached.specs.Mentioned.{GenericBrings, CalleeBrings, NameBrings};
ghost use Rattle.lang_reached.specs.Search.{Marks, MarksMethods, IsGiven};

use crate::given::Given;
use crate::kept::Kept;
use base::{ItemList, Name, NoMemory};
use lang_meaning::{Callee, GenericId, MethodRows, ProcedureId};
use lang_rows::flags::FlagList;
use lang_rows::named::{number_of, row_at};

/// Procedures, by their numbers.
pub type ProcedureIds = ItemList<ProcedureId>;

/// What is marked so far, and the procedures whose bodies are still to be looked at.
#[derive(Drop)]
pub struct Search {
    pub kept: Kept,
    pub pending: ProcedureIds,
}

// Whether a number has a flag that is not set.
fn is_unmarked(flags: &FlagList, number: usize) -> bool
    ensures { result ≡ not (is_marked flags.now number) }
{
    match flags.get(number) {
        Some(flag) => !*flag,
        None => false,
    }
}

// A procedure is marked, and waits if it was not.
pub(crate) fn mark_procedure(
    given: &Given,
    search: &mut Search,
    procedure: ProcedureId,
) -> Result<(), NoMemory>
    ensures { OnOk result (Marks given.now.names.now given.now.program.now (λ p. procedure ≡ p) search.old search.new
        × KeepsProcedure search.new.kept procedure) }
{
    if is_unmarked(&search.kept.procedures, procedure) {
        search.kept.procedures.replace(procedure, true);
        search.pending.push(procedure)?;
    }
    Ok(())
}

// The procedures of these methods are marked.
fn mark_methods(given: &Given, search: &mut Search, methods: &MethodRows) -> Result<(), NoMemory>
    ensures { OnOk result (MarksMethods given.now.names.now given.now.program.now methods.now search.old search.new) }
{
    for at in 0..methods.len() {
        let Some(method) = methods.get(at) else {
            unreachable!()
        };
        mark_procedure(given, search, method.procedure)?;
    }
    Ok(())
}

// A generic function is marked, with all its methods.
fn mark_generic(given: &Given, search: &mut Search, generic: GenericId) -> Result<(), NoMemory>
    ensures { OnOk result (Marks given.now.names.now given.now.program.now
        (GenericBrings given.now.names.now given.now.program.now (slice_get given.now.program.now.generics generic)) search.old search.new
        × KeepsGeneric search.new.kept generic) }
{
    if is_unmarked(&search.kept.generics, generic) {
        search.kept.generics.replace(generic, true);
        if let Some(row) = given.program.generics.get(generic) {
            mark_methods(given, search, &row.methods)?;
        }
    }
    Ok(())
}

// What a name calls is marked.
pub(crate) fn mark_named(given: &Given, search: &mut Search, name: Name) -> Result<(), NoMemory>
    requires { IsGiven given.now }
    ensures { OnOk result (Marks given.now.names.now given.now.program.now (NameBrings given.now.names.now given.now.program.now name.0) search.old search.new
        × KeepsNamed given.now.names.now given.now.program.now search.new.kept name.0) }
{
    match row_at(given.rows, number_of(given.names, name)) {
        None => Ok(()),
        Some(function) => mark_callee(given, search, function.callee),
    }
}

// What is called is marked.
fn mark_callee(given: &Given, search: &mut Search, callee: Callee) -> Result<(), NoMemory>
    ensures { OnOk result (Marks given.now.names.now given.now.program.now (CalleeBrings given.now.names.now given.now.program.now callee) search.old search.new
        × KeepsCallee search.new.kept callee) }
{
    match callee {
        Callee::Procedure(procedure) => mark_procedure(given, search, procedure),
        Callee::Generic(generic) => mark_generic(given, search, generic),
    }
}
