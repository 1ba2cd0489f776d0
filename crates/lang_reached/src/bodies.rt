// The bodies that wait are looked at, until none waits.

ghost use Rattle.std.specs.Prelude.{◌≡◌, slice_get, OnOk};
ghost use Rattle.lang_reached.specs.Search.{Takes, MarksBody, IsGiven, IsSearched, Ends};

use crate::forms::mark_form;
use crate::given::Given;
use crate::search::Search;
use base::NoMemory;
use lang_meaning::ProcedureId;

/// What is reached from what waits is marked. `NoMemory` too where more bodies wait than there are numbers, which none do.
pub(crate) fn search_bodies(given: &Given, search: &mut Search) -> Result<(), NoMemory>
    requires given { IsGiven given.now }
    requires searched { IsSearched given.now.names.now given.now.program.now search.old }
    ensures { OnOk result (Ends given.now.names.now given.now.program.now search.old search.new) }
{
    for _turn in 0..u64::MAX {
        let Some(procedure) = next_waiting(search) else {
            return Ok(());
        };
        look_at(given, search, procedure)?;
    }
    Err(NoMemory)
}

// The last procedure that waits.
fn next_waiting(search: &mut Search) -> Option<ProcedureId>
    ensures { Takes search.old search.new result }
{
    let count = search.pending.len();
    if count == 0 {
        return None;
    }
    let Some(last) = search.pending.get(count - 1) else {
        unreachable!()
    };
    let procedure = *last;
    search.pending.cut(count - 1);
    Some(procedure)
}

// What the body of a procedure mentions is marked.
fn look_at(given: &Given, search: &mut Search, procedure: ProcedureId) -> Result<(), NoMemory>
    requires { IsGiven given.now }
    ensures { OnOk result (MarksBody given.now.names.now given.now.program.now
        (slice_get given.now.program.now.procedures procedure) search.old search.new) }
{
    match given.program.procedures.get(procedure) {
        Some(row) => mark_form(given, search, &row.body),
        None => Ok(()),
    }
}
