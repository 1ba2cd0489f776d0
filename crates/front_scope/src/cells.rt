// The cells of dispatch tables behind a form: counted from form to form, and refused where they are too many.

ghost use Rattle.std.specs.Prelude.{◌≡◌, IfOk, IfErr};
ghost use Rattle.front_scope.specs.Cells.{FewAt, IsCountBefore, IsCountAfter, StopsAtCells};

use crate::quick::are_told_few;
use base::{Datum, Reason, Stop};
use front_cells::{CellCount, Recount};
use front_profile::Tables;
use front_programs::refused;
use std::alloc::Global;

/// The nodes and the cells behind a form that is taken; no count of cells where that of before stays.
#[derive(Drop)]
pub(crate) struct Taken {
    pub(crate) nodes: u64,
    pub(crate) cells: Option<CellCount>,
}

/// The count of cells behind the form, none where that of before stays: where it is quickly told that the cells are few, they are not counted. The form is
/// refused exactly where they are too many.
pub(crate) fn count_cells(
    alloc: Global,
    tables: &Tables,
    cells: &CellCount,
    datum: &Datum,
) -> Result<Option<CellCount>, Stop>
    requires few { FewAt tables.now.before tables.now }
    requires before { IsCountBefore tables.now cells.now }
    ensures counted { IfOk result (λ count. IsCountAfter tables.now cells.now count) }
    ensures stop { IfErr result (λ stop. StopsAtCells tables.now datum.now stop) }
{
    if are_told_few(alloc, tables, &tables.before)? {
        return Ok(None);
    }
    match cells.recount(alloc, tables.classes.rows(), tables.generics.rows())? {
        Recount::Same => Ok(None),
        Recount::New(count) => Ok(Some(count)),
        Recount::TooMany => Err(refused(datum, Reason::DispatchTooLarge)),
    }
}
