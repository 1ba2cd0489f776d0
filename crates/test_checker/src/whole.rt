// Whether rows are those of a program.

ghost use Rattle.std.specs.Prelude.{◌≡◌, nat_le, IfOk};
ghost use Rattle.lang_meaning.specs.Facts.{rows_fit, bodies_stand, is_whole};
ghost use Rattle.lang_meaning.specs.Cells.{program_cells};

use crate::bodies::{bodies_fit, main_fits};
use crate::classes::{begins_with_built_in, classes_fit};
use crate::generics::generics_fit;
use crate::procedures::procedures_stand;
use crate::rows::{functions_fit, literals_fit, names_differ};
use base::NoMemory;
use lang_dispatch::cells::cells;
use lang_meaning::ProgramRows;
use std::alloc::Global;

/// Whether the rows are those of a program. The time grows with the nodes, once for each captured part
/// and each function around, and with the product of procedures and methods.
pub fn is_whole(alloc: Global, rows: &ProgramRows) -> Result<bool, NoMemory>
    ensures { IfOk result (λ yes. yes ≡ is_whole rows.now) }
{
    if !fit(rows) {
        return Ok(false);
    }
    if !bodies_stand(alloc, rows)? {
        return Ok(false);
    }
    cells_fit(alloc, rows)
}

// Each row by itself.
#[tactic(auto, using(crate::proofs::Bounds::nodes_within))]
fn fit(rows: &ProgramRows) -> bool
    ensures { result ≡ rows_fit rows.now }
{
    begins_with_built_in(rows.classes.as_slice())
        && literals_fit(rows)
        && bodies_fit(rows)
        && names_differ(rows.functions.as_slice())
        && rows.sites.len() <= 100_000
        && rows.nodes() <= 100_000
}

// Where its bodies stand.
fn bodies_stand(alloc: Global, rows: &ProgramRows) -> Result<bool, NoMemory>
    ensures { IfOk result (λ yes. yes ≡ bodies_stand rows.now) }
{
    if !classes_fit(alloc, rows)? {
        return Ok(false);
    }
    if !generics_fit(alloc, rows)? {
        return Ok(false);
    }
    if !functions_fit(alloc, rows)? {
        return Ok(false);
    }
    if !main_fits(alloc, rows)? {
        return Ok(false);
    }
    procedures_stand(alloc, rows)
}

// The tables that choose methods are not too large.
#[tactic(auto, using(crate::proofs::Bounds::cells_within, crate::proofs::Bounds::cells_alike))]
fn cells_fit(alloc: Global, rows: &ProgramRows) -> Result<bool, NoMemory>
    ensures { IfOk result (λ yes. yes ≡ nat_le (program_cells rows.now) 262144) }
{
    Ok(cells(alloc, &rows.generics, &rows.classes)? <= 262_144)
}
