// Dispatch tables are made.

ghost use Rattle.std.specs.Prelude.{◌≤◌, IfOk};
ghost use Rattle.std.specs.List.{sum_by};
ghost use Rattle.lang_meaning.specs.Cells.{generic_cells};
ghost use Rattle.lang_dispatch.specs.OfClasses.{with_classes};
ghost use Rattle.lang_dispatch.specs.Tables.{AreTablesOf};

use crate::dispatch_tables::Tables;
use crate::table::table_of;
use base::{ItemList, NoMemory};
use lang_meaning::{ClassRows, GenericRows};
use std::alloc::Global;

/// The tables of these generic functions with these classes. Condition: their cells are at most
/// 262,144.
pub fn tables(
    alloc: Global,
    generics: &GenericRows,
    classes: &ClassRows,
) -> Result<Tables, NoMemory>
    requires { sum_by (generic_cells (with_classes classes.now)) generics.now ≤ 262144 }
    ensures { IfOk result
        (λ found. AreTablesOf (with_classes classes.now) generics.now found) }
{
    let mut found = ItemList::new(alloc);
    for generic in generics.as_slice() {
        let table = table_of(alloc, generic, classes)?;
        found.push(table)?;
    }
    Ok(Tables::of(found))
}
