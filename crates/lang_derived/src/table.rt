// The table of derived forms, as its definition has it.

ghost use Rattle.std.specs.Prelude.{◌≡◌};
ghost use Rattle.lang_derived.specs.Table.{table, names_a_row, names_some_row};
ghost use Rattle.lang_derived.specs.model.TableView.{view_rows, view_groups};

mod case;
mod condition;
mod repeated;
mod simple;

use crate::pattern::Pattern;
use crate::table::case::{case_rows, case_using_rows};
use crate::table::condition::condition_rows;
use crate::table::repeated::{function_rows, loop_rows, place_rows};
use crate::table::simple::{binding_rows, class_rows, conditional_rows, quotation_rows};
use crate::template::Template;

/// A row: a form of that name, whose parts fit, becomes the right side, with these new symbols in
/// the order of their serials. A right side names a part by its number, from 0.
pub(crate) struct Row {
    pub(crate) name: &'static [u8],
    pub(crate) parts: &'static [Pattern],
    pub(crate) right: &'static [Template],
    pub(crate) new: &'static [Template],
}

/// The table.
pub(crate) fn table() -> [&'static [Row]; 10]
    ensures { view_groups result ≡ table }
{
    [
        conditional_rows(),
        binding_rows(),
        case_rows(),
        case_using_rows(),
        loop_rows(),
        place_rows(),
        function_rows(),
        condition_rows(),
        class_rows(),
        quotation_rows(),
    ]
}

// Whether some row has the name.
fn names_a_row(rows: &[Row], name: &[u8]) -> bool
    ensures { result ≡ names_a_row (view_rows rows.now) name.now }
{
    let Some((row, others)) = rows.split_first() else {
        return false;
    };
    row.name == name || names_a_row(others, name)
}

/// Whether some row of the groups has the name.
pub(crate) fn names_some_row(groups: &[&[Row]], name: &[u8]) -> bool
    ensures { result ≡ names_some_row (view_groups groups.now) name.now }
{
    let Some((rows, others)) = groups.split_first() else {
        return false;
    };
    names_a_row(rows, name) || names_some_row(others, name)
}
