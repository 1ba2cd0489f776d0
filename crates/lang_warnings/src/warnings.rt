// What a program is warned of.

ghost use Rattle.std.specs.Prelude.{◌≡◌, IfOk};
ghost use Rattle.lang_warnings.specs.Known.{IsKnown};
ghost use Rattle.lang_warnings.specs.Warnings.{AreWarnings, place_number};

use crate::collected::add_program;
use crate::defined::defined_globals;
use crate::known::Known;
use crate::warning::Warning;
use base::{Names, NoMemory, Place};
use lang_meaning::ProgramRows;
use lang_rows::named::rows_by_numbers;
use std::alloc::Global;

/// What a program is warned of: its calls of names that have no function, its calls with other numbers of arguments than the
/// function takes, and the global variables that it reads or sets and never defines; each at its place, in the order of
/// places. Forms without a place, as those of the library, are passed over.
pub fn warnings_of(
    alloc: Global,
    names: &Names,
    program: &ProgramRows,
) -> Result<Vec<Warning>, NoMemory>
    ensures { IfOk result (λ list. AreWarnings names.now program.now list.items) }
{
    let rows = rows_by_numbers(alloc, names, &program.functions)?;
    let globals = defined_globals(alloc, &program.main)?;
    let known = Known {
        names,
        program,
        rows: &rows,
        globals: &globals,
    };
    let list = in_order(alloc, &known);
    drop(globals);
    drop(rows);
    list
}

// The warnings in the order of their places.
fn in_order(alloc: Global, known: &Known<'_>) -> Result<Vec<Warning>, NoMemory>
    requires { IsKnown known.now }
    ensures { IfOk result (λ list. AreWarnings known.now.names.now known.now.program.now list.items) }
{
    let mut list = Vec::new(alloc);
    add_program(known, &mut list)?;
    list.sort_by_key(|warning| number_of_place(warning.place))?;
    Ok(list)
}

// Lines first, and columns in a line.
fn number_of_place(place: Place) -> u64
    ensures { result ≡ place_number place }
{
    u64::from(place.line) * 4_294_967_296 + u64::from(place.column)
}
