// All tables of a program.

ghost use Rattle.std.specs.Prelude.{◌≡◌, IfOk};
ghost use Rattle.back_calls.specs.Tabled.{IsTabled};
ghost use Rattle.back_calls.specs.declared.given.Given.{Given};

use crate::bodies::asking_bodies;
use crate::methods::method_flags;
use back_calls::given::Tables;
use base::{Names, NoMemory};
use flat_language::FlatProgram;
use lang_rows::named::{row_at, rows_by_numbers, rows_of_names};
use std::alloc::Global;

/// What is looked up again and again of a program.
#[tactic(auto, using(crate::proofs::Tabling::tabled))]
pub fn tables_of(alloc: Global, names: &Names, program: &FlatProgram) -> Result<Tables, NoMemory>
    ensures { IfOk result (λ tables. (given : Given) → given.names.now ≡ names.now → given.program.now ≡ program.now → given.tables.now ≡ tables → IsTabled given) }
{
    let methods = method_flags(alloc, program.procedures.len(), &program.generics)?;
    let asking = asking_bodies(alloc, &program.procedures)?;
    let numbered = rows_by_numbers(alloc, names, &program.functions)?;
    let rows = rows_of_names(alloc, names, &numbered)?;
    let unnamed = row_at(&numbered, names.len());
    Ok(Tables {
        methods,
        asking,
        rows,
        unnamed,
    })
}
