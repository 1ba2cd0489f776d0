// The whole program.

ghost use Rattle.std.specs.Prelude.{◌≡◌, IfOk};
ghost use Rattle.back_lowering.specs.Program as lowering;
ghost use Rattle.back_calls.specs.Tabled.{IsTabled};

use crate::functions::{bodies, entries, lambda_bodies, lambda_entries, main_forms};
use crate::primitives::primitives;
use crate::routines::routines;
use back_calls::Given;
use back_lowering::Placement;
use back_procedures::mains::start;
use back_tables::tables_of;
use base::{Names, NoMemory};
use flat_language::FlatProgram;
use mid_code::ProcedureList;
use std::alloc::Global;

// Its procedures, with the tables that its code looks up.
fn procedures_of(alloc: Global, given: &Given) -> Result<ProcedureList, NoMemory>
    requires { IsTabled given.now }
    ensures { IfOk result (λ list. list ≡ lowering.lowered given.now.names.now given.now.at.now given.now.program.now) }
{
    let mut list = ProcedureList::new(alloc);
    entries(&mut list, alloc, given)?;
    lambda_entries(&mut list, alloc, given)?;
    bodies(&mut list, alloc, given)?;
    lambda_bodies(&mut list, alloc, given)?;
    primitives(&mut list, alloc, given)?;
    routines(&mut list, alloc, given)?;
    main_forms(&mut list, alloc, given)?;
    list.push(start(alloc, given)?)?;
    Ok(list)
}

/// All procedures of a lowered program, where words are laid as the placement says. Fails for want of memory, as which it also counts that
/// the program has more than 2^60 of something, or code more registers than that.
pub fn lower_program(
    alloc: Global,
    names: &Names,
    at: &Placement,
    program: &FlatProgram,
) -> Result<ProcedureList, NoMemory>
    ensures { IfOk result (λ list. list ≡ lowering.lowered names.now at.now program.now) }
{
    let tables = tables_of(alloc, names, program)?;
    let given = Given {
        names,
        at,
        program,
        tables: &tables,
    };
    procedures_of(alloc, &given)
}
