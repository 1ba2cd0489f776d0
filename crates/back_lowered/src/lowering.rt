// A whole program lowered and laid.

ghost use Rattle.std.specs.Prelude.{◌≡◌, Err, IfOk};
ghost use Rattle.mid_start.specs.Rows.{RowsFit};
ghost use Rattle.back_words.specs.Asked.{NamesAsked};
ghost use Rattle.back_lowered.specs.Lowered.{IsLoweredProgram};
ghost use Rattle.back_lowered.specs.TooLarge.{IsTooLarge};

use crate::faults::LoweringFault;
use crate::program::{LaidProgram, lay_program};
use back_programs::lower_program;
use back_tables::tables_of;
use base::{Name, Names};
use flat_language::FlatProgram;
use mid_code::ProcedureList;
use std::alloc::Global;

/// The procedures of a lowered program, in the order of their numbers, and its words.
#[derive(Drop)]
pub struct LoweredProgram {
    pub procedures: ProcedureList,
    pub words: LaidProgram,
}

/// A flat program lowered, where t has that name: all its procedures, and all words that are there
/// before the first form.
pub fn lower(
    alloc: Global,
    names: &Names,
    true_name: Name,
    program: &FlatProgram,
) -> Result<LoweredProgram, LoweringFault>
    requires fit { RowsFit names.now true_name program.now.classes program.now.functions program.now.literals }
    requires named { NamesAsked names.now program.now }
    ensures lowered { IfOk result (λ l. IsLoweredProgram names.now program.now l) }
    ensures too_large { result ≡ Err LoweringFault.TooLarge → IsTooLarge names.now program.now }
{
    let tables = tables_of(alloc, names, program)?;
    let words = lay_program(
        alloc,
        names,
        true_name,
        program,
        &tables.rows,
        tables.unnamed,
    )?;
    let procedures = lower_program(alloc, names, &words.placement, program)?;
    Ok(LoweredProgram { procedures, words })
}
