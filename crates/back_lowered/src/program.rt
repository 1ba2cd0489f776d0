// A whole program, laid.

ghost use Rattle.std.specs.Prelude.{◌≡◌, Err, IfOk};
ghost use Rattle.mid_start.specs.Rows.{RowsFit};
ghost use Rattle.back_words.specs.Asked.{NamesAsked};
ghost use Rattle.back_uses.specs.Functions.{AreFunctions};
ghost use Rattle.back_lowered.specs.Laid.{IsLaidProgram};
ghost use Rattle.back_lowered.specs.TooLarge.{IsTooLarge};

use crate::faults::LoweringFault;
use crate::literals::literal_words;
use crate::objects::lay_objects;
use crate::symbols::symbol_words;
use crate::variables::variables_of;
use back_laying::{further_words, low_words};
use back_lowering::Placement;
use back_uses::used_names;
use base::{ItemList, Name, Names};
use flat_language::FlatProgram;
use lang_meaning::FunctionRow;
use mid_start::{StaticData, lay_further};
use std::alloc::Global;

/// Where the words of a program are, for its code, and the words with which a run begins.
#[derive(Drop)]
pub struct LaidProgram {
    pub placement: Placement,
    pub data: StaticData,
}

/// All words of a flat program, laid as its lowered code asks, where t has that name. `rows` has the
/// function of each name of the table, by its number; `unnamed` is that of any other name.
pub fn lay_program(
    alloc: Global,
    names: &Names,
    true_name: Name,
    program: &FlatProgram,
    rows: &ItemList<Option<FunctionRow>>,
    unnamed: Option<FunctionRow>,
) -> Result<LaidProgram, LoweringFault>
    requires fit { RowsFit names.now true_name program.now.classes program.now.functions program.now.literals }
    requires functions { AreFunctions names.now program.now.functions rows.now unnamed }
    requires named { NamesAsked names.now program.now }
    ensures laid { IfOk result (λ l. IsLaidProgram names.now program.now l) }
    ensures too_large { result ≡ Err LoweringFault.TooLarge → IsTooLarge names.now program.now }
{
    let used = used_names(alloc, names, program, rows, unnamed)?;
    let variables = variables_of(alloc, names, &used)?;
    let low = low_words(alloc, variables.count)?;
    let objects = lay_objects(alloc, names, true_name, program, low, &used.symbols)?;
    let symbols = symbol_words(alloc, names, &objects.arena.symbols)?;
    let literals = literal_words(
        alloc,
        names,
        &program.functions,
        &program.literals,
        &objects,
    )?;
    let arities = 4 * objects.arena.words.len() as u32;
    let further = further_words(alloc, program, &symbols, arities)?;
    let data = lay_further(objects, further)?;
    let functions = program.procedures.len() + program.lambdas.len();
    Ok(LaidProgram {
        placement: Placement {
            literals,
            symbols,
            globals: variables.globals,
            dynamics: variables.dynamics,
            procedures: program.procedures.len(),
            lambdas: program.lambdas.len(),
            arities,
            generics: arities + 4 * functions as u32,
        },
        data,
    })
}
