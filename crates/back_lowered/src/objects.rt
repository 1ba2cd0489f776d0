// The words of all objects before the first form, and of the symbols that conditions may have.

ghost use Rattle.std.specs.Prelude.{◌≡◌, ◌+◌, ◌*◌, ◌^◌, ◌≤◌, [], Err, length, IfOk};
ghost use Rattle.flat_language.specs.FlatNodes.{tables};
ghost use Rattle.mid_start.specs.NamedSymbols.{AreNamed, HaveSymbols};
ghost use Rattle.mid_start.specs.Rows.{RowsFit, most_static_words, unit_words};
ghost use Rattle.mid_start.specs.StaticData.{IsStaticData};
ghost use Rattle.back_lowered.specs.TooLarge.{ObjectsTooLarge};

use crate::faults::LoweringFault;
use base::{Name, NameList, Names, WordList};
use flat_language::FlatProgram;
use mid_start::{StaticData, lay_rows, lay_symbols};
use std::alloc::Global;

/// The words of the objects that are there before the first form, behind the fixed words and these low
/// ones, with the symbols of these names.
pub fn lay_objects(
    alloc: Global,
    names: &Names,
    true_name: Name,
    program: &FlatProgram,
    low: WordList,
    wanted: &NameList,
) -> Result<StaticData, LoweringFault>
    requires fit { RowsFit names.now true_name program.now.classes program.now.functions program.now.literals }
    requires named { AreNamed names.now wanted.now }
    ensures start { IfOk result (λ s. IsStaticData names.now (tables program.now) low [] s) }
    ensures symbols { IfOk result (λ s. HaveSymbols wanted.now s.arena.symbols) }
    ensures size { IfOk result (λ s. length s.arena.words ≤ 2 ^ 24) }
    ensures within { IfOk result (λ s. length s.arena.words
        ≤ 46 + length low + most_static_words program.now.classes program.now.functions program.now.literals + unit_words * length wanted.now) }
    ensures too_large { result ≡ Err LoweringFault.TooLarge → ObjectsTooLarge names.now program.now low wanted.now }
{
    let laid = lay_rows(
        alloc,
        names,
        true_name,
        &program.classes,
        &program.functions,
        &program.literals,
        low,
    )?;
    Ok(lay_symbols(alloc, laid, wanted, names)?)
}
