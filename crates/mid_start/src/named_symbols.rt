// Symbols that a program wants the words of, behind all that is laid.

ghost use Rattle.std.specs.Prelude.{◌≡◌, ℕ, ◌+◌, ◌*◌, ◌^◌, ◌<◌, ◌≤◌, List, [], Err, length, OnOk, IfOk};
ghost use Rattle.lang_meaning.specs.declared.program.ProgramRows.{ProgramRows};
ghost use Rattle.mid_start.specs.Laying.{HasRoom};
ghost use Rattle.mid_start.specs.Making.{IsWithin};
ghost use Rattle.mid_start.specs.NamedSymbols.{AreNamed, HaveSymbols, LaysSymbols};
ghost use Rattle.mid_start.specs.StaticData.{IsStaticData};

use crate::names::lay_name;
use crate::static_data::MOST_WORDS;
use crate::{ArenaWords, StaticData, StaticDataFault};
use base::{NameList, Names, NoMemory};
use std::alloc::Global;

/// The same words with the symbols of these names behind them, each that is not there. `TooLarge`
/// comes only where 160 words for each name are more than those up to 2^24.
pub fn lay_symbols(
    alloc: Global,
    laid: StaticData,
    wanted: &NameList,
    names: &Names,
) -> Result<StaticData, StaticDataFault>
    requires named { AreNamed names.now wanted.now }
    requires first { laid.arena.first ≡ 0 }
    ensures start { IfOk result (λ s. (program : ProgramRows) → (low : List ℕ) → IsStaticData names.now program low [] laid
        → IsStaticData names.now program low [] s) }
    ensures symbols { IfOk result (λ s. (program : ProgramRows) → (low : List ℕ) → IsStaticData names.now program low [] laid
        → HaveSymbols wanted.now s.arena.symbols) }
    ensures kept { IfOk result (λ s. s ≡ record laid { arena = s.arena }) }
    ensures first { IfOk result (λ s. s.arena.first ≡ 0) }
    ensures size { IfOk result (λ s. length s.arena.words ≤ 2 ^ 24) }
    ensures within { IfOk result (λ s. length s.arena.words ≤ length laid.arena.words + 70 * length wanted.now) }
    ensures too_large { result ≡ Err StaticDataFault.TooLarge → 2 ^ 24 < length laid.arena.words + 160 * length wanted.now }
{
    let StaticData {
        arena,
        classes,
        functions,
        literals,
    } = laid;
    let there = arena.words.len();
    if there > MOST_WORDS || wanted.len() > (MOST_WORDS - there) / 160 {
        return Err(StaticDataFault::TooLarge);
    }
    let mut words = arena;
    match lay_names(alloc, wanted, names, &mut words) {
        Ok(()) => Ok(StaticData {
            arena: words,
            classes,
            functions,
            literals,
        }),
        Err(_) => Err(StaticDataFault::NoMemory),
    }
}

fn lay_names(
    alloc: Global,
    wanted: &NameList,
    names: &Names,
    words: &mut ArenaWords,
) -> Result<(), NoMemory>
    requires named { AreNamed names.now wanted.now }
    requires room { HasRoom words.old (70 * length wanted.now) }
    ensures within { OnOk result (IsWithin words.old words.new (70 * length wanted.now)) }
    ensures lays { OnOk result (LaysSymbols names.now wanted.now words.old words.new) }
{
    let _ = names.len();
    for at in 0..wanted.len() {
        let Some(name) = wanted.get(at) else {
            unreachable!()
        };
        let _ = lay_name(alloc, *name, names, words)?;
    }
    Ok(())
}
