// Further words of a program's own, behind all objects that are there before the first form.

ghost use Rattle.std.specs.Prelude.{◌≡◌, ℕ, ◌+◌, ◌^◌, ◌<◌, ◌≤◌, List, [], ◌++◌, Err, length, IfOk};
ghost use Rattle.lang_meaning.specs.declared.program.ProgramRows.{ProgramRows};
ghost use Rattle.mid_start.specs.StaticData.{IsStaticData};

use crate::static_data::MOST_WORDS;
use crate::{ArenaWords, StaticData, StaticDataFault};
use base::{NoMemory, WordList};

/// The same words with further ones behind them, from the address on where they ended. `TooLarge`
/// comes only where all together are more than 2^24.
pub fn lay_further(laid: StaticData, further: WordList) -> Result<StaticData, StaticDataFault>
    ensures start { IfOk result (λ s. (names : List (List ℕ)) → (program : ProgramRows) → (low : List ℕ) → IsStaticData names program low [] laid
        → IsStaticData names program low further s) }
    ensures kept { IfOk result (λ s. s ≡ record laid { arena = record laid.arena { words = s.arena.words } }) }
    ensures behind { IfOk result (λ s. s.arena.words ≡ laid.arena.words ++ further) }
    ensures size { IfOk result (λ s. length s.arena.words ≤ 2 ^ 24) }
    ensures too_large { result ≡ Err StaticDataFault.TooLarge → 2 ^ 24 < length laid.arena.words + length further }
{
    let StaticData {
        arena,
        classes,
        functions,
        literals,
    } = laid;
    let there = arena.words.len();
    if there > MOST_WORDS || further.len() > MOST_WORDS - there {
        return Err(StaticDataFault::TooLarge);
    }
    match with_further(arena, further) {
        Ok(arena) => Ok(StaticData {
            arena,
            classes,
            functions,
            literals,
        }),
        Err(_) => Err(StaticDataFault::NoMemory),
    }
}

fn with_further(laid: ArenaWords, further: WordList) -> Result<ArenaWords, NoMemory>
    ensures first { IfOk result (λ all. all.first ≡ laid.first) }
    ensures words { IfOk result (λ all. all.words ≡ laid.words ++ further) }
    ensures symbols { IfOk result (λ all. all.symbols ≡ laid.symbols) }
{
    let ArenaWords {
        first,
        words,
        symbols,
    } = laid;
    let mut all = words;
    all.append_list(further)?;
    Ok(ArenaWords {
        first,
        words: all,
        symbols,
    })
}
