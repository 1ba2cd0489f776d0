// The datum of a value in the words of memory.

ghost use Rattle.std.specs.Prelude.{IfOk, IfErr};
ghost use Rattle.mid_taken.specs.IndexOf.{IsIndexOf};
ghost use Rattle.mid_taken.specs.TakenFrom.{IsTaken, IsRefused};
ghost use Rattle.mid_taken.specs.Taking.{StopsBy};

use crate::memory::{Memory, SymbolIndex};
use crate::taking::take_word;
use base::{Datum, NoMemory, Place, Stop};
use mid_start::SymbolWord;
use std::alloc::Global;

/// The size that a datum of a value may have at most.
pub const GREATEST_SIZE: usize = 100_000;

/// How many lists and vectors may stand inside one another.
pub const GREATEST_DEPTH: u32 = 256;

/// The datum that a value stands for as the result of the expansion with that number, all parts at that place. `words` are those of
/// memory from address 0 on, `word` is the word of the value, and `symbols` are those that were there before the run, with their
/// words. It is refused at the place where a part stands for no datum, or where the datum is of a size above 100,000 or nested
/// deeper than 256. Words that represent nothing give some datum or some refusal. The depth of calls is that of the datum.
pub fn take_datum(
    alloc: Global,
    words: &[u32],
    word: u32,
    place: Place,
    expansion: u32,
    symbols: &[SymbolWord],
) -> Result<Datum, Stop>
    ensures takes { IfOk result (λ d. IsTaken words.now word symbols.now place expansion d) }
    ensures stops { IfErr result (λ stop. StopsBy place (λ r. IsRefused words.now word symbols.now place expansion r) stop) }
{
    let index = index_of(alloc, symbols)?;
    let from = Memory {
        words,
        symbols: &index,
        place,
        expansion,
    };
    let mut left = GREATEST_SIZE;
    take_word(alloc, &from, word, GREATEST_DEPTH, &mut left)
}

// The index of these symbols.
fn index_of(alloc: Global, symbols: &[SymbolWord]) -> Result<SymbolIndex, NoMemory>
    ensures { IfOk result (λ index. IsIndexOf symbols.now index) }
{
    let mut index = SymbolIndex::new(alloc);
    for at in 0..symbols.len() {
        let Some(entry) = symbols.get(at) else {
            unreachable!()
        };
        index.bind(entry.word, entry.symbol)?;
    }
    Ok(index)
}
