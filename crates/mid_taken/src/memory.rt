// What all parts of a datum are taken from.

ghost use Rattle.std.specs.Prelude.{◌≡◌, slice_get};
ghost use Rattle.std.specs.Option.{unwrap_or};

use base::{NameMap, Place, Symbol};

/// Symbols by the words that point to where they are laid.
pub type SymbolIndex = NameMap<u32, Symbol>;

/// The words of memory from address 0 on, the symbols among them, the place that all parts get, and the number of the expansion.
#[derive(Clone, Copy)]
pub struct Memory<'m> {
    pub words: &'m [u32],
    pub symbols: &'m SymbolIndex,
    pub place: Place,
    pub expansion: u32,
}

/// The word at a place, counted in words; 0 where there is none.
pub fn word_in(words: &[u32], at: usize) -> u32
    ensures { result ≡ unwrap_or (slice_get words.now at) 0 }
{
    match words.get(at) {
        Some(word) => *word,
        None => 0,
    }
}
