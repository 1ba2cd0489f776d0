// Words that are laid for the arena, and the symbols among them.

ghost use Rattle.std.specs.Prelude.{◌≡◌, []};
ghost use Rattle.mid_start.specs.LaidArena.{end_address};
ghost use Rattle.mid_start.specs.Laying.{HasRoom};

use crate::symbol_words::SymbolWords;
use base::WordList;
use std::alloc::Global;

/// The words that are laid from an address on, a multiple of 4, and the symbols laid so far.
#[derive(Drop)]
pub struct ArenaWords {
    pub first: u32,
    pub words: WordList,
    pub symbols: SymbolWords,
}

impl ArenaWords {
    /// No words, from that address on; takes no memory.
    pub fn new(alloc: Global, first: u32) -> ArenaWords
        ensures first { result.first ≡ first }
        ensures words { result.words ≡ [] }
        ensures symbols { result.symbols ≡ [] }
    {
        ArenaWords {
            first,
            words: WordList::new(alloc),
            symbols: SymbolWords::new(alloc),
        }
    }

    /// The address behind the last word.
    pub fn end_address(&self) -> u32
        requires { HasRoom self.now 0 }
        ensures { result ≡ end_address self.now }
    {
        self.first + 4 * self.words.len() as u32
    }
}
