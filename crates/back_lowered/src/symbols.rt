// The words of symbols, by the numbers of their names.

ghost use Rattle.std.specs.Prelude.{◌≡◌, length, map, IfOk};
ghost use Rattle.std.specs.List.{range_with_len};
ghost use Rattle.std.specs.Option.{unwrap_or};
ghost use Rattle.base.specs.declared.datum.Name.{Name};
ghost use Rattle.base.specs.declared.datum.Symbol.TheVariants.{Named};
ghost use Rattle.mid_arena.specs.Tags.{nil_word};
ghost use Rattle.mid_start.specs.Symbols.{word_of_symbol};
ghost use Rattle.back_words.specs.Start.{laid_symbols};

use base::{Name, Names, NoMemory, Symbol, WordList};
use mid_start::SymbolWords;
use std::alloc::Global;

/// The word of nil.
pub const NIL: u32 = 3;

/// For each name the word of its symbol; nil's where none was laid.
pub fn symbol_words(
    alloc: Global,
    names: &Names,
    symbols: &SymbolWords,
) -> Result<WordList, NoMemory>
    ensures { IfOk result (λ ws. ws ≡ laid_symbols names.now symbols.now) }
{
    let mut words = WordList::new(alloc);
    for number in 0..names.len() {
        words.push(symbol_word(symbols, number))?;
    }
    Ok(words)
}

// The word of the symbol of one name.
fn symbol_word(symbols: &SymbolWords, number: usize) -> u32
    ensures { result ≡ unwrap_or (word_of_symbol (Named (record { 0 = number })) symbols.now) nil_word }
{
    match symbols.find(Symbol::Named(Name(number))) {
        Some(word) => word,
        None => NIL,
    }
}
