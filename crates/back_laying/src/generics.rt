// The words of generic functions.

ghost use Rattle.std.specs.Prelude.{◌≡◌, ◌++◌, Err, OnOk, OnErr, IfOk};
ghost use Rattle.back_relation.specs.Chains.{arity_word};
ghost use Rattle.back_words.specs.Words.{symbol_among};
ghost use Rattle.back_laying.specs.GenericWords.{words_of_generic, words_of_generics};
ghost use Rattle.back_laying.specs.TooLarge.{IsLarge, DoNotFit};

use crate::faults::{LayingFault, behind};
use crate::generic_chains::lay_chains;
use crate::groups::generic_groups;
use crate::maps::{push_maps, push_specialised};
use base::{Name, WordList};
use lang_dispatch::tuple_count;
use lang_meaning::{ClassRows, GenericRow, GenericRows};
use mid_arena::words::NIL;
use std::alloc::Global;

// Twice so many arguments, and one, are below 2^31.
const MOST_REQUIRED: u32 = 1_073_741_823;

/// A word for the address of each generic function, behind the words that are there, and behind them
/// the words of each, where the first of all these words stands at an address, and where the symbols of
/// names have these words.
pub fn push_generics(
    alloc: Global,
    words: &mut WordList,
    generics: &GenericRows,
    classes: &ClassRows,
    symbols: &WordList,
    address: u32,
) -> Result<(), LayingFault>
    ensures words { OnOk result (words.new ≡ words.old ++ words_of_generics classes.now symbols.now generics.now address) }
    ensures too_large { result ≡ Err LayingFault.TooLarge → DoNotFit address (words_of_generics classes.now symbols.now generics.now address) }
{
    let start = behind(address, generics.len())?;
    let mut laid = WordList::new(alloc);
    for at in 0..generics.len() {
        let Some(generic) = generics.get(at) else {
            unreachable!()
        };
        let here = behind(start, laid.len())?;
        words.push(here)?;
        push_generic(alloc, &mut laid, generic, classes, symbols, here)?;
    }
    Ok(words.append_list(laid)?)
}

/// The words of a generic function, behind those that are there, where they stand from an address on,
/// and where the symbols of names have these words.
pub fn push_generic(
    alloc: Global,
    words: &mut WordList,
    generic: &GenericRow,
    classes: &ClassRows,
    symbols: &WordList,
    address: u32,
) -> Result<(), LayingFault>
    ensures words { OnOk result (words.new ≡ words.old ++ words_of_generic classes.now symbols.now generic.now address) }
    ensures too_large { result ≡ Err LayingFault.TooLarge → DoNotFit address (words_of_generic classes.now symbols.now generic.now address) }
{
    let arity = generic_arity(generic)?;
    let groups = generic_groups(alloc, generic, classes)?;
    let specialised = groups.specialised.len();
    let count = tuple_count(&groups.firsts);
    let cells = behind(behind(behind(address, 3)?, specialised)?, specialised)?;
    let maps = behind(cells, count)?;
    words.push(arity)?;
    words.push(symbol_of(symbols, generic.name))?;
    words.push(specialised as u32)?;
    let start = push_specialised(words, &groups.specialised, classes.len(), maps)?;
    let chains = lay_chains(alloc, generic, classes, &groups.firsts, count, start)?;
    words.append_list(chains.cells)?;
    push_maps(words, &groups)?;
    Ok(words.append_list(chains.words)?)
}

// How many arguments a generic function takes.
fn generic_arity(generic: &GenericRow) -> Result<u32, LayingFault>
    ensures word { IfOk result (λ word. word ≡ arity_word generic.now.required generic.now.rest) }
    ensures too_large { OnErr result (IsLarge (arity_word generic.now.required generic.now.rest)) }
{
    if generic.required > MOST_REQUIRED {
        return Err(LayingFault::TooLarge);
    }
    if generic.rest {
        Ok(2 * generic.required + 1)
    } else {
        Ok(2 * generic.required)
    }
}

// The word of the symbol of a name; that of nil where it has none.
fn symbol_of(symbols: &WordList, name: Name) -> u32
    ensures { result ≡ symbol_among symbols.now name.0 }
{
    match symbols.get(name.0) {
        Some(word) => *word,
        None => NIL,
    }
}
