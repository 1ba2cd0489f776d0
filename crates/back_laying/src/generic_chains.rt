// The chains of a generic function, with a cell for each tuple of groups.

ghost use Rattle.std.specs.Prelude.{◌≡◌, ◌+◌, ◌*◌, ◌++◌, ◌∷◌, [], length, map, Err, OnOk, IfOk};
ghost use Rattle.lang_meaning.specs.Cells.{tuples};
ghost use Rattle.lang_meaning.specs.Classes.{chain};
ghost use Rattle.lang_dispatch.specs.Chains.{seen, maybe_seen};
ghost use Rattle.lang_dispatch.specs.OfClasses.{with_classes};
ghost use Rattle.back_relation.specs.Chains.{chain_words};
ghost use Rattle.back_words.specs.Generics.{words_of_chain, all_chain_words, chain_cell, chain_cells};
ghost use Rattle.back_laying.specs.TooLarge.{DoNotFit};

use crate::chains::{chain_fits, push_chain};
use crate::faults::{LayingFault, behind};
use base::{ItemList, WordList};
use lang_dispatch::chain::chain_of;
use lang_dispatch::{Chain, tuple_at};
use lang_meaning::{ClassIds, ClassRows, GenericRow};
use std::alloc::Global;

/// The cells of tuples, and the words of their chains.
#[derive(Drop)]
pub(crate) struct LaidChains {
    pub(crate) cells: WordList,
    pub(crate) words: WordList,
}

impl LaidChains {
    // The chain of the next tuple, or none, where the words of chains begin at that address.
    fn take(&mut self, start: u32, chain: &Option<Chain>) -> Result<(), LayingFault>
        ensures cells { OnOk result (self.new.cells ≡ self.old.cells ++ chain_cell (maybe_seen chain.now) (start + 4 * length self.old.words) ∷ []) }
        ensures words { OnOk result (self.new.words ≡ self.old.words ++ words_of_chain (maybe_seen chain.now)) }
        ensures too_large { result ≡ Err LayingFault.TooLarge → DoNotFit (start + 4 * length self.old.words) (words_of_chain (maybe_seen chain.now)) }
    {
        match chain {
            Some(chain) => self.take_chain(start, chain),
            None => Ok(self.cells.push(0)?),
        }
    }

    fn take_chain(&mut self, start: u32, chain: &Chain) -> Result<(), LayingFault>
        ensures cells { OnOk result (self.new.cells ≡ self.old.cells ++ (start + 4 * length self.old.words) ∷ []) }
        ensures words { OnOk result (self.new.words ≡ self.old.words ++ chain_words (seen chain.now)) }
        ensures too_large { result ≡ Err LayingFault.TooLarge → DoNotFit (start + 4 * length self.old.words) (chain_words (seen chain.now)) }
    {
        let address = behind(start, self.words.len())?;
        if !chain_fits(chain) {
            return Err(LayingFault::TooLarge);
        }
        self.cells.push(address)?;
        push_chain(&mut self.words, chain)?;
        Ok(())
    }
}

/// The chains of all tuples of one first class of each list, and their cells, where the words of
/// chains begin at that address. Each chain is made once.
pub(crate) fn lay_chains(
    alloc: Global,
    generic: &GenericRow,
    classes: &ClassRows,
    firsts: &ItemList<ClassIds>,
    count: usize,
    start: u32,
) -> Result<LaidChains, LayingFault>
    requires { count ≡ length (tuples firsts.now) }
    ensures cells { IfOk result (λ laid. laid.cells ≡ chain_cells (map (chain (with_classes classes.now) generic.now) (tuples firsts.now)) start) }
    ensures words { IfOk result (λ laid. laid.words ≡ all_chain_words (map (chain (with_classes classes.now) generic.now) (tuples firsts.now))) }
    ensures too_large { result ≡ Err LayingFault.TooLarge → DoNotFit start (all_chain_words (map (chain (with_classes classes.now) generic.now) (tuples firsts.now))) }
{
    let mut laid = LaidChains {
        cells: WordList::new(alloc),
        words: WordList::new(alloc),
    };
    for index in 0..count {
        let tuple = tuple_at(alloc, firsts, count, index)?;
        let chain = chain_of(alloc, generic, classes, &tuple)?;
        laid.take(start, &chain)?;
    }
    Ok(laid)
}
