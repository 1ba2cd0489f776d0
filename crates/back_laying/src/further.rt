// The further words of a program: those behind all objects.

ghost use Rattle.std.specs.Prelude.{◌≡◌, Err, IfOk};
ghost use Rattle.back_words.specs.Words as words_specs;
ghost use Rattle.back_laying.specs.TooLarge.{DoNotFit};

use crate::arities::{arities_fit, push_arities};
use crate::faults::{LayingFault, behind};
use crate::generics::push_generics;
use base::WordList;
use flat_language::FlatProgram;
use std::alloc::Global;

/// The words behind all objects, from an address on, where the symbols of names have these words: how
/// many arguments each procedure and each function of a form takes, the address of each generic
/// function's words, and these.
pub fn further_words(
    alloc: Global,
    program: &FlatProgram,
    symbols: &WordList,
    address: u32,
) -> Result<WordList, LayingFault>
    ensures words { IfOk result (λ ws. ws ≡ words_specs.further_words program.now symbols.now address) }
    ensures too_large { result ≡ Err LayingFault.TooLarge → DoNotFit address (words_specs.further_words program.now symbols.now address) }
{
    if !arities_fit(&program.procedures) || !arities_fit(&program.lambdas) {
        return Err(LayingFault::TooLarge);
    }
    let generics = behind(
        behind(address, program.procedures.len())?,
        program.lambdas.len(),
    )?;
    let mut words = WordList::new(alloc);
    push_arities(&mut words, &program.procedures)?;
    push_arities(&mut words, &program.lambdas)?;
    push_generics(
        alloc,
        &mut words,
        &program.generics,
        &program.classes,
        symbols,
        generics,
    )?;
    Ok(words)
}
