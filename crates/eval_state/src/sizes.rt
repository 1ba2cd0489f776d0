// The words of the stack that the applications of a program take, counted once for the program.

ghost use Rattle.std.specs.Prelude.{◌≡◌, ◌≤◌, ◌<◌, ◌^◌, IfOk, MatchOption, map, option_map, slice_get};
ghost use Rattle.flat_language.specs.declared.program.FlatProgram.{FlatProgram as Flat};
ghost use Rattle.lang_meaning.specs.Counts.{application_words};
ghost use Rattle.eval_state.specs.Sizes.{AreSizes, form_words, procedure_words};

use crate::body_nodes::form_nodes;
use base::{ItemList, NoMemory};
use flat_language::{FlatCore, FlatProcedureList, FlatProgram};
use std::alloc::Global;

/// The words of the stack that an application of each procedure, and of each function that forms make, takes.
#[derive(Drop)]
pub struct Sizes {
    procedures: ItemList<u64>,
    lambdas: ItemList<u64>,
}

impl Sizes {
    /// Those of a program. A number of words that passes 64 bits is want of memory.
    pub fn new(alloc: Global, program: &FlatProgram) -> Result<Sizes, NoMemory>
        ensures { IfOk result (λ s. AreSizes program.now s) }
    {
        let procedures = procedure_list_words(alloc, &program.procedures)?;
        let lambdas = procedure_list_words(alloc, &program.lambdas)?;
        Ok(Sizes {
            procedures,
            lambdas,
        })
    }

    /// The words of a procedure.
    pub fn procedure(&self, number: usize) -> Option<u64>
        ensures { (program : Flat) → AreSizes program self.now → result ≡ option_map procedure_words (slice_get program.procedures number) }
    {
        self.procedures.get(number).copied()
    }

    /// The words of a function that a form made.
    pub fn lambda(&self, number: usize) -> Option<u64>
        ensures { (program : Flat) → AreSizes program self.now → result ≡ option_map procedure_words (slice_get program.lambdas number) }
    {
        self.lambdas.get(number).copied()
    }
}

// The words of each procedure.
fn procedure_list_words(alloc: Global, list: &FlatProcedureList) -> Result<ItemList<u64>, NoMemory>
    ensures { IfOk result (λ words. words ≡ map procedure_words list.now) }
{
    let mut words = ItemList::new(alloc);
    for procedure in list.as_slice() {
        words.push(form_words(&procedure.body)?)?;
    }
    Ok(words)
}

/// The words of an application whose body that is.
pub fn form_words(form: &FlatCore) -> Result<u64, NoMemory>
    ensures { IfOk result (λ words. words ≡ form_words form.now) }
{
    match words_of(form_nodes(form)) {
        Some(words) => Ok(words),
        None => Err(NoMemory),
    }
}

// The words of an application whose body has so many nodes, where they fit 64 bits.
fn words_of(nodes: u64) -> Option<u64>
    ensures { MatchOption result (2 ^ 64 ≤ application_words nodes) (λ words. (words ≡ application_words nodes) × (words < 2 ^ 64)) }
{
    nodes.checked_mul(16)?.checked_add(16)
}
