// The program of a call compiled: its image, and the symbols that stand in it.

ghost use Rattle.std.specs.Prelude.{IfOk};
ghost use Rattle.top_expansion.specs.Compiles.{IsCompiled};

use back_build::{Built, build};
use base::{Names, NoMemory};
use front_names::are_names_below;
use lang_meaning::Program;
use std::alloc::Global;

/// The image of a program with these names, and its symbols: in every arena that has room for it, it does what the
/// program means, and what it halts with is found in the memory. A program that is not compiled is answered as want of
/// memory.
pub(crate) fn compile(alloc: Global, names: &Names, program: &Program) -> Result<Built, NoMemory>
    ensures { IfOk result (λ built. IsCompiled names.now program.now built) }
{
    let are = are_names_below(program, names.len());
    if !are {
        return Err(NoMemory);
    }
    match build(alloc, program, names) {
        Ok(built) => Ok(built),
        Err(_) => Err(NoMemory),
    }
}
