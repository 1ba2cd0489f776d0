// A text judged as a whole program behind the library.

ghost use Rattle.std.specs.Prelude.{IfOk, IfErr};
ghost use Rattle.front_files.specs.Verdicts.{Accepts, IsNoProgram};
ghost use Rattle.top_main.specs.Theorem.{library};

use base::Stop;
use front_files::{Mode, Whole, read_program_with};
use front_library::PRELUDE;
use std::alloc::Global;
use top_expansion::Expander;

/// The program that a text is behind the library, with calls of macros expanded by runs of their expanders' images.
pub(crate) fn read_program(alloc: Global, text: &[u8], mode: Mode) -> Result<Whole, Stop>
    ensures program { IfOk result (λ whole. Accepts library text.now mode whole.names whole.program) }
    ensures stops { IfErr result (IsNoProgram library text.now mode) }
{
    read_program_with(alloc, text, PRELUDE, mode, &mut Expander)
}
